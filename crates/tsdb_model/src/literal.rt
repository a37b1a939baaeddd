//! Literals as values of a type. Depends on `command`.
ghost use Rattle.std.specs.Prelude.{◌≡◌, IfOk, is_some};
ghost use Rattle.tsdb_model.specs.Apply as apply;

use crate::command::Literal;
use tsdb_base::{DataType, Memory, Text, Value};

/// Whether a literal fits a type.
pub fn fits(literal: &Literal, data_type: DataType) -> bool
    ensures { result ≡ is_some (apply.value_of literal.now data_type) }
{
    match (literal, data_type) {
        (Literal::Bool(_), DataType::Boolean) => true,
        (Literal::Int(number), DataType::Int32) => i32::try_from(*number).is_ok(),
        (Literal::Int(_), DataType::Int64) => true,
        (Literal::Text(_), DataType::Text) => true,
        _ => false,
    }
}

/// The value of a type that a literal is, if it fits the type.
pub fn value_of(literal: &Literal, data_type: DataType) -> Result<Option<Value>, Memory>
    ensures { IfOk result (λ value. value ≡ apply.value_of literal.now data_type) }
{
    match (literal, data_type) {
        (Literal::Bool(b), DataType::Boolean) => Ok(Some(Value::Bool(*b))),
        (Literal::Int(number), DataType::Int32) => match i32::try_from(*number) {
            Ok(number) => Ok(Some(Value::I32(number))),
            Err(_) => Ok(None),
        },
        (Literal::Int(number), DataType::Int64) => Ok(Some(Value::I64(*number))),
        (Literal::Text(text), DataType::Text) => Ok(Some(Value::Text(text.clone()?))),
        _ => Ok(None),
    }
}
