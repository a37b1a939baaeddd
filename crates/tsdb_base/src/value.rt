//! Values, their types, and the encodings that suit each type.
ghost use Rattle.std.specs.Prelude.{◌≡◌, ◌≢◌, IfOk, IsOk};
ghost use Rattle.tsdb_base.specs.Values.{is_suitable, type_of};

use crate::fault::Memory;
use crate::text::Text;

/// The type of a series.
#[derive(Clone, Copy, Debug, PartialEq, Eq)]
pub enum DataType {
    Boolean,
    Int32,
    Int64,
    Text,
}

/// How the values of a page are written.
#[derive(Clone, Copy, Debug, PartialEq, Eq)]
pub enum Encoding {
    /// Each value by itself.
    Plain,
    /// The different texts, and the place of each value among them.
    Dictionary,
    /// Runs of equal values.
    Rle,
    /// The first value, and the differences between neighbours.
    Ts2diff,
}

/// A value of one of the types.
#[derive(Debug, PartialEq, Eq, Drop)]
pub enum Value {
    Bool(bool),
    I32(i32),
    I64(i64),
    Text(Text),
}

impl Value {
    /// The same value once more. A number and a boolean take no memory.
    pub fn copy(&self) -> Result<Value, Memory>
        ensures same { IfOk result (λ copy. copy ≡ self.now) }
        ensures fixed { type_of self.now ≢ DataType.Text → IsOk result }
    {
        match self {
            Value::Bool(truth) => Ok(Value::Bool(*truth)),
            Value::I32(number) => Ok(Value::I32(*number)),
            Value::I64(number) => Ok(Value::I64(*number)),
            Value::Text(text) => Ok(Value::Text(text.clone()?)),
        }
    }

    /// The type of the value.
    pub fn data_type(&self) -> DataType
        ensures { result ≡ type_of self.now }
    {
        match self {
            Value::Bool(_) => DataType::Boolean,
            Value::I32(_) => DataType::Int32,
            Value::I64(_) => DataType::Int64,
            Value::Text(_) => DataType::Text,
        }
    }
}

/// Whether values of the type can be written so.
pub fn suits(data_type: DataType, encoding: Encoding) -> bool
    ensures { result ≡ is_suitable data_type encoding }
{
    match encoding {
        Encoding::Plain => true,
        Encoding::Rle => data_type != DataType::Text,
        Encoding::Ts2diff => matches!(data_type, DataType::Int32 | DataType::Int64),
        Encoding::Dictionary => data_type == DataType::Text,
    }
}
