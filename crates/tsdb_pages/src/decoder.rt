//! From bytes to values. It depends on the four encodings.
ghost use Rattle.std.specs.Prelude.{◌≡◌, map, true, FitsSigned, IfOk, IsErrOf};
ghost use Rattle.std.specs.Int.{w32, w64};
ghost use Rattle.tsdb_base.specs.declared.value.DataType.{DataType as Types};
ghost use Rattle.tsdb_base.specs.declared.value.DataType.TheVariants as types;
ghost use Rattle.tsdb_base.specs.declared.value.Value.{Value as Values};
ghost use Rattle.tsdb_base.specs.declared.value.Value.TheVariants as value;
ghost use Rattle.tsdb_base.specs.Plain.{IsText};
ghost use Rattle.tsdb_base.specs.Values.{is_suitable, IsValueOf};
ghost use Rattle.tsdb_bits.specs.Lists.{IsOnly, IsSpelling, SpellNone};
ghost use Rattle.tsdb_pages.specs.ListSpelling.{spelling};
ghost use Rattle.tsdb_pages.specs.ListSteps.{MakesValues, spelling_of};
ghost use Rattle.tsdb_pages.specs.TypeLaws.{makes_booleans, makes_int32, makes_int64, makes_texts};

use std::alloc::Global;
use tsdb_base::{DataType, DecodeFault, Encoding, Memory, Text, Value};

/// The list of at most 1,000 values of the type with these bytes, in an encoding that suits it. It is `Bad` exactly
/// where there is none.
pub fn decode(
    alloc: Global,
    data_type: DataType,
    encoding: Encoding,
    bytes: &[u8],
) -> Result<Vec<Value>, DecodeFault>
    requires suits { is_suitable data_type encoding ≡ true }
    ensures found { IfOk result (λ values.
        IsSpelling (spelling encoding) (IsValueOf data_type) bytes.now values.items) }
    ensures only { IfOk result (λ values. IsOnly (spelling encoding) (IsValueOf data_type) bytes.now values.items) }
    ensures bad { IsErrOf result DecodeFault.Bad → SpellNone (spelling encoding) (IsValueOf data_type) bytes.now }
{
    match data_type {
        DataType::Boolean => values_in::<bool>(alloc, encoding, bytes),
        DataType::Int32 => values_in::<i32>(alloc, encoding, bytes),
        DataType::Int64 => values_in::<i64>(alloc, encoding, bytes),
        DataType::Text => values_in::<Text>(alloc, encoding, bytes),
    }
}

/// A type of the language that has the values of one type of series.
trait ValueType: Drop + Sized {
    ghost data_type: { Types };

    ghost as_value: { Self → Values };

    ghost is_value: { Self → Type 0 };

    ghost makes_values: { MakesValues data_type as_value is_value };

    /// The list with these bytes.
    fn list_in(alloc: Global, encoding: Encoding, bytes: &[u8]) -> Result<Vec<Self>, DecodeFault>
        requires suits { is_suitable data_type encoding ≡ true }
        ensures found { IfOk result (λ list.
            IsSpelling (spelling_of as_value encoding) is_value bytes.now list.items) }
        ensures bad { IsErrOf result DecodeFault.Bad → SpellNone (spelling_of as_value encoding) is_value bytes.now };

    fn into_value(self) -> Value
        ensures { result ≡ as_value self };
}

impl ValueType for bool {
    ghost data_type = { types.Boolean };

    ghost as_value = { value.Bool };

    ghost is_value = { λ _. Unit {0} };

    ghost makes_values = { makes_booleans };

    fn list_in(alloc: Global, encoding: Encoding, bytes: &[u8]) -> Result<Vec<bool>, DecodeFault> {
        match encoding {
            Encoding::Plain => enc_plain::decode_bool(alloc, bytes),
            Encoding::Rle => enc_rle::decode_bool(alloc, bytes),
            Encoding::Ts2diff | Encoding::Dictionary => unreachable!(),
        }
    }

    fn into_value(self) -> Value {
        Value::Bool(self)
    }
}

impl ValueType for i32 {
    ghost data_type = { types.Int32 };

    ghost as_value = { value.I32 };

    ghost is_value = { FitsSigned w32 };

    ghost makes_values = { makes_int32 };

    fn list_in(alloc: Global, encoding: Encoding, bytes: &[u8]) -> Result<Vec<i32>, DecodeFault> {
        match encoding {
            Encoding::Plain => enc_plain::decode_i32(alloc, bytes),
            Encoding::Rle => enc_rle::decode_i32(alloc, bytes),
            Encoding::Ts2diff => enc_ts2diff::decode_i32(alloc, bytes),
            Encoding::Dictionary => unreachable!(),
        }
    }

    fn into_value(self) -> Value {
        Value::I32(self)
    }
}

impl ValueType for i64 {
    ghost data_type = { types.Int64 };

    ghost as_value = { value.I64 };

    ghost is_value = { FitsSigned w64 };

    ghost makes_values = { makes_int64 };

    fn list_in(alloc: Global, encoding: Encoding, bytes: &[u8]) -> Result<Vec<i64>, DecodeFault> {
        match encoding {
            Encoding::Plain => enc_plain::decode_i64(alloc, bytes),
            Encoding::Rle => enc_rle::decode_i64(alloc, bytes),
            Encoding::Ts2diff => enc_ts2diff::decode_i64(alloc, bytes),
            Encoding::Dictionary => unreachable!(),
        }
    }

    fn into_value(self) -> Value {
        Value::I64(self)
    }
}

impl ValueType for Text {
    ghost data_type = { types.Text };

    ghost as_value = { value.Text };

    ghost is_value = { IsText };

    ghost makes_values = { makes_texts };

    fn list_in(alloc: Global, encoding: Encoding, bytes: &[u8]) -> Result<Vec<Text>, DecodeFault> {
        match encoding {
            Encoding::Plain => enc_plain::decode_text(alloc, bytes),
            Encoding::Dictionary => enc_dict::decode_text(alloc, bytes),
            Encoding::Rle | Encoding::Ts2diff => unreachable!(),
        }
    }

    fn into_value(self) -> Value {
        Value::Text(self)
    }
}

/// The list with these bytes, as values.
fn values_in<T: ValueType>(
    alloc: Global,
    encoding: Encoding,
    bytes: &[u8],
) -> Result<Vec<Value>, DecodeFault>
    requires suits { is_suitable T.data_type encoding ≡ true }
    ensures found { IfOk result (λ values.
        IsSpelling (spelling encoding) (IsValueOf T.data_type) bytes.now values.items) }
    ensures only { IfOk result (λ values. IsOnly (spelling encoding) (IsValueOf T.data_type) bytes.now values.items) }
    ensures bad { IsErrOf result DecodeFault.Bad → SpellNone (spelling encoding) (IsValueOf T.data_type) bytes.now }
{
    let list = T::list_in(alloc, encoding, bytes)?;
    let values = as_values(alloc, list)?;
    Ok(values)
}

fn as_values<T: ValueType>(alloc: Global, list: Vec<T>) -> Result<Vec<Value>, Memory>
    ensures { IfOk result (λ values. values.items ≡ map T.as_value list.items) }
{
    let mut values = Vec::with_capacity(alloc, list.len())?;
    for item in list {
        values.push(item.into_value())?;
    }
    Ok(values)
}
