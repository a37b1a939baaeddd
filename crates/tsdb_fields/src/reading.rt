//! Reading one field. Depends on `rest` and `fault`.
ghost use Rattle.std.specs.Prelude.{◌≡◌, ◌≢◌};
ghost use Rattle.tsdb_base.specs.Fields.{value_field};
ghost use Rattle.tsdb_base.specs.Plain.{plain_text, IsText};
ghost use Rattle.tsdb_base.specs.Values.{IsValueOf};
ghost use Rattle.tsdb_path.specs.Nodes.{IsName, IsPath};
ghost use Rattle.tsdb_fields.specs.Reading.{Reads};

use crate::fault::FieldFault;
use crate::rest::Rest;
use std::alloc::Global;
use tsdb_base::{DataType, DecodeFault, PlainValue, Text, Value};
use tsdb_path::{Name, Path, PathFault};

/// Reads a field that is written as a value by itself.
pub fn read_field<'a, T: PlainValue>(
    alloc: Global,
    rest: Rest<'a>,
) -> Result<(T, Rest<'a>), FieldFault>
    ensures exact { Reads T.spelling T.is_value rest.entry (λ field. field) result }
{
    match T::take(alloc, rest.bytes) {
        Ok((field, bytes)) => {
            let at = rest.at + (rest.bytes.len() - bytes.len()) as u64;
            Ok((field, Rest { at, bytes }))
        }
        Err(DecodeFault::Bad) => Err(FieldFault::Bad { at: rest.at }),
        Err(DecodeFault::Memory) => Err(FieldFault::Memory),
    }
}

/// Reads two bytes of length and so many bytes, which are lent.
fn read_counted<'a>(rest: Rest<'a>) -> Result<(&'a [u8], Rest<'a>), FieldFault>
    ensures exact { Reads plain_text IsText rest.entry (λ bytes. bytes.now) result }
{
    if rest.bytes.len() < 2 {
        return Err(FieldFault::Bad { at: rest.at });
    }
    let (front, behind) = rest.bytes.split_at(2);
    let count = u16::from_be_bytes([front[0], front[1]]) as usize;
    if behind.len() < count {
        return Err(FieldFault::Bad { at: rest.at });
    }
    let (bytes, behind) = behind.split_at(count);
    let at = rest.at + 2 + count as u64;
    Ok((bytes, Rest { at, bytes: behind }))
}

/// The fault of a field at this place whose bytes are no path or no name.
fn field_fault(fault: PathFault, at: u64) -> FieldFault
    ensures memory { fault ≡ PathFault.Memory → result ≡ FieldFault.Memory }
    ensures bad { fault ≢ PathFault.Memory → result ≡ FieldFault.Bad at }
{
    match fault {
        PathFault::Memory => FieldFault::Memory,
        _ => FieldFault::Bad { at },
    }
}

/// Reads a path: two bytes of length, and its bytes.
pub fn read_path<'a>(alloc: Global, rest: Rest<'a>) -> Result<(Path, Rest<'a>), FieldFault>
    ensures exact { Reads plain_text IsPath rest.entry (λ path. path) result }
{
    let (bytes, behind) = read_counted(rest)?;
    match Path::read(alloc, bytes) {
        Ok(path) => Ok((path, behind)),
        Err(fault) => Err(field_fault(fault, rest.at)),
    }
}

/// Reads a name: two bytes of length, and its bytes.
pub fn read_name<'a>(alloc: Global, rest: Rest<'a>) -> Result<(Name, Rest<'a>), FieldFault>
    ensures exact { Reads plain_text IsName rest.entry (λ name. name) result }
{
    let (bytes, behind) = read_counted(rest)?;
    match Name::read(alloc, bytes) {
        Ok(name) => Ok((name, behind)),
        Err(fault) => Err(field_fault(fault, rest.at)),
    }
}

/// Reads a value of this type.
pub fn read_value<'a>(
    alloc: Global,
    data_type: DataType,
    rest: Rest<'a>,
) -> Result<(Value, Rest<'a>), FieldFault>
    ensures exact { Reads value_field (IsValueOf data_type) rest.entry (λ value. value) result }
{
    match data_type {
        DataType::Boolean => {
            let (value, behind) = read_field(alloc, rest)?;
            Ok((Value::Bool(value), behind))
        }
        DataType::Int32 => {
            let (value, behind) = read_field(alloc, rest)?;
            Ok((Value::I32(value), behind))
        }
        DataType::Int64 => {
            let (value, behind) = read_field(alloc, rest)?;
            Ok((Value::I64(value), behind))
        }
        DataType::Text => {
            let (value, behind) = read_field(alloc, rest)?;
            Ok((Value::Text(value), behind))
        }
    }
}
