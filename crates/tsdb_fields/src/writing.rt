//! Writing one field behind what is there. Numbers, types and encodings are written by `PlainValue::put`.
//! Depends on tsdb_base and tsdb_path.
ghost use Rattle.std.specs.Prelude.{◌≡◌, ◌++◌, OnOk, OnErr};
ghost use Rattle.tsdb_base.specs.Fields.{value_field};
ghost use Rattle.tsdb_base.specs.Growth.{GrewByPrefix};
ghost use Rattle.tsdb_base.specs.Plain.{plain_text, IsText};

use tsdb_base::{Memory, PlainValue, Value};
use tsdb_path::{Name, Path};

/// Appends two bytes of length, the higher first, and the bytes of a path or a name.
fn write_counted(bytes: &[u8], into: &mut Vec<u8>) -> Result<(), Memory>
    requires { IsText bytes.now }
    ensures ok { OnOk result (into.new.items ≡ into.old.items ++ plain_text bytes.now) }
    ensures memory { OnErr result (GrewByPrefix into.old.items (plain_text bytes.now) into.new.items) }
{
    into.extend_from_slice(&(bytes.len() as u16).to_be_bytes())?;
    into.extend_from_slice(bytes)?;
    Ok(())
}

/// Appends the bytes of a path. After `Memory` it has appended a prefix of them at most.
pub fn write_path(path: &Path, into: &mut Vec<u8>) -> Result<(), Memory>
    ensures ok { OnOk result (into.new.items ≡ into.old.items ++ plain_text path.now) }
    ensures memory { OnErr result (GrewByPrefix into.old.items (plain_text path.now) into.new.items) }
{
    write_counted(path.bytes(), into)
}

/// Appends the bytes of a name. After `Memory` it has appended a prefix of them at most.
pub fn write_name(name: &Name, into: &mut Vec<u8>) -> Result<(), Memory>
    ensures ok { OnOk result (into.new.items ≡ into.old.items ++ plain_text name.now) }
    ensures memory { OnErr result (GrewByPrefix into.old.items (plain_text name.now) into.new.items) }
{
    write_counted(name.bytes(), into)
}

/// Appends the bytes of a value. After `Memory` it has appended a prefix of them at most.
pub fn write_value(value: &Value, into: &mut Vec<u8>) -> Result<(), Memory>
    ensures ok { OnOk result (into.new.items ≡ into.old.items ++ value_field value.now) }
    ensures memory { OnErr result (GrewByPrefix into.old.items (value_field value.now) into.new.items) }
{
    match value {
        Value::Bool(truth) => truth.put(into),
        Value::I32(number) => number.put(into),
        Value::I64(number) => number.put(into),
        Value::Text(text) => text.put(into),
    }
}
