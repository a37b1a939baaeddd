//! From lists to bytes. It depends on `tsdb_base` and `tsdb_bits`.
ghost use Rattle.std.specs.Prelude.{◌≡◌, ◌≤◌, ◌++◌, length, take, vec_len, OnOk, OnErr};
ghost use Rattle.tsdb_base.specs.Limits.{max_values};
ghost use Rattle.tsdb_base.specs.Plain.{plain_bool, plain_i32, plain_i64, plain_text};
ghost use Rattle.enc_plain.specs.Spelling.{spelling};

use tsdb_base::{Memory, PlainValue, Text, put_all};
use tsdb_bits::{all_or_none, put_leb};

/// Appends the bytes of at most 1,000 BOOLEAN values. After `Memory` the list is as it was.
pub fn encode_bool_into(values: &[bool], into: &mut Vec<u8>) -> Result<(), Memory>
    requires { length values.now ≤ max_values }
    ensures ok { OnOk result (into.new.items ≡ into.old.items ++ spelling plain_bool values.now) }
    ensures memory { OnErr result (into.new.items ≡ into.old.items) }
{
    encode_into(values, into)
}

/// Appends the bytes of at most 1,000 INT32 values. After `Memory` the list is as it was.
pub fn encode_i32_into(values: &[i32], into: &mut Vec<u8>) -> Result<(), Memory>
    requires { length values.now ≤ max_values }
    ensures ok { OnOk result (into.new.items ≡ into.old.items ++ spelling plain_i32 values.now) }
    ensures memory { OnErr result (into.new.items ≡ into.old.items) }
{
    encode_into(values, into)
}

/// Appends the bytes of at most 1,000 INT64 values. After `Memory` the list is as it was.
pub fn encode_i64_into(values: &[i64], into: &mut Vec<u8>) -> Result<(), Memory>
    requires { length values.now ≤ max_values }
    ensures ok { OnOk result (into.new.items ≡ into.old.items ++ spelling plain_i64 values.now) }
    ensures memory { OnErr result (into.new.items ≡ into.old.items) }
{
    encode_into(values, into)
}

/// Appends the bytes of at most 1,000 TEXT values. After `Memory` the list is as it was.
pub fn encode_text_into(values: &[Text], into: &mut Vec<u8>) -> Result<(), Memory>
    requires { length values.now ≤ max_values }
    ensures ok { OnOk result (into.new.items ≡ into.old.items ++ spelling plain_text values.now) }
    ensures memory { OnErr result (into.new.items ≡ into.old.items) }
{
    encode_into(values, into)
}

fn encode_into<T: PlainValue>(values: &[T], into: &mut Vec<u8>) -> Result<(), Memory>
    ensures ok { OnOk result (into.new.items ≡ into.old.items ++ spelling T.spelling values.now) }
    ensures memory { OnErr result (into.new.items ≡ into.old.items) }
{
    let start = into.len();
    let appended = append(values, into);
    all_or_none(appended, start, into)
}

/// Appends the bytes. After `Memory` some of them may stand behind what was there.
fn append<T: PlainValue>(values: &[T], into: &mut Vec<u8>) -> Result<(), Memory>
    ensures ok { OnOk result (into.new.items ≡ into.old.items ++ spelling T.spelling values.now) }
    ensures kept { take (vec_len into.old) into.new.items ≡ into.old.items }
{
    put_leb(values.len() as u64, into)?;
    put_all(values, into)?;
    Ok(())
}
