//! From lists to bytes. It depends on `tsdb_bits` and on the codes.

ghost use Rattle.std.specs.Prelude.{◌≡◌, ◌≤◌, ◌++◌, length, map, take, vec_len, OnOk, OnErr};
ghost use Rattle.tsdb_base.specs.Limits.{max_values};
ghost use Rattle.tsdb_bits.specs.Leb.{leb};
ghost use Rattle.tsdb_bits.specs.Zigzag.{zigzag};
ghost use Rattle.enc_rle.specs.Spelling.{bool_code, spelling};

use crate::coded::Coded;
use tsdb_base::Memory;
use tsdb_bits::{all_or_none, put_leb};

/// Appends the bytes of at most 1,000 BOOLEAN values. After `Memory` the list is as it was.
pub fn encode_bool_into(values: &[bool], into: &mut Vec<u8>) -> Result<(), Memory>
    requires { length values.now ≤ max_values }
    ensures ok { OnOk result (into.new.items ≡ into.old.items ++ spelling bool_code values.now) }
    ensures memory { OnErr result (into.new.items ≡ into.old.items) }
{
    encode_into(values, into)
}

/// Appends the bytes of at most 1,000 INT32 values. After `Memory` the list is as it was.
pub fn encode_i32_into(values: &[i32], into: &mut Vec<u8>) -> Result<(), Memory>
    requires { length values.now ≤ max_values }
    ensures ok { OnOk result (into.new.items ≡ into.old.items ++ spelling zigzag values.now) }
    ensures memory { OnErr result (into.new.items ≡ into.old.items) }
{
    encode_into(values, into)
}

/// Appends the bytes of at most 1,000 INT64 values. After `Memory` the list is as it was.
pub fn encode_i64_into(values: &[i64], into: &mut Vec<u8>) -> Result<(), Memory>
    requires { length values.now ≤ max_values }
    ensures ok { OnOk result (into.new.items ≡ into.old.items ++ spelling zigzag values.now) }
    ensures memory { OnErr result (into.new.items ≡ into.old.items) }
{
    encode_into(values, into)
}

fn encode_into<T: Coded>(values: &[T], into: &mut Vec<u8>) -> Result<(), Memory>
    ensures ok { OnOk result (into.new.items ≡ into.old.items ++ spelling T.code_of values.now) }
    ensures memory { OnErr result (into.new.items ≡ into.old.items) }
{
    let start = into.len();
    let appended = append(values, into);
    all_or_none(appended, start, into)
}

/// Appends the bytes. After `Memory` some of them may stand behind what was there.
fn append<T: Coded>(values: &[T], into: &mut Vec<u8>) -> Result<(), Memory>
    ensures ok { OnOk result (into.new.items ≡ into.old.items ++ spelling T.code_of values.now) }
    ensures kept { take (vec_len into.old) into.new.items ≡ into.old.items }
{
    put_leb(values.len() as u64, into)?;
    let mut count: u64 = 0;
    let mut last: u64 = 0;
    for value in values {
        let code = value.code();
        if count > 0 && code != last {
            put_run(count, last, into)?;
            count = 0;
        }
        last = code;
        count += 1;
    }
    if count > 0 {
        put_run(count, last, into)?;
    }
    Ok(())
}

/// Appends a run's length and code.
fn put_run(count: u64, code: u64, into: &mut Vec<u8>) -> Result<(), Memory>
    ensures ok { OnOk result (into.new.items ≡ into.old.items ++ (leb count ++ leb code)) }
    ensures kept { take (vec_len into.old) into.new.items ≡ into.old.items }
{
    put_leb(count, into)?;
    put_leb(code, into)?;
    Ok(())
}
