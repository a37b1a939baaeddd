//! From bytes to lists. It depends on `tsdb_bits` and on the codes.

ghost use Rattle.std.specs.Prelude.{◌≡◌, ℕ, ◌≤◌, List, ◌++◌, replicate, IfOk, OnOk, OnErr, IsErrOf, FitsSigned};
ghost use Rattle.std.specs.Int.{w32, w64};
ghost use Rattle.tsdb_base.specs.Plain.{BeginsWithNone};
ghost use Rattle.tsdb_bits.specs.Zigzag.{zigzag};
ghost use Rattle.tsdb_bits.specs.Lists.{IsSpelling, IsOnly, SpellNone};
ghost use Rattle.enc_rle.specs.Spelling.{bool_code, run_bytes, spelling};
ghost use Rattle.enc_rle.specs.Steps.{MayFollowRun};

use crate::coded::Coded;
use std::alloc::Global;
use tsdb_base::DecodeFault;
use tsdb_bits::{take_count, take_number};

/// The list of at most 1,000 BOOLEAN values with these bytes. It is `Bad` exactly where there is none.
pub fn decode_bool(alloc: Global, bytes: &[u8]) -> Result<Vec<bool>, DecodeFault>
    ensures found { IfOk result (λ values. IsSpelling (spelling bool_code) (λ _. Unit {0}) bytes.now values.items) }
    ensures only { IfOk result (λ values. IsOnly (spelling bool_code) (λ _. Unit {0}) bytes.now values.items) }
    ensures bad { IsErrOf result DecodeFault.Bad → SpellNone (spelling bool_code) (λ _. Unit {0}) bytes.now }
{
    decode(alloc, bytes)
}

/// The list of at most 1,000 INT32 values with these bytes. It is `Bad` exactly where there is none.
pub fn decode_i32(alloc: Global, bytes: &[u8]) -> Result<Vec<i32>, DecodeFault>
    ensures found { IfOk result (λ values. IsSpelling (spelling zigzag) (FitsSigned w32) bytes.now values.items) }
    ensures only { IfOk result (λ values. IsOnly (spelling zigzag) (FitsSigned w32) bytes.now values.items) }
    ensures bad { IsErrOf result DecodeFault.Bad → SpellNone (spelling zigzag) (FitsSigned w32) bytes.now }
{
    decode(alloc, bytes)
}

/// The list of at most 1,000 INT64 values with these bytes. It is `Bad` exactly where there is none.
pub fn decode_i64(alloc: Global, bytes: &[u8]) -> Result<Vec<i64>, DecodeFault>
    ensures found { IfOk result (λ values. IsSpelling (spelling zigzag) (FitsSigned w64) bytes.now values.items) }
    ensures only { IfOk result (λ values. IsOnly (spelling zigzag) (FitsSigned w64) bytes.now values.items) }
    ensures bad { IsErrOf result DecodeFault.Bad → SpellNone (spelling zigzag) (FitsSigned w64) bytes.now }
{
    decode(alloc, bytes)
}

/// Each run has at least one value and another value than the run before it, and the lengths add up
/// to the number of values. So the bytes are those of the list.
fn decode<T: Coded>(alloc: Global, bytes: &[u8]) -> Result<Vec<T>, DecodeFault>
    ensures found { IfOk result (λ values. IsSpelling (spelling T.code_of) T.is_value bytes.now values.items) }
    ensures only { IfOk result (λ values. IsOnly (spelling T.code_of) T.is_value bytes.now values.items) }
    ensures bad { IsErrOf result DecodeFault.Bad → SpellNone (spelling T.code_of) T.is_value bytes.now }
{
    let (count, mut rest) = take_count(bytes)?;
    let mut values = Vec::with_capacity(alloc, count)?;
    let mut last: u64 = 0;
    'runs: while values.len() < count {
        let room = (count - values.len()) as u64;
        let (len, code, behind) = next_run(rest, room, values.is_empty(), last)?;
        let Some(value) = T::value(code) else {
            return Err(DecodeFault::Bad);
        };
        push_run(len, value, &mut values)?;
        last = code;
        rest = behind;
    }
    if !rest.is_empty() {
        return Err(DecodeFault::Bad);
    }
    Ok(values)
}

/// The length and the code of the run that the bytes begin with, and the bytes behind it. It is
/// `Bad` where they begin with no run of at most `room` values whose code is not `last`, unless it
/// is the first.
fn next_run(
    bytes: &[u8],
    room: u64,
    is_first: bool,
    last: u64,
) -> Result<(u64, u64, &[u8]), DecodeFault>
    ensures found { IfOk result (λ r. bytes.now ≡ run_bytes (record { count = r.0; code = r.1 }) ++ r.2.now) }
    ensures follows { IfOk result (λ r. MayFollowRun room is_first last (record { count = r.0; code = r.1 })) }
    ensures bad { OnErr result (result ≡ Err DecodeFault.Bad) }
    ensures none { OnErr result (BeginsWithNone run_bytes (MayFollowRun room is_first last) bytes.now) }
{
    let (count, rest) = take_number(bytes)?;
    let (code, rest) = take_number(rest)?;
    if count == 0 {
        return Err(DecodeFault::Bad);
    }
    if count > room {
        return Err(DecodeFault::Bad);
    }
    if !is_first && code == last {
        return Err(DecodeFault::Bad);
    }
    Ok((count, code, rest))
}

/// Appends a run of equal values.
fn push_run<T: Coded>(count: u64, value: T, values: &mut Vec<T>) -> Result<(), DecodeFault>
    ensures ok { OnOk result (values.new.items ≡ values.old.items ++ replicate count value) }
    ensures memory { OnErr result (result ≡ Err DecodeFault.Memory) }
{
    for _ in 0..count {
        values.push(value)?;
    }
    Ok(())
}
