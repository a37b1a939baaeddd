//! From lists to bytes. It depends on `tsdb_bits`.

ghost use Rattle.std.specs.Prelude.{◌≡◌, ℕ, ◌+◌, ◌^◌, ◌<◌, ◌≤◌, max, ℤ, List, ◌++◌, length, take, vec_len, fold, IfOk};
ghost use Rattle.std.specs.Prelude.{OnOk, OnErr, All, FitsSigned};
ghost use Rattle.std.specs.Int.{w64};
ghost use Rattle.tsdb_base.specs.Limits.{max_values};
ghost use Rattle.enc_ts2diff.specs.Spelling.{differences, least, offsets, block, spelling};

use std::alloc::Global;
use tsdb_base::Memory;
use tsdb_bits::{all_or_none, pack, put_leb, width, zigzag};

/// Appends the bytes of at most 1,000 INT64 values. After `Memory` the list is as it was.
pub fn encode_i64_into(alloc: Global, values: &[i64], into: &mut Vec<u8>) -> Result<(), Memory>
    requires { length values.now ≤ max_values }
    ensures ok { OnOk result (into.new.items ≡ into.old.items ++ spelling values.now) }
    ensures memory { OnErr result (into.new.items ≡ into.old.items) }
{
    let start = into.len();
    let appended = append(alloc, values, into);
    all_or_none(appended, start, into)
}

/// Appends the bytes of at most 1,000 INT32 values: those of the same numbers as INT64 values. After
/// `Memory` the list is as it was.
pub fn encode_i32_into(alloc: Global, values: &[i32], into: &mut Vec<u8>) -> Result<(), Memory>
    requires { length values.now ≤ max_values }
    ensures ok { OnOk result (into.new.items ≡ into.old.items ++ spelling values.now) }
    ensures memory { OnErr result (into.new.items ≡ into.old.items) }
{
    let mut wide = Vec::with_capacity(alloc, values.len())?;
    for value in values {
        wide.push(i64::from(*value))?;
    }
    encode_i64_into(alloc, &wide, into)
}

/// Appends the bytes. After `Memory` some of them may stand behind what was there.
fn append(alloc: Global, values: &[i64], into: &mut Vec<u8>) -> Result<(), Memory>
    ensures ok { OnOk result (into.new.items ≡ into.old.items ++ spelling values.now) }
    ensures kept { take (vec_len into.old) into.new.items ≡ into.old.items }
{
    put_leb(values.len() as u64, into)?;
    if let [first, rest @ ..] = values {
        put_leb(zigzag(*first), into)?;
        let steps = differences_of(alloc, *first, rest)?;
        put_block(alloc, &steps, into)?;
    }
    Ok(())
}

/// Each value less the one before it, modulo 2^64.
fn differences_of(alloc: Global, first: i64, values: &[i64]) -> Result<Vec<i64>, Memory>
    ensures { IfOk result (λ steps. steps.items ≡ differences first values.now) }
{
    let mut steps = Vec::with_capacity(alloc, values.len())?;
    let mut previous = first;
    for value in values {
        steps.push(value.wrapping_sub(previous))?;
        previous = *value;
    }
    Ok(steps)
}

/// Appends the least difference and the packed offsets.
fn put_block(alloc: Global, steps: &[i64], into: &mut Vec<u8>) -> Result<(), Memory>
    requires { All (FitsSigned w64) steps.now }
    ensures ok { OnOk result (into.new.items ≡ into.old.items ++ block steps.now) }
    ensures kept { take (vec_len into.old) into.new.items ≡ into.old.items }
{
    let [first, rest @ ..] = steps else {
        return Ok(());
    };
    let base = least_of(*first, rest);
    let above = offsets_of(alloc, base, steps)?;
    let digits = width(greatest_or_zero(&above));
    put_leb(zigzag(base), into)?;
    into.push(digits)?;
    pack(&above, digits, into)?;
    Ok(())
}

fn least_of(first: i64, rest: &[i64]) -> i64
    ensures { result ≡ least first rest.now }
{
    let mut smallest = first;
    for value in rest {
        smallest = smallest.min(*value);
    }
    smallest
}

fn offsets_of(alloc: Global, base: i64, steps: &[i64]) -> Result<Vec<u64>, Memory>
    ensures { IfOk result (λ above. above.items ≡ offsets base steps.now) }
{
    let mut above = Vec::with_capacity(alloc, steps.len())?;
    for step in steps {
        above.push(step.abs_diff(base))?;
    }
    Ok(above)
}

/// The greatest of the numbers, or 0.
pub fn greatest_or_zero(numbers: &[u64]) -> u64
    ensures { result ≡ fold max 0 numbers.now }
{
    let mut greatest: u64 = 0;
    for number in numbers {
        greatest = greatest.max(*number);
    }
    greatest
}
