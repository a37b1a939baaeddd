//! From bytes to lists. It depends on `tsdb_bits`.

ghost use Rattle.std.specs.Prelude.{◌≡◌, ◌↔◌, ℕ, ◌+◌, ◌-◌, ◌^◌, ◌<◌, ◌≤◌, ℤ, List, ◌∷◌, ◌++◌, length, min, fold, IfOk};
ghost use Rattle.std.specs.Prelude.{IsErrOf, IsTrue, All, FitsSigned};
ghost use Rattle.std.specs.Int.{w32, w64};
ghost use Rattle.tsdb_base.specs.Limits.{max_values};
ghost use Rattle.tsdb_bits.specs.Lists.{IsListOf, IsSpelling, IsOnly, SpellNone};
ghost use Rattle.enc_ts2diff.specs.Spelling.{block, spelling};
ghost use Rattle.enc_ts2diff.specs.Steps.{FindsList, FindsBlockOf, FindsRest, Restores, AreOffsets, offsets_above};

use crate::encode::greatest_or_zero;
use std::alloc::Global;
use tsdb_base::DecodeFault;
use tsdb_bits::{take_count, take_number, take_packed, unzigzag, width};

/// The list of at most 1,000 INT64 values with these bytes. It is `Bad` exactly where there is none.
pub fn decode_i64(alloc: Global, bytes: &[u8]) -> Result<Vec<i64>, DecodeFault>
    ensures found { IfOk result (λ values. IsSpelling spelling (FitsSigned w64) bytes.now values.items) }
    ensures only { IfOk result (λ values. IsOnly spelling (FitsSigned w64) bytes.now values.items) }
    ensures bad { IsErrOf result DecodeFault.Bad → SpellNone spelling (FitsSigned w64) bytes.now }
{
    list_in(alloc, bytes)
}

/// The list of at most 1,000 INT32 values with these bytes. It is `Bad` exactly where there is none.
pub fn decode_i32(alloc: Global, bytes: &[u8]) -> Result<Vec<i32>, DecodeFault>
    ensures found { IfOk result (λ values. IsSpelling spelling (FitsSigned w32) bytes.now values.items) }
    ensures only { IfOk result (λ values. IsOnly spelling (FitsSigned w32) bytes.now values.items) }
    ensures bad { IsErrOf result DecodeFault.Bad → SpellNone spelling (FitsSigned w32) bytes.now }
{
    let wide = decode_i64(alloc, bytes)?;
    let mut values = Vec::with_capacity(alloc, wide.len())?;
    for value in &wide {
        let Ok(value) = i32::try_from(*value) else {
            return Err(DecodeFault::Bad);
        };
        values.push(value)?;
    }
    Ok(values)
}

/// The list with these bytes.
fn list_in(alloc: Global, bytes: &[u8]) -> Result<Vec<i64>, DecodeFault>
    ensures found { IfOk result (λ values. IsSpelling spelling (FitsSigned w64) bytes.now values.items) }
    // Where a list has these bytes it is found, unless memory runs out.
    ensures finds { FindsList bytes.now result }
{
    let (count, rest) = take_count(bytes)?;
    if count == 0 {
        if !rest.is_empty() {
            return Err(DecodeFault::Bad);
        }
        return Ok(Vec::new(alloc));
    }
    let (first, rest) = take_number(rest)?;
    let first = unzigzag(first);
    let (base, above) = block_in(alloc, count as u64 - 1, rest)?;
    restore(alloc, first, base, &above)
}

/// The least difference and the offsets of a block with `count` differences.
fn block_in(alloc: Global, count: u64, bytes: &[u8]) -> Result<(i64, Vec<u64>), DecodeFault>
    requires { count ≤ max_values }
    ensures size { IfOk result (λ r. length r.1.items ≡ count) }
    ensures fits { IfOk result (λ r. FitsSigned w64 r.0) }
    ensures found { IfOk result (λ r. bytes.now ≡ block (offsets_above r.0 r.1.items)) }
    ensures finds { FindsBlockOf count bytes.now result }
{
    if count == 0 {
        if !bytes.is_empty() {
            return Err(DecodeFault::Bad);
        }
        return Ok((0, Vec::new(alloc)));
    }
    let (base, rest) = take_number(bytes)?;
    let [digits, packed @ ..] = rest else {
        return Err(DecodeFault::Bad);
    };
    if *digits > 64 {
        return Err(DecodeFault::Bad);
    }
    let above = take_packed(alloc, packed, count, *digits)?;
    if !are_offsets(&above, *digits) {
        return Err(DecodeFault::Bad);
    }
    Ok((unzigzag(base), above))
}

/// Whether the least of the numbers is 0, and the greatest has so many binary digits.
fn are_offsets(numbers: &[u64], digits: u8) -> bool
    ensures { IsTrue result ↔ AreOffsets numbers.now digits }
{
    let [first, rest @ ..] = numbers else {
        return false;
    };
    lowest_of(*first, rest) == 0 && width(greatest_or_zero(numbers)) == digits
}

fn lowest_of(first: u64, rest: &[u64]) -> u64
    ensures { result ≡ fold min first rest.now }
{
    let mut lowest = first;
    for number in rest {
        lowest = lowest.min(*number);
    }
    lowest
}

/// The values from the first one, the least difference and the offsets.
fn restore(alloc: Global, first: i64, base: i64, above: &[u64]) -> Result<Vec<i64>, DecodeFault>
    requires { length above.now < max_values }
    ensures found { IfOk result (λ values. (last : ℤ) × Restores base first last above.now values.items) }
    ensures finds { FindsRest base first above.now result }
{
    let mut values = Vec::with_capacity(alloc, above.len() + 1)?;
    values.push(first)?;
    let mut previous = first;
    for offset in above {
        let Some(step) = base.checked_add_unsigned(*offset) else {
            return Err(DecodeFault::Bad);
        };
        previous = previous.wrapping_add(step);
        values.push(previous)?;
    }
    Ok(values)
}
