//! Lists of numbers packed at a width. The bytes move by whole words of 64 bits. It depends on this
//! crate's faults.

ghost use Rattle.std.specs.Prelude.{◌≡◌, ℕ, ◌+◌, ◌-◌, ◌*◌, ◌/◌, ◌%◌, ◌^◌, ◌<◌, ◌≤◌, List, ◌++◌, length, take, drop};
ghost use Rattle.std.specs.Prelude.{vec_len, All, IfOk, IfErr, OnOk, OnErr};
ghost use Rattle.tsdb_base.specs.Limits.{max_values};
ghost use Rattle.tsdb_bits.specs.Packing.{from_digits, number_of_bytes, pack_bytes, bytes_for, binary_digits};
ghost use Rattle.tsdb_bits.specs.Faults.{ExplainsPacking, IsPacking, IsNoPacking};

use crate::fault::UnpackFault;
use std::alloc::Global;
use tsdb_base::Memory;

/// How many binary digits `value` has; none for 0.
pub fn width(value: u64) -> u8
    ensures { result ≡ binary_digits value }
{
    (64 - value.leading_zeros()) as u8
}

/// Appends the values packed at the width. After `Memory` the list is as it was.
pub fn pack(values: &[u64], width: u8, into: &mut Vec<u8>) -> Result<(), Memory>
    requires width_fits { width ≤ 64 }
    requires values_fit { All (λ value. value < 2 ^ width) values.now }
    ensures ok { OnOk result (into.new.items ≡ into.old.items ++ pack_bytes width values.now) }
    ensures memory { OnErr result (into.new.items ≡ into.old.items) }
{
    into.reserve(values.len().saturating_mul(width as usize).div_ceil(8))?;
    let start = into.len();
    let outcome = append_packed(values, width, into);
    if outcome.is_err() {
        into.truncate(start);
    }
    outcome
}

fn append_packed(values: &[u64], width: u8, into: &mut Vec<u8>) -> Result<(), Memory>
    requires width_fits { width ≤ 64 }
    requires values_fit { All (λ value. value < 2 ^ width) values.now }
    ensures ok { OnOk result (into.new.items ≡ into.old.items ++ pack_bytes width values.now) }
    ensures kept { take (vec_len into.old) into.new.items ≡ into.old.items }
{
    let mut word: u128 = 0;
    let mut filled: u32 = 0;
    for value in values {
        word += u128::from(*value) << filled;
        filled += u32::from(width);
        if filled >= 64 {
            into.extend_from_slice(&low_bits(word, 64).to_le_bytes())?;
            word >>= 64;
            filled -= 64;
        }
    }
    let last = filled.div_ceil(8) as usize;
    into.extend_from_slice(&low_bits(word, 64).to_le_bytes()[..last])?;
    Ok(())
}

/// The lowest bits of a word.
fn low_bits(word: u128, width: u8) -> u64
    requires { width ≤ 64 }
    ensures { result ≡ word % 2 ^ width }
{
    (word & ((1 << width) - 1)) as u64
}

/// The `count` values whose packing at the width the bytes are.
///
/// It is `Short` where there are too few bytes, and `Overlong` where a filling bit is set or bytes
/// follow.
pub fn unpack(alloc: Global, bytes: &[u8], count: u64, width: u8) -> Result<Vec<u64>, UnpackFault>
    requires width_fits { width ≤ 64 }
    requires few { count ≤ max_values }
    ensures values { IfOk result (λ values. IsPacking width count bytes.now values.items) }
    ensures fault { IfErr result (ExplainsPacking (count * width) bytes.now) }
    // No list is packed so, unless memory ran out.
    ensures none { IfErr result (IsNoPacking width count bytes.now) }
{
    let len = bytes.len() as u64;
    let needed = (count * u64::from(width)).div_ceil(8);
    if len < needed {
        return Err(UnpackFault::Short { at: len });
    }
    let (values, filling) = values_in(alloc, &bytes[..needed as usize], count, width)?;
    if filling != 0 {
        return Err(UnpackFault::Overlong { at: needed - 1 });
    }
    if needed < len {
        return Err(UnpackFault::Overlong { at: needed });
    }
    Ok(values)
}

/// The values that the stream of the bytes begins with, and what stands behind them in it.
fn values_in(
    alloc: Global,
    bytes: &[u8],
    count: u64,
    width: u8,
) -> Result<(Vec<u64>, u128), UnpackFault>
    requires width_fits { width ≤ 64 }
    requires few { count ≤ max_values }
    requires needed { length bytes.now ≡ bytes_for (count * width) }
    ensures count { IfOk result (λ r. length r.0.items ≡ count) }
    ensures below { IfOk result (λ r. All (λ value. value < 2 ^ width) r.0.items) }
    ensures stream { IfOk result (λ r. number_of_bytes bytes.now
        ≡ from_digits width r.0.items + 2 ^ (count * width) * r.1) }
    ensures memory { IfErr result (λ fault. fault ≡ UnpackFault.Memory) }
{
    let mut values = Vec::with_capacity(alloc, count as usize)?;
    let mut word: u128 = 0;
    let mut filled: u32 = 0;
    let mut rest = bytes;
    let width_bits = u32::from(width);
    for _ in 0..count {
        if filled < width_bits {
            let (next, after) = next_word(rest);
            word += u128::from(next) << filled;
            filled += 64;
            rest = after;
        }
        values.push(low_bits(word, width))?;
        word >>= width_bits;
        filled -= width_bits;
    }
    Ok((values, word))
}

/// The next eight bytes as a number, or as many as are left, and the bytes behind them.
fn next_word(bytes: &[u8]) -> (u64, &[u8])
    ensures stream { number_of_bytes bytes.now ≡ result.0 + 2 ^ 64 * number_of_bytes result.1.now }
    ensures left { length result.1.now ≡ length bytes.now - 8 }
{
    if bytes.len() < 8 {
        return (last_word(bytes), &bytes[bytes.len()..]);
    }
    let (front, after) = bytes.split_at(8);
    let word = u64::from_le_bytes([
        front[0], front[1], front[2], front[3], front[4], front[5], front[6], front[7],
    ]);
    (word, after)
}

/// Fewer than eight bytes as a number.
fn last_word(bytes: &[u8]) -> u64
    requires { length bytes.now < 8 }
    ensures { result ≡ number_of_bytes bytes.now }
{
    let mut word: u64 = 0;
    for i in (0..bytes.len()).rev() {
        word = word * 256 + u64::from(bytes[i]);
    }
    word
}
