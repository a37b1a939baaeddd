//! Unsigned numbers, sums, types and encodings by themselves as bytes, as the fields of a file's index and of the log's
//! records are. Depends on `plain` and `value`.
ghost use Rattle.std.specs.Int.{w128, cast_signed, cast_unsigned};
ghost use Rattle.std.specs.Prelude.{◌≡◌, ◌+◌, ◌*◌, ◌/◌, ◌%◌, ◌<◌, ◌^◌, [], ◌∷◌, FitsSigned};
ghost use Rattle.tsdb_base.specs.Fields.{number16, number32, number64, type_field, encoding_field, pair_field, IsPair};
ghost use Rattle.tsdb_base.specs.FieldLaws.{number16-prefix_free, number32-prefix_free, number64-prefix_free};
ghost use Rattle.tsdb_base.specs.FieldLaws.{type_field-prefix_free, encoding_field-prefix_free, pair_field-prefix_free};
ghost use Rattle.tsdb_base.specs.FieldLaws.{plain_i128-prefix_free};
ghost use Rattle.tsdb_base.specs.Plain.{plain_i128};

use crate::fault::{DecodeFault, Memory};
use crate::plain::PlainValue;
use crate::value::{DataType, Encoding};
use std::alloc::Global;

impl PlainValue for u16 {
    ghost spelling = { number16 };

    ghost is_value = { λ n. n < 2 ^ 16 };

    ghost prefix_free = { number16-prefix_free };

    fn put(&self, into: &mut Vec<u8>) -> Result<(), Memory> {
        into.extend_from_slice(&self.to_be_bytes())?;
        Ok(())
    }

    fn take(_alloc: Global, bytes: &[u8]) -> Result<(u16, &[u8]), DecodeFault> {
        if bytes.len() < 2 {
            return Err(DecodeFault::Bad);
        }
        let (front, rest) = bytes.split_at(2);
        Ok((u16::from_be_bytes([front[0], front[1]]), rest))
    }
}

impl PlainValue for u32 {
    ghost spelling = { number32 };

    ghost is_value = { λ n. n < 2 ^ 32 };

    ghost prefix_free = { number32-prefix_free };

    fn put(&self, into: &mut Vec<u8>) -> Result<(), Memory> {
        into.extend_from_slice(&self.to_be_bytes())?;
        Ok(())
    }

    fn take(_alloc: Global, bytes: &[u8]) -> Result<(u32, &[u8]), DecodeFault> {
        if bytes.len() < 4 {
            return Err(DecodeFault::Bad);
        }
        let (front, rest) = bytes.split_at(4);
        let number = u32::from_be_bytes([front[0], front[1], front[2], front[3]]);
        Ok((number, rest))
    }
}

impl PlainValue for u64 {
    ghost spelling = { number64 };

    ghost is_value = { λ n. n < 2 ^ 64 };

    ghost prefix_free = { number64-prefix_free };

    fn put(&self, into: &mut Vec<u8>) -> Result<(), Memory> {
        into.extend_from_slice(&self.to_be_bytes())?;
        Ok(())
    }

    fn take(_alloc: Global, bytes: &[u8]) -> Result<(u64, &[u8]), DecodeFault> {
        if bytes.len() < 8 {
            return Err(DecodeFault::Bad);
        }
        let (front, rest) = bytes.split_at(8);
        let number = u64::from_be_bytes([
            front[0], front[1], front[2], front[3], front[4], front[5], front[6], front[7],
        ]);
        Ok((number, rest))
    }
}

/// The byte of the type.
pub fn type_byte(data_type: DataType) -> u8
    ensures { type_field data_type ≡ result ∷ [] }
{
    match data_type {
        DataType::Boolean => 0,
        DataType::Int32 => 1,
        DataType::Int64 => 2,
        DataType::Text => 5,
    }
}

/// The byte of the encoding.
pub fn encoding_byte(encoding: Encoding) -> u8
    ensures { encoding_field encoding ≡ result ∷ [] }
{
    match encoding {
        Encoding::Plain => 0,
        Encoding::Dictionary => 1,
        Encoding::Rle => 2,
        Encoding::Ts2diff => 4,
    }
}

impl PlainValue for DataType {
    ghost spelling = { type_field };

    ghost is_value = { λ _. Unit {0} };

    ghost prefix_free = { type_field-prefix_free };

    fn put(&self, into: &mut Vec<u8>) -> Result<(), Memory> {
        into.push(type_byte(*self))?;
        Ok(())
    }

    fn take(_alloc: Global, bytes: &[u8]) -> Result<(DataType, &[u8]), DecodeFault> {
        match bytes {
            [0, rest @ ..] => Ok((DataType::Boolean, rest)),
            [1, rest @ ..] => Ok((DataType::Int32, rest)),
            [2, rest @ ..] => Ok((DataType::Int64, rest)),
            [5, rest @ ..] => Ok((DataType::Text, rest)),
            _ => Err(DecodeFault::Bad),
        }
    }
}

impl PlainValue for Encoding {
    ghost spelling = { encoding_field };

    ghost is_value = { λ _. Unit {0} };

    ghost prefix_free = { encoding_field-prefix_free };

    fn put(&self, into: &mut Vec<u8>) -> Result<(), Memory> {
        into.push(encoding_byte(*self))?;
        Ok(())
    }

    fn take(_alloc: Global, bytes: &[u8]) -> Result<(Encoding, &[u8]), DecodeFault> {
        match bytes {
            [0, rest @ ..] => Ok((Encoding::Plain, rest)),
            [1, rest @ ..] => Ok((Encoding::Dictionary, rest)),
            [2, rest @ ..] => Ok((Encoding::Rle, rest)),
            [4, rest @ ..] => Ok((Encoding::Ts2diff, rest)),
            _ => Err(DecodeFault::Bad),
        }
    }
}

impl<A: PlainValue, B: PlainValue> PlainValue for (A, B) {
    ghost spelling = { pair_field A.spelling B.spelling };

    ghost is_value = { IsPair A.is_value B.is_value };

    ghost prefix_free = { pair_field-prefix_free A.spelling B.spelling A.is_value B.is_value A.prefix_free
        B.prefix_free };

    fn put(&self, into: &mut Vec<u8>) -> Result<(), Memory> {
        self.0.put(into)?;
        self.1.put(into)?;
        Ok(())
    }

    fn take(alloc: Global, bytes: &[u8]) -> Result<((A, B), &[u8]), DecodeFault> {
        let (first, bytes) = A::take(alloc, bytes)?;
        let (second, bytes) = B::take(alloc, bytes)?;
        Ok(((first, second), bytes))
    }
}

/// What one is worth in the higher eight of sixteen bytes.
const HALF: u128 = 0x1_0000_0000_0000_0000;

/// The higher and the lower eight bytes of a number of sixteen.
fn halves(number: i128) -> (u64, u64)
    ensures high { result.0 ≡ cast_unsigned w128 number / 2 ^ 64 }
    ensures low { result.1 ≡ cast_unsigned w128 number % 2 ^ 64 }
{
    let bits = number.cast_unsigned();
    ((bits / HALF) as u64, (bits % HALF) as u64)
}

/// The number of sixteen bytes with these halves.
fn joined(high: u64, low: u64) -> i128
    ensures { result ≡ cast_signed w128 (high * 2 ^ 64 + low) }
{
    (u128::from(high) * HALF + u128::from(low)).cast_signed()
}

impl PlainValue for i128 {
    ghost spelling = { plain_i128 };

    ghost is_value = { FitsSigned w128 };

    ghost prefix_free = { plain_i128-prefix_free };

    fn put(&self, into: &mut Vec<u8>) -> Result<(), Memory> {
        halves(*self).put(into)
    }

    fn take(alloc: Global, bytes: &[u8]) -> Result<(i128, &[u8]), DecodeFault> {
        let ((high, low), rest) = <(u64, u64)>::take(alloc, bytes)?;
        Ok((joined(high, low), rest))
    }
}
