//! Values by themselves as bytes, one by one and one after another. It depends on texts and faults.
ghost use Rattle.std.specs.Prelude.{◌≡◌, ℕ, List, ◌++◌, length, All, OnOk, OnErr, IfOk, IsErrOf, FitsSigned};
ghost use Rattle.std.specs.List.{flat_map};
ghost use Rattle.std.specs.Int.{w32, w64};
ghost use Rattle.tsdb_base.specs.Growth.{GrewByPrefix};
ghost use Rattle.tsdb_base.specs.Plain.{plain_bool, plain_i32, plain_i64, plain_text, IsText, AreValues};
ghost use Rattle.tsdb_base.specs.Plain.{BeginsWithNone};
ghost use Rattle.tsdb_base.specs.PlainLaws.{plain_bool-prefix_free, plain_i32-prefix_free, plain_i64-prefix_free};
ghost use Rattle.tsdb_base.specs.PlainLaws.{plain_text-prefix_free};

use crate::fault::{DecodeFault, Memory};
use crate::text::{Text, TextFault};
use std::alloc::Global;

/// A type whose values are each written by themselves.
pub trait PlainValue: Drop + Sized {
    /// The bytes of a value.
    ghost spelling: { Self → List ℕ };

    /// What has a spelling: each value of the type.
    ghost is_value: { Self → Type 0 };

    /// Appends the bytes of the value. After `Memory` it has appended a prefix of them at most.
    fn put(&self, into: &mut Vec<u8>) -> Result<(), Memory>
        ensures ok { OnOk result (into.new.items ≡ into.old.items ++ spelling self.now) }
        ensures memory { OnErr result (GrewByPrefix into.old.items (spelling self.now) into.new.items) };

    /// The value that the bytes begin with, and the bytes behind it. It is `Bad` where they begin
    /// with none.
    fn take(alloc: Global, bytes: &[u8]) -> Result<(Self, &[u8]), DecodeFault>
        ensures found { IfOk result (λ r. bytes.now ≡ spelling r.0 ++ r.1.now) }
        ensures value { IfOk result (λ r. is_value r.0) }
        ensures bad { IsErrOf result DecodeFault.Bad → BeginsWithNone spelling is_value bytes.now };

    /// No value's bytes begin those of another value.
    ghost prefix_free: { (a b : Self) (x y : List ℕ) → is_value a → is_value b →
        spelling a ++ x ≡ spelling b ++ y → (a ≡ b) × (x ≡ y) };
}

impl PlainValue for bool {
    ghost spelling = { plain_bool };

    ghost is_value = { λ _. Unit {0} };

    ghost prefix_free = { plain_bool-prefix_free };

    fn put(&self, into: &mut Vec<u8>) -> Result<(), Memory> {
        into.push(u8::from(*self))?;
        Ok(())
    }

    fn take(_alloc: Global, bytes: &[u8]) -> Result<(bool, &[u8]), DecodeFault> {
        match bytes {
            [0, rest @ ..] => Ok((false, rest)),
            [1, rest @ ..] => Ok((true, rest)),
            _ => Err(DecodeFault::Bad),
        }
    }
}

impl PlainValue for i32 {
    ghost spelling = { plain_i32 };

    ghost is_value = { FitsSigned w32 };

    ghost prefix_free = { plain_i32-prefix_free };

    fn put(&self, into: &mut Vec<u8>) -> Result<(), Memory> {
        into.extend_from_slice(&self.to_be_bytes())?;
        Ok(())
    }

    fn take(_alloc: Global, bytes: &[u8]) -> Result<(i32, &[u8]), DecodeFault> {
        if bytes.len() < 4 {
            return Err(DecodeFault::Bad);
        }
        let (front, rest) = bytes.split_at(4);
        Ok((
            i32::from_be_bytes([front[0], front[1], front[2], front[3]]),
            rest,
        ))
    }
}

impl PlainValue for i64 {
    ghost spelling = { plain_i64 };

    ghost is_value = { FitsSigned w64 };

    ghost prefix_free = { plain_i64-prefix_free };

    fn put(&self, into: &mut Vec<u8>) -> Result<(), Memory> {
        into.extend_from_slice(&self.to_be_bytes())?;
        Ok(())
    }

    fn take(_alloc: Global, bytes: &[u8]) -> Result<(i64, &[u8]), DecodeFault> {
        if bytes.len() < 8 {
            return Err(DecodeFault::Bad);
        }
        let (front, rest) = bytes.split_at(8);
        let number = i64::from_be_bytes([
            front[0], front[1], front[2], front[3], front[4], front[5], front[6], front[7],
        ]);
        Ok((number, rest))
    }
}

impl PlainValue for Text {
    ghost spelling = { plain_text };

    ghost is_value = { IsText };

    ghost prefix_free = { plain_text-prefix_free };

    fn put(&self, into: &mut Vec<u8>) -> Result<(), Memory> {
        let bytes = self.bytes();
        into.extend_from_slice(&(bytes.len() as u16).to_be_bytes())?;
        into.extend_from_slice(bytes)?;
        Ok(())
    }

    fn take(alloc: Global, bytes: &[u8]) -> Result<(Text, &[u8]), DecodeFault> {
        if bytes.len() < 2 {
            return Err(DecodeFault::Bad);
        }
        let (front, rest) = bytes.split_at(2);
        let len = u16::from_be_bytes([front[0], front[1]]) as usize;
        if rest.len() < len {
            return Err(DecodeFault::Bad);
        }
        let (text, rest) = rest.split_at(len);
        match Text::new(alloc, text) {
            Ok(text) => Ok((text, rest)),
            Err(TextFault::Memory) => Err(DecodeFault::Memory),
            Err(TextFault::TooLong) => unreachable!(),
        }
    }
}

/// Appends the bytes of the values, one after another. After `Memory` it has appended a prefix of
/// them at most.
pub fn put_all<T: PlainValue>(values: &[T], into: &mut Vec<u8>) -> Result<(), Memory>
    ensures ok { OnOk result (into.new.items ≡ into.old.items ++ flat_map T.spelling values.now) }
    ensures memory { OnErr result (GrewByPrefix into.old.items (flat_map T.spelling values.now) into.new.items) }
{
    for value in values {
        value.put(into)?;
    }
    Ok(())
}

/// The `count` values that the bytes begin with, and the bytes behind them. It is `Bad` where they
/// do not begin with so many.
pub fn take_all<T: PlainValue>(
    alloc: Global,
    count: usize,
    bytes: &[u8],
) -> Result<(Vec<T>, &[u8]), DecodeFault>
    ensures count { IfOk result (λ r. length r.0.items ≡ count) }
    ensures found { IfOk result (λ r. bytes.now ≡ flat_map T.spelling r.0.items ++ r.1.now) }
    ensures values { IfOk result (λ r. All T.is_value r.0.items) }
    ensures bad { IsErrOf result DecodeFault.Bad →
        BeginsWithNone (flat_map T.spelling) (AreValues T.is_value count) bytes.now }
{
    let mut values = Vec::new(alloc);
    let mut rest = bytes;
    for _ in 0..count {
        let (value, behind) = T::take(alloc, rest)?;
        values.push(value)?;
        rest = behind;
    }
    Ok((values, rest))
}
