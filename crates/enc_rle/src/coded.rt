//! Values by their codes: a truth value is 0 or 1, a signed number its zigzag. It depends on
//! `tsdb_bits`.
ghost use Rattle.std.specs.Prelude.{◌≡◌, ℕ, ◌^◌, ◌<◌, IfSome, IfNone, FitsSigned};
ghost use Rattle.std.specs.Int.{w32, w64};
ghost use Rattle.tsdb_bits.specs.Zigzag.{zigzag};
ghost use Rattle.enc_rle.specs.Spelling.{bool_code};
ghost use Rattle.enc_rle.specs.CodeLaws.{bool_code-one_to_one, bool_code-lt, same_from_zigzag, zigzag_i32-lt};
ghost use Rattle.enc_rle.specs.CodeLaws.{zigzag_i64-lt};

use tsdb_bits::{unzigzag, zigzag};

/// A type whose values are written by their codes.
pub trait Coded: Copy + Drop + Sized {
    /// The code of a value.
    ghost code_of: { Self → ℕ };

    /// What has a code: each value of the type.
    ghost is_value: { Self → Type 0 };

    /// The code of the value.
    fn code(self) -> u64
        ensures { result ≡ code_of self };

    /// The value with the code, where there is one.
    fn value(code: u64) -> Option<Self>
        ensures found { IfSome result (λ value. code ≡ code_of value) }
        ensures typed { IfSome result is_value }
        ensures none { IfNone result ((value : Self) → is_value value → code ≡ code_of value → ⊥) };

    /// Two values with one code are equal.
    ghost one_to_one: { (a b : Self) → code_of a ≡ code_of b → a ≡ b };

    /// A code has at most 64 bits.
    ghost small: { (value : Self) → is_value value → code_of value < 2 ^ 64 };
}

impl Coded for bool {
    ghost code_of = { bool_code };

    ghost is_value = { λ _. Unit {0} };

    ghost one_to_one = { bool_code-one_to_one };

    ghost small = { bool_code-lt };

    fn code(self) -> u64 {
        if self { 1 } else { 0 }
    }

    fn value(code: u64) -> Option<bool> {
        match code {
            0 => Some(false),
            1 => Some(true),
            _ => None,
        }
    }
}

impl Coded for i32 {
    ghost code_of = { zigzag };

    ghost is_value = { FitsSigned w32 };

    ghost one_to_one = { same_from_zigzag };

    ghost small = { zigzag_i32-lt };

    fn code(self) -> u64 {
        zigzag(i64::from(self))
    }

    fn value(code: u64) -> Option<i32> {
        let Ok(value) = i32::try_from(unzigzag(code)) else {
            return None;
        };
        Some(value)
    }
}

impl Coded for i64 {
    ghost code_of = { zigzag };

    ghost is_value = { FitsSigned w64 };

    ghost one_to_one = { same_from_zigzag };

    ghost small = { zigzag_i64-lt };

    fn code(self) -> u64 {
        zigzag(self)
    }

    fn value(code: u64) -> Option<i64> {
        Some(unzigzag(code))
    }
}
