//! Appends a number of 128 bits to a text. Depends on nothing here.
ghost use Rattle.std.specs.Prelude.{◌≡◌, ◌+◌, ◌<◌, [], ◌∷◌, ◌++◌, OnOk};
ghost use Rattle.std.specs.Fmt.{decimal, signed_decimal};

use std::alloc::AllocError;

/// Appends the number in decimal digits, behind a minus where it is below 0.
pub fn append_sum(number: i128, into: &mut Vec<u8>) -> Result<(), AllocError>
    ensures { OnOk result (into.new.items ≡ into.old.items ++ signed_decimal number) }
{
    if number >= 0 {
        return append_digits(number.unsigned_abs(), into);
    }
    into.push(b'-')?;
    append_digits(number.unsigned_abs(), into)
}

fn append_digits(number: u128, into: &mut Vec<u8>) -> Result<(), AllocError>
    ensures { OnOk result (into.new.items ≡ into.old.items ++ decimal number) }
{
    if number < 10 {
        return append_digit(number as u8, into);
    }
    append_digits(number / 10, into)?;
    append_digit((number % 10) as u8, into)
}

fn append_digit(digit: u8, into: &mut Vec<u8>) -> Result<(), AllocError>
    requires { digit < 10 }
    ensures { OnOk result (into.new.items ≡ into.old.items ++ (48 + digit) ∷ []) }
{
    into.push(b'0' + digit)?;
    Ok(())
}
