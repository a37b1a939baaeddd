//! The decimal digits of a number, written from the last to the first, two at a time. Depends on nothing here.
ghost use Rattle.std.specs.Prelude.{◌≡◌, ◌+◌, ◌/◌, ◌%◌, ◌<◌, ◌≤◌, ◌∷◌, ◌++◌, length, drop};
ghost use Rattle.std.specs.Fmt.{decimal};

/// The most digits of a number of 64 bits.
pub const MAX_DIGITS: usize = 20;

/// Writes the decimal digits of a number so that they end at a place, and gives the place where they begin.
pub fn write_digits(number: u64, buffer: &mut [u8], end: usize) -> usize
    requires { (length (decimal number) ≤ end) × (end ≤ length buffer.old) }
    ensures within { result ≤ end }
    ensures written { drop result buffer.new ≡ decimal number ++ drop end buffer.old }
{
    let mut left = number;
    let mut at = end;
    while left >= 100 {
        write_pair(left % 100, buffer, at - 2);
        left /= 100;
        at -= 2;
    }
    write_first(left, buffer, at)
}

/// Writes one digit or two so that they end at a place, and gives the place where they begin.
fn write_first(number: u64, buffer: &mut [u8], end: usize) -> usize
    requires { (number < 100) × (length (decimal number) ≤ end) × (end ≤ length buffer.old) }
    ensures within { result ≤ end }
    ensures written { drop result buffer.new ≡ decimal number ++ drop end buffer.old }
{
    if number < 10 {
        buffer[end - 1] = b'0' + number as u8;
        return end - 1;
    }
    write_pair(number, buffer, end - 2);
    end - 2
}

/// Writes two digits at a place.
fn write_pair(pair: u64, buffer: &mut [u8], at: usize)
    requires { (pair < 100) × (at + 2 ≤ length buffer.old) }
    ensures { drop at buffer.new ≡ (48 + pair / 10) ∷ (48 + pair % 10) ∷ drop (at + 2) buffer.old }
{
    buffer[at] = b'0' + (pair / 10) as u8;
    buffer[at + 1] = b'0' + (pair % 10) as u8;
}
