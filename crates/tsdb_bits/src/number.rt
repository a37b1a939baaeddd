//! Numbers that bytes begin with. It depends on `leb`.
ghost use Rattle.std.specs.Prelude.{◌≡◌, ◌<◌, ◌≤◌, ◌^◌, ◌++◌, length, IfOk, OnErr};
ghost use Rattle.tsdb_base.specs.Limits.{max_values};
ghost use Rattle.tsdb_base.specs.Plain.{BeginsWithNone};
ghost use Rattle.tsdb_bits.specs.Leb.{leb};

use crate::leb::get_leb;
use tsdb_base::{DecodeFault, limits};

/// The most values of a list.
pub const MAX_LIST_VALUES: u64 = limits::MAX_VALUES as u64;

/// The LEB128 number that the bytes begin with, and the bytes behind it. It is `Bad` exactly where
/// they begin with no number of 64 bits.
pub fn take_number(bytes: &[u8]) -> Result<(u64, &[u8]), DecodeFault>
    ensures found { IfOk result (λ r. bytes.now ≡ leb r.0 ++ r.1.now) }
    ensures shorter { IfOk result (λ r. length r.1.now < length bytes.now) }
    ensures bad { OnErr result (result ≡ Err DecodeFault.Bad) }
    ensures none { OnErr result (BeginsWithNone leb (λ number. number < 2 ^ 64) bytes.now) }
{
    match get_leb(bytes, 0) {
        Ok((number, behind)) => Ok((number, &bytes[behind as usize..])),
        Err(_) => Err(DecodeFault::Bad),
    }
}

/// The number of values that the bytes begin with, and the bytes behind it. It is `Bad` exactly
/// where they begin with no number of at most 1,000.
pub fn take_count(bytes: &[u8]) -> Result<(usize, &[u8]), DecodeFault>
    ensures few { IfOk result (λ r. r.0 ≤ max_values) }
    ensures found { IfOk result (λ r. bytes.now ≡ leb r.0 ++ r.1.now) }
    ensures bad { OnErr result (result ≡ Err DecodeFault.Bad) }
    ensures none { OnErr result (BeginsWithNone leb (λ count. count ≤ max_values) bytes.now) }
{
    let (count, rest) = take_number(bytes)?;
    if count > MAX_LIST_VALUES {
        return Err(DecodeFault::Bad);
    }
    Ok((count as usize, rest))
}
