//! The numbers of options. Depends on nothing here.
ghost use Rattle.std.specs.Prelude.{◌≡◌, ◌↔◌, ℕ, IfSome, IfNone, IsTrue, slice_index};
ghost use Rattle.tsdb_run.specs.Words.{IsNumber};

use std::str;

/// The most digits of a number.
const MAX_DIGITS: usize = 7;

/// The number that these bytes write.
pub fn read_number(bytes: &[u8]) -> Option<u64>
    ensures found { IfSome result (IsNumber bytes.now) }
    ensures none { IfNone result ((number : ℕ) → ¬ IsNumber bytes.now number) }
{
    if bytes.len() > MAX_DIGITS || has_plus(bytes) {
        return None;
    }
    str::from_utf8(bytes).ok()?.parse().ok()
}

/// Whether the bytes begin with `+`, which std reads as a sign.
fn has_plus(bytes: &[u8]) -> bool
    ensures { IsTrue result ↔ (slice_index bytes.now 0 ≡ 43) }
{
    match bytes {
        [b'+', ..] => true,
        _ => false,
    }
}
