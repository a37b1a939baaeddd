//! Zigzag: signed numbers as unsigned ones, small ones small. It depends on std alone.

ghost use Rattle.std.specs.Prelude.{◌≡◌};
ghost use Rattle.tsdb_bits.specs.Zigzag.{zigzag, unzigzag};

/// 0, -1, 1, -2 become 0, 1, 2, 3.
pub fn zigzag(value: i64) -> u64
    ensures { result ≡ zigzag value }
{
    if value < 0 {
        2 * value.unsigned_abs().wrapping_sub(1) + 1
    } else {
        2 * value.unsigned_abs()
    }
}

/// The signed number that `zigzag` maps to `value`.
pub fn unzigzag(value: u64) -> i64
    ensures { result ≡ unzigzag value }
{
    let half = (value / 2).cast_signed();
    if value % 2 == 0 { half } else { -half - 1 }
}
