//! The laws of the spellings. No body uses them: they say that the definitions mean what they are for.
//! It depends on the definitions alone.

ghost use Rattle.std.specs.Prelude.{◌≡◌, ℕ, ℤ, ◌*◌, ◌/◌, ◌%◌, ◌^◌, ◌<◌, ◌≤◌, List, ◌++◌, length, slice_index, All};
ghost use Rattle.tsdb_bits.specs.Leb.{leb};
ghost use Rattle.tsdb_bits.specs.Zigzag.{zigzag, unzigzag};
ghost use Rattle.tsdb_bits.specs.Packing.{binary_digits, IsOneToOne, StandsInOrder};

/// No LEB128 spelling begins another, so what was written is read again, whatever follows it.
pub fn leb_is_prefix_free()
    ensures { (a b : ℕ) (x y : List ℕ) → leb a ++ x ≡ leb b ++ y → (a ≡ b) × (x ≡ y) }
{}

/// A number of 64 bits has at most ten LEB128 bytes.
pub fn leb_is_short()
    ensures { (number : ℕ) → number < 2 ^ 64 → length (leb number) ≤ 10 }
{}

/// Zigzag maps the signed numbers one to one onto the unsigned ones.
pub fn zigzag_is_one_to_one()
    ensures back { (z : ℤ) → unzigzag (zigzag z) ≡ z }
    ensures again { (n : ℕ) → zigzag (unzigzag n) ≡ n }
{}

/// Two lists of one length with one packing are equal.
pub fn packing_is_one_to_one()
    ensures { (width : ℕ) → IsOneToOne width }
{}

/// Bit k of the stream is bit `k % 8` of byte `k / 8`, and bit `k % width` of value `k / width`.
pub fn bits_stand_in_order()
    ensures { (width : ℕ) (values : List ℕ) → StandsInOrder width values }
{}

/// A number is below 2 to its number of binary digits, and that is the least such power.
pub fn width_is_least()
    ensures below { (n : ℕ) → n < 2 ^ binary_digits n }
    ensures least { (n k : ℕ) → n < 2 ^ k → binary_digits n ≤ k }
{}
