//! The laws of the spelling. No body uses them. It depends on the definitions alone.

ghost use Rattle.std.specs.Prelude.{◌≡◌, ℕ, ℤ, Bool, List, FitsSigned};
ghost use Rattle.std.specs.Int.{w64};
ghost use Rattle.tsdb_bits.specs.Zigzag.{zigzag};
ghost use Rattle.tsdb_bits.specs.Lists.{IsShort};
ghost use Rattle.enc_rle.specs.Spelling.{ValueRun, maximal_runs, expand_runs, spelling, bool_code, AreMaximalRuns};

/// The runs of a list expand to it, have at least one value each, and neighbours differ; no other runs do.
pub fn runs_are_joined()
    ensures expand { (codes : List ℕ) → expand_runs (maximal_runs codes) ≡ codes }
    ensures neighbours { (codes : List ℕ) → AreMaximalRuns (maximal_runs codes) }
    ensures only { (runs : List ValueRun) → AreMaximalRuns runs → maximal_runs (expand_runs runs) ≡ runs }
{}

/// Two lists with the same bytes are equal.
pub fn one_spelling()
    ensures bool { (xs ys : List Bool) → spelling bool_code xs ≡ spelling bool_code ys → xs ≡ ys }
    ensures int { (xs ys : List ℤ) → spelling zigzag xs ≡ spelling zigzag ys → xs ≡ ys }
{}

/// A list has fewer than 2^30 bytes.
pub fn spelling_is_short()
    ensures bool { IsShort (spelling bool_code) (λ _. Unit {0}) }
    ensures int { IsShort (spelling zigzag) (FitsSigned w64) }
{}
