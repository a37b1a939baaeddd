//! The laws of the spelling. No body uses them. It depends on the definitions alone.
ghost use Rattle.std.specs.Prelude.{FitsSigned};
ghost use Rattle.std.specs.Int.{w32, w64};
ghost use Rattle.tsdb_base.specs.Plain.{plain_bool, plain_i32, plain_i64, plain_text, IsText};
ghost use Rattle.tsdb_bits.specs.Lists.{HasOneSpelling, IsShort};
ghost use Rattle.enc_plain.specs.Spelling.{spelling};

/// Two lists of values of one type with the same bytes are equal.
pub fn one_spelling()
    ensures booleans { HasOneSpelling (spelling plain_bool) (λ _. Unit {0}) }
    ensures int32 { HasOneSpelling (spelling plain_i32) (FitsSigned w32) }
    ensures int64 { HasOneSpelling (spelling plain_i64) (FitsSigned w64) }
    ensures texts { HasOneSpelling (spelling plain_text) IsText }
{}

/// A list has fewer than 2^30 bytes.
pub fn spelling_is_short()
    ensures booleans { IsShort (spelling plain_bool) (λ _. Unit {0}) }
    ensures int32 { IsShort (spelling plain_i32) (FitsSigned w32) }
    ensures int64 { IsShort (spelling plain_i64) (FitsSigned w64) }
    ensures texts { IsShort (spelling plain_text) IsText }
{}
