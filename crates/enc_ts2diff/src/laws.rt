//! The laws of the spelling. No body uses them. It depends on the definitions alone.

ghost use Rattle.std.specs.Prelude.{FitsSigned};
ghost use Rattle.std.specs.Int.{w64};
ghost use Rattle.tsdb_bits.specs.Lists.{HasOneSpelling, IsShort};
ghost use Rattle.enc_ts2diff.specs.Spelling.{spelling};

/// Two lists with the same bytes are equal.
pub fn one_spelling()
    ensures { HasOneSpelling spelling (FitsSigned w64) }
{}

/// A list has fewer than 2^30 bytes.
pub fn spelling_is_short()
    ensures { IsShort spelling (FitsSigned w64) }
{}
