//! The laws of the spelling. No body uses them. It depends on the definitions alone.
ghost use Rattle.tsdb_base.specs.Plain.{IsText};
ghost use Rattle.tsdb_bits.specs.Lists.{HasOneSpelling, IsShort};
ghost use Rattle.enc_dict.specs.Spelling.{spelling};

/// Two lists of texts with the same bytes are equal.
pub fn one_spelling()
    ensures { HasOneSpelling spelling IsText }
{}

/// A list has fewer than 2^30 bytes.
pub fn spelling_is_short()
    ensures { IsShort spelling IsText }
{}
