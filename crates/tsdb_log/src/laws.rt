//! The laws of the spelling. No body uses them. Depends on the definitions alone.
ghost use Rattle.std.specs.Prelude.{◌≡◌, ◌^◌, ◌<◌, length};
ghost use Rattle.tsdb_log.specs.declared.record.LogRecord.{LogRecord};
ghost use Rattle.tsdb_log.specs.Spelling.{spelling, FitsFrame, IsRecord};

/// Two records with the same bytes are equal.
pub fn one_spelling()
    ensures { (a b : LogRecord) → IsRecord a → IsRecord b → spelling a ≡ spelling b → a ≡ b }
{}

/// A record has a first byte, and a frame takes the bytes of a row of at most 1,000 cells, of a replacement of at most
/// 100,000,000 files of each space, and of each other record: they are fewer than 2^32.
pub fn spelling_fits_frame()
    ensures some { (item : LogRecord) → 0 < length (spelling item) }
    ensures short { (item : LogRecord) → IsRecord item → FitsFrame item → length (spelling item) < 2 ^ 32 }
{}
