//! A piece of one source: a page, or a part in memory. It depends on `tsdb_base`.
ghost use Rattle.std.specs.Prelude.{◌≡◌};
ghost use Rattle.tsdb_aggregate.specs.Pieces as pieces;
ghost use Rattle.tsdb_model.specs.World as world;

use tsdb_base::{Range, Stats, Time};

/// A page, or a part in memory. Its hull goes from the start to the end of its statistics.
#[derive(Drop)]
pub struct Piece {
    /// The statistics of its points. Where the piece is not clean, only their start and end are used.
    pub stats: Stats,
    /// The place of its source in the order of priority, from the lowest to the highest.
    pub source: u32,
    /// Its hull is in the range that is asked for, no other piece lies over it, and all of its points survive.
    pub clean: bool,
}

/// Whether the range has the time.
pub fn contains(range: &Range, time: Time) -> bool
    ensures { result ≡ world.is_in range.now time }
{
    range.from <= time && time <= range.to
}

/// Whether two ranges have a time in common.
pub fn overlap(a: &Range, b: &Range) -> bool
    ensures { result ≡ pieces.overlap a.now b.now }
{
    contains(a, b.from) && contains(b, b.from) || contains(b, a.from) && contains(a, a.from)
}

impl Piece {
    /// The times from its start to its end.
    pub fn hull(&self) -> Range
        ensures { result ≡ pieces.hull self.now }
    {
        Range {
            from: self.stats.start,
            to: self.stats.end,
        }
    }
}
