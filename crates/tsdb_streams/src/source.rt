//! The sources of a column. It depends on `tsdb_base` and `tsdb_index`.

use tsdb_base::{Point, Stamp};
use tsdb_index::Index;

/// One source of a column, lent to a stream. `born` is the stamp at its freeze: later marks delete its points.
#[derive(Drop)]
pub enum StreamSource<'a, R> {
    /// A file that may have the series.
    File { right: &'a R, born: Stamp },
    /// Points of the series in memory, in order of time.
    Part { points: &'a [Point], born: Stamp },
}

/// A file whose index was read, as a source of the columns of all of its series.
#[derive(Drop)]
pub struct IndexedFile<'a, R> {
    pub(crate) right: &'a R,
    pub(crate) born: Stamp,
    pub(crate) index: Index,
}
