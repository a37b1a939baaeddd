//! A pin that is out. Depends on tsdb_base, tsdb_model, tsdb_marks and tsdb_outside.

use tsdb_base::{Aggregate, FileNumber, List, Point, Range, Stamp};
use tsdb_marks::Marks;
use tsdb_model::Schema;
use tsdb_outside::Files;

/// What a column reads: a listed file, by a right to read it, or copies of points of a part in memory, in order of
/// time.
/// `born` is the stamp at the freeze of the points, and that of the pin for points of the working pair.
pub enum PinnedSource<F: Files> {
    File {
        number: FileNumber,
        born: Stamp,
        right: F::Right,
    },
    Part {
        born: Stamp,
        points: List<Point>,
    },
}

/// A series of a pin, the aggregate that is asked of it, and its sources from the lowest priority to the highest.
pub struct Column<F: Files> {
    pub schema: Schema,
    pub aggregate: Option<Aggregate>,
    pub sources: List<PinnedSource<F>>,
}

/// What a query reads: the stamp at which it was taken, the range, the marks of its series, and a column for each item.
pub struct Pin<F: Files> {
    pub stamp: Stamp,
    pub range: Range,
    pub marks: Marks,
    pub columns: List<Column<F>>,
}

/// Why no pin was taken.
#[derive(Clone, Copy, Debug, PartialEq, Eq)]
pub enum PinFault {
    /// The series of an item is not there.
    NoPath,
    /// The least or the greatest value is asked of a series of booleans or texts.
    WrongType,
    /// Out of memory.
    Memory,
}
