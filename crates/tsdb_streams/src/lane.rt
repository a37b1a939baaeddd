//! A source from which points are taken, and what is still to be read of it. Depends on tsdb_base and tsdb_index.
ghost use Rattle.std.specs.Prelude.{IsTrue};
ghost use Rattle.tsdb_streams.specs.Order.{ArePagesInOrder, order_prop};

use tsdb_base::{Point, Stamp};
use tsdb_index::IndexEntry;

/// The pages of a file from the next one on.
#[derive(Drop)]
pub(crate) struct PageLane<'a, R> {
    pub right: &'a R,
    pub born: Stamp,
    pub entry: IndexEntry,
    /// Whether the pages of the entry were found to stand in order of time.
    pub in_order: bool,
    /// Which of the first pages are passed over.
    pub passed: Vec<bool>,
    /// Whether these are all pages, and are passed over as one piece, with the statistics of their chunk.
    pub whole: bool,
    pub next: usize,
    ghost order: { IsTrue in_order → ArePagesInOrder entry.pages } by { order_prop in_order entry.pages },
}

/// The points of a part in memory that were not looked at yet.
#[derive(Drop)]
pub(crate) struct PartLane<'a> {
    pub born: Stamp,
    pub rest: &'a [Point],
}

/// What is still to be read of a source. A file without the series is a part without points.
#[derive(Drop)]
pub(crate) enum Lane<'a, R> {
    Pages(PageLane<'a, R>),
    Part(PartLane<'a>),
}
