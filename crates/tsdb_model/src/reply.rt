//! Replies: what a command returns.

use tsdb_base::{Answer, Figure, FileNumber, List, Space, Stamp, Time, Value};

/// A row of a select: a time, and the value of each item at that time, if it has one.
#[derive(Drop)]
pub struct Line {
    pub time: Time,
    pub values: List<Option<Value>>,
}

/// What a listing says of one file: its space, its number, the stamp at which its points were frozen, how many
/// points it stores, and their least and greatest time.
#[derive(Drop)]
pub struct FileLine {
    pub space: Space,
    pub number: FileNumber,
    pub born: Stamp,
    pub points: u64,
    pub from: Time,
    pub to: Time,
}

/// What the store holds: its files, the number of frozen pairs, the points of the working pair (sequence, then
/// unsequence), and the number of deletion marks.
#[derive(Drop)]
pub struct Listing {
    pub files: List<FileLine>,
    pub frozen: u64,
    pub working: [u64; 2],
    pub marks: u64,
}

/// What a command returns.
#[derive(Drop)]
pub enum Reply {
    Plain(Answer),
    /// The rows of a select without aggregates, in order of time.
    Lines(List<Line>),
    /// The aggregates of a select, one for each item. An aggregate over no points is `None`, but 0 for a count.
    Values(List<Option<Figure>>),
    /// The listing of the store.
    Files(Listing),
}
