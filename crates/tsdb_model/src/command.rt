//! Commands: the statements of a script, as they are executed. `specs/Commands.antt` says which of them are
//! well-formed.

use tsdb_base::{Aggregate, DataType, Encoding, List, Range, Space, Text, Time};
use tsdb_path::{Name, Path};

/// A series: its path of at least 3 nodes, the type of its values, and an encoding that suits the type.
#[derive(Drop)]
pub struct Schema {
    pub path: Path,
    pub data_type: DataType,
    pub encoding: Encoding,
}

/// A value as a statement writes it, before the type of its series is known.
#[derive(Drop)]
pub enum Literal {
    Bool(bool),
    /// A whole number, for INT64, and for INT32 where it is from -2,147,483,648 to 2,147,483,647.
    Int(i64),
    Text(Text),
}

/// A literal for one measurement of a device.
#[derive(Drop)]
pub struct Cell {
    pub measurement: Name,
    pub value: Literal,
}

/// The values of one device at one time: 1 to 1,000 cells with different measurements.
#[derive(Drop)]
pub struct Row {
    pub time: Time,
    pub cells: List<Cell>,
}

/// A column of a select: the values of a measurement, or an aggregate of them.
#[derive(Drop)]
pub struct Item {
    pub measurement: Name,
    pub aggregate: Option<Aggregate>,
}

/// A statement of a script.
#[derive(Drop)]
pub enum Command {
    /// Begins a series without points.
    Create(Schema),
    /// Writes the values of a row, each in place of one at its time. The device has at least 2 nodes.
    Insert {
        device: Path,
        row: Row,
    },
    /// Removes the points in the range. The series has at least 3 nodes.
    Delete {
        series: Path,
        range: Range,
    },
    /// Returns the rows, or the aggregates, of 1 to 1,000 items over the range. The device has at least 2 nodes.
    Select {
        device: Path,
        items: List<Item>,
        range: Range,
    },
    /// Writes what is in memory to files.
    Flush,
    /// Merges neighbouring files of one space.
    CompactInner(Space),
    /// Merges unsequence files into sequence files.
    CompactCross,
    /// Returns the listing of the store.
    ShowFiles,
}
