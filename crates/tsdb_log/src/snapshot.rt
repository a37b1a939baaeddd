//! What a snapshot of a store says, with which a slot of the log may begin. Depends on tsdb_base and tsdb_path.

use tsdb_base::{DataType, Encoding, FileNumber, List, Point, SeriesId, Stamp, Time};
use tsdb_path::Path;

/// The most frozen pairs of a snapshot, since their number stands in one byte.
pub const MAX_PAIRS: usize = 255;

/// A series.
#[derive(PartialEq, Eq, Drop)]
pub struct SchemaRecord {
    pub path: Path,
    pub data_type: DataType,
    pub encoding: Encoding,
}

/// The last flushed time of a device.
#[derive(PartialEq, Eq, Drop)]
pub struct WatermarkRecord {
    pub device: Path,
    pub time: Time,
}

/// A deletion in a closed range of times. Its version is the stamp of its command.
#[derive(PartialEq, Eq, Drop)]
pub struct MarkRecord {
    pub path: Path,
    pub from: Time,
    pub to: Time,
    pub version: Stamp,
}

/// A listed file.
#[derive(PartialEq, Eq, Drop)]
pub struct FileRecord {
    pub number: FileNumber,
    pub born: Stamp,
}

/// The points of a series in a part of a pair.
#[derive(PartialEq, Eq, Drop)]
pub struct TableRecord {
    pub series: SeriesId,
    pub points: List<Point>,
}

/// A frozen pair: the series with points in each of its two parts.
#[derive(PartialEq, Eq, Drop)]
pub struct PairRecord {
    pub born: Stamp,
    pub sequence: List<TableRecord>,
    pub unsequence: List<TableRecord>,
}

/// What a store is at some moment.
#[derive(PartialEq, Eq, Drop)]
pub struct Snapshot {
    /// How many snapshots the store has had, this one counted.
    pub generation: u64,
    pub stamp: Stamp,
    /// The number of the next file.
    pub next_file: u64,
    /// The series, by number.
    pub schemas: List<SchemaRecord>,
    /// By the bytes of the devices.
    pub watermarks: List<WatermarkRecord>,
    /// By version.
    pub marks: List<MarkRecord>,
    /// The files of the sequence space, in the order of its list.
    pub sequence: List<FileRecord>,
    pub unsequence: List<FileRecord>,
    /// The frozen pairs, the oldest first, at most 255.
    pub frozen: List<PairRecord>,
    /// The two parts of the working pair.
    pub working_sequence: List<TableRecord>,
    pub working_unsequence: List<TableRecord>,
}
