//! The tree that a file is written from. Depends on tsdb_base and tsdb_path.

use tsdb_base::{DataType, Encoding, List, Point};
use tsdb_stats::{Name, Path};

/// Points that are written together: 1 to 1,000, in order of time.
#[derive(PartialEq, Eq, Drop)]
pub struct Page {
    pub points: List<Point>,
}

/// The points of one series: pages, each behind the one before it in time.
#[derive(PartialEq, Eq, Drop)]
pub struct Chunk {
    pub measurement: Name,
    pub data_type: DataType,
    pub encoding: Encoding,
    pub pages: List<Page>,
}

/// The series of one device, in rising order of their measurements.
#[derive(PartialEq, Eq, Drop)]
pub struct Group {
    pub device: Path,
    pub chunks: List<Chunk>,
}

/// What a file holds: groups, in rising order of their devices.
#[derive(PartialEq, Eq, Drop)]
pub struct Tree {
    pub groups: List<Group>,
}
