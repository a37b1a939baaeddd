//! What the index of a file has. Depends on tsdb_base and tsdb_path.

use tsdb_base::{DataType, Encoding, List, Stats};
use tsdb_fields::{Name, Path};

/// What the index says of a page.
#[derive(PartialEq, Eq, Drop)]
pub struct PageEntry {
    /// The place of the page's first byte in the file.
    pub place: u64,
    pub stats: Stats,
}

/// What the index says of a chunk.
#[derive(PartialEq, Eq, Drop)]
pub struct IndexEntry {
    pub device: Path,
    pub measurement: Name,
    pub data_type: DataType,
    pub encoding: Encoding,
    /// The place of the chunk's first byte in the file.
    pub place: u64,
    pub stats: Stats,
    pub pages: List<PageEntry>,
}

/// The entries of a file's chunks, in rising order of their devices, and for one device of their measurements.
#[derive(PartialEq, Eq, Drop)]
pub struct Index {
    pub entries: List<IndexEntry>,
}

/// What is read of a file besides its points: its length in bytes, its version and its index.
#[derive(PartialEq, Eq, Drop)]
pub struct FileMeta {
    pub size: u64,
    pub version: u8,
    pub index: Index,
}
