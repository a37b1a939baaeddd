//! What is kept of each file, and what a plan names. It depends on `tsdb_base` and `tsdb_path`.

use tsdb_base::{FileNumber, List, Stamp, Time};
use tsdb_path::Path;

/// A device with its least and its greatest time in a file.
#[derive(PartialEq, Eq, Drop)]
pub struct Hull {
    pub device: Path,
    pub from: Time,
    pub to: Time,
}

/// What is kept of a file in one of the two lists: its length in bytes, how many points it has, one hull for each of
/// its devices in order of device bytes, and whether a job has claimed it.
#[derive(PartialEq, Eq, Drop)]
pub struct FileEntry {
    pub number: FileNumber,
    pub born: Stamp,
    pub size: u64,
    pub points: u64,
    pub hulls: List<Hull>,
    pub claimed: bool,
}

/// The files from place `first` to place `end`, without `end`.
#[derive(Clone, Copy, Debug, PartialEq, Eq)]
pub struct Run {
    pub first: usize,
    pub end: usize,
}

/// The first `prefix` files of the unsequence list, with the files of the sequence list from place `first` to place
/// `end`, without `end`.
#[derive(Clone, Copy, Debug, PartialEq, Eq)]
pub struct CrossRun {
    pub prefix: usize,
    pub first: usize,
    pub end: usize,
}
