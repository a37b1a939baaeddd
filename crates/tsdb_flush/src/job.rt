//! A flush that is out, and its files. Depends on tsdb_base, tsdb_model, tsdb_memtable, tsdb_path, tsdb_plan and
//! tsdb_outside.

use std::alloc::Global;
use std::sync::Arc;
use tsdb_base::{FileNumber, List, SeriesId, Stamp};
use tsdb_memtable::Pair;
use tsdb_model::Schema;
use tsdb_outside::Files;
use tsdb_path::Path;
use tsdb_plan::FileEntry;

/// A flush that is out: a frozen pair with the stamp at its freeze, the numbers of its series with their schemas at the
/// same places, in the order of a tree, and for each part that has a point the number drawn for its file.
#[derive(Drop)]
pub struct FlushJob {
    pub born: Stamp,
    pub pair: Arc<Pair, Global>,
    pub series: List<SeriesId>,
    pub schemas: List<Schema>,
    pub sequence: Option<FileNumber>,
    pub unsequence: Option<FileNumber>,
}

/// A new file, with what is kept of it: its entry, and the paths of its series in the order of a tree.
pub struct Built<F: Files> {
    pub sealed: F::Sealed,
    pub entry: FileEntry,
    pub series: List<Path>,
}

/// The files of a flush: one for each part that has a point.
pub struct Flushed<F: Files> {
    pub sequence: Option<Built<F>>,
    pub unsequence: Option<Built<F>>,
}
