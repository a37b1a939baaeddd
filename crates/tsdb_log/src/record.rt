//! What a record of the log says. Depends on `snapshot`, tsdb_base and
//! tsdb_path.

use crate::snapshot::Snapshot;
use tsdb_base::{DataType, Encoding, FileNumber, List, Range, SeriesId, Space, Stamp, Time, Value};
use tsdb_path::Path;

/// The most cells of an insert, since their number stands in two bytes.
pub const MAX_CELLS: usize = 65535;

/// One value of an inserted row.
#[derive(PartialEq, Eq, Drop)]
pub struct CellRecord {
    pub series: SeriesId,
    pub value: Value,
}

/// A record of the log: a command that was accepted, or a change of the store's parts.
#[derive(PartialEq, Eq, Drop)]
pub enum LogRecord {
    /// A series was created. Series are numbered from 0 in this order.
    Create {
        path: Path,
        data_type: DataType,
        encoding: Encoding,
    },
    /// A row was inserted: values at one time.
    Insert {
        time: Time,
        cells: List<CellRecord>,
    },
    /// The points of a series in a closed range of times were deleted.
    Delete {
        path: Path,
        range: Range,
    },
    /// The working pair was frozen.
    Freeze,
    /// The oldest frozen pair was written to these files. A part without points has no file, and number 0.
    Flushed {
        sequence: FileNumber,
        unsequence: FileNumber,
    },
    /// Files were replaced by one file, or by none, where the number of the output is 0.
    Replaced {
        born: Stamp,
        /// The space of the output.
        space: Space,
        /// The place of the output in the list of its space.
        place: u64,
        output: FileNumber,
        /// The inputs of the sequence space, at most 4,294,967,295.
        sequence: List<FileNumber>,
        /// The inputs of the unsequence space, at most 4,294,967,295.
        unsequence: List<FileNumber>,
    },
    /// What the store was. It is the first record of its slot.
    Snapshot(Snapshot),
}
