//! The records of the log: what they say, and their bytes, written and read exactly. Depends on tsdb_fields,
//! tsdb_path and tsdb_base.
//!
//! ```text
//! create   = 01 path:name type:u8 encoding:u8
//! insert   = 02 time:i64 count:u16 cell{count}
//! cell     = series:u64 type:u8 value                   a value of the type before it
//! delete   = 03 path:name from:i64 to:i64
//! freeze   = 04
//! flushed  = 05 sequence:u64 unsequence:u64
//! replaced = 06 born:u64 space:u8 place:u64 output:u64 files files
//! files    = count:u32 number:u64{count}
//! snapshot = 07 generation:u64 stamp:u64 next_file:u64
//!            schemas watermarks marks listed listed frozen tables tables
//! schemas  = count:u64 schema{count}                    schema = path:name type:u8 encoding:u8
//! watermarks = count:u64 watermark{count}               watermark = device:name time:i64
//! marks    = count:u64 mark{count}                      mark = path:name from:i64 to:i64 version:u64
//! listed   = count:u64 file{count}                      file = number:u64 born:u64
//! frozen   = count:u8 pair{count}                       pair = born:u64 tables tables
//! tables   = count:u64 table{count}                     table = series:u64 points
//! points   = count:u64 point{count}                     point = time:i64 type:u8 value
//! ```
#![tactic(auto)]

mod fault;
mod kind;
mod laws;
mod part;
mod reading;
mod record;
mod snapshot;
mod snapshot_parts;
mod writing;

pub use fault::LogFault;
pub use laws::{one_spelling, spelling_fits_frame};
pub use reading::{may_begin, read_record};
pub use record::{CellRecord, LogRecord, MAX_CELLS};
pub use snapshot::{
    FileRecord, MAX_PAIRS, MarkRecord, PairRecord, SchemaRecord, Snapshot, TableRecord,
    WatermarkRecord,
};
pub use writing::{append_record, write_record};
