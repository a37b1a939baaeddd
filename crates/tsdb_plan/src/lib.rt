//! Compaction plans: which files of one list, or which late files with files in time order, are to be rewritten
//! together. It depends on `tsdb_base` for numbers, stamps and lists, and on `tsdb_path` for devices.
//!
//! A plan is computed from what is kept of each file: its length, whether a job has claimed it, and one hull for each
//! of its devices. No plan takes memory.
#![tactic(auto)]

use tsdb_base::limits::{MAX_INPUTS, MAX_PLAN_BYTES};

mod cross_plan;
mod entry;
mod inner_plan;
mod laws;
mod overlap;

pub use cross_plan::cross;
pub use entry::{CrossRun, FileEntry, Hull, Run};
pub use inner_plan::inner;
pub use laws::{ends_are_greatest, firsts_are_least, shorter_are_eligible};
pub use overlap::have_rising_hulls;

/// The most files that an inner run has.
pub const MAX_FILES: usize = MAX_INPUTS;

/// The most bytes that the files of a plan have together.
pub const MAX_BYTES: u64 = MAX_PLAN_BYTES;
