//! Flushes: the files that are built from a frozen pair, and what these are to the engine state. Depends on tsdb_base,
//! tsdb_path, tsdb_model, tsdb_outside, tsdb_index, tsfile_writer, tsdb_memtable, tsdb_plan and tsdb_memory.
//!
//! `specs/Parts.antt` says which series a part of a pair has, and `specs/BuiltFile.antt` when a file is that of a part.
//!
//! `PartBuilder` is a file in the making, for whoever writes one series by series, or point by point.
//!
//! What a file that a flush built is to the engine state: the points of its tree are those of the part, and what is
//! kept of it says so.
//!
//! The job of a flush, taken from what is in memory.
//!
//! A job has the oldest frozen pair, and the series that have a point in it, in the order of a tree: by the bytes of
//! the device, and for one device by those of the measurement. Whole paths have another order where one device is a
//! prefix of another: `root.a.z` comes before `root.a.b.c`.
#![tactic(auto)]

mod building;
mod built_laws;
mod flush;
mod hulls;
mod job;
mod names;
mod part;
mod series;
mod taking;
mod taking_laws;

pub use built_laws::{
    a_built_file_has_the_points_of_its_part, the_entry_of_a_built_file_says_its_points,
    the_part_of_a_job_is_the_content_of_its_pair,
};
pub use flush::{FlushRefused, run_flush};
pub use hulls::{ends_in, widen};
pub use job::{Built, FlushJob, Flushed};
pub use part::{PartBuilder, Whole};
pub use taking::take;
pub use taking_laws::a_taken_job_is_a_flush_of_the_state;
pub use tsdb_memory::{MemoryStore, lesser};
