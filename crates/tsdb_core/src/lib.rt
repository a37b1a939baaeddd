//! The core: what is in memory behind its log, and the files that are kept beside it. Depends on tsdb_base,
//! tsdb_path, tsdb_model, tsdb_outside, tsdb_frames, tsdb_log, tsdb_marks, tsdb_memtable, tsdb_plan, tsdb_state,
//! tsdb_memory, tsdb_fileset and tsdb_tasks.
//!
//! Which state of the engine a core shows says one relation, `IsSeen`. Each call is a step of that state.
#![tactic(auto)]

mod beginning;
mod calls;
mod commit;
mod ending;
mod engine;
mod flushing;
mod laws;
mod listing;
mod options;
mod out_laws;
mod pins;
mod replacing;
mod rows;

pub use commit::{Commit, CoreFault};
pub use engine::Core;
pub use laws::{
    a_core_crosses, a_job_is_of_a_compaction, a_kept_compaction_is_out, a_kept_compaction_tells,
    a_kept_flush_is_out, a_kept_pin_is_held, listed_files_are_kept, nothing_is_lent,
    nothing_lent_is_unread,
};
pub use options::Options;
pub use out_laws::{
    a_begun_job_is_out, a_flush_that_is_out_can_end, a_job_that_is_out_can_end,
    a_pin_given_back_is_out_no_longer, a_pin_that_is_out_is_held, a_taken_flush_is_out,
    a_taken_pin_is_out, an_ended_flush_is_out_no_longer, an_ended_job_is_out_no_longer,
    nothing_is_out, what_is_out_is_handed_on,
};
pub use tsdb_fileset::{Built, FlushJob, FlushRefused, Flushed, run_flush};
pub use tsdb_tasks::{Column, Input, Job, Pin, PinFault, PinnedSource};
