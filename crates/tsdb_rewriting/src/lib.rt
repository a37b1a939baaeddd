//! Compactions of a core: the turns that begin and end a job, and lists of them. Depends on tsdb_base, tsdb_model,
//! tsdb_outside, tsdb_frames, tsdb_log, tsdb_marks, tsdb_plan, tsdb_state, tsdb_memory, tsdb_compactions, tsdb_inner,
//! tsdb_fileset and tsdb_serving.
//!
//! A compaction begins the job of a plan in one turn, writes its output beside the core, and ends the job in another:
//! the output stands in the place of its inputs, or the job is given up. No reply says whether there was a plan.
#![tactic(auto)]

ghost use Rattle.tsdb_rewriting.proofs.States.{put_of};
ghost use Rattle.tsdb_rewriting.proofs.Untold.{nothing};
ghost use Rattle.tsdb_rewriting.proofs.Listed.{replaced_by};

mod compacting;
mod turns;

pub use compacting::{compact_cross, compact_inner};
pub use turns::{end_job, start_cross, start_inner, work_cross, work_inner};
