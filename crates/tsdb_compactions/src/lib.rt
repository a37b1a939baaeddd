//! Compactions that are out, and when a file is the output of one. Depends on tsdb_base, tsdb_model, tsdb_outside,
//! tsdb_marks, tsdb_plan, tsdb_state and tsdb_flush.
//!
//! `specs/Outputs.antt` says when a file is the output of a job, `specs/Jobs.antt` which compaction of the engine
//! state a job is, and `specs/Plans.antt` which one a plan begins.
#![tactic(auto)]

mod job;
mod laws;

pub use job::{Input, Job};
pub use laws::{
    a_job_without_a_point_has_no_output, a_planned_compaction_begins,
    an_output_has_the_winners_of_its_job, the_marks_of_its_series_are_enough,
    the_truth_of_a_job_stays,
};
pub use tsdb_flush::Built;
