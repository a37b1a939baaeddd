//! Flushes and compactions at their beginning and their end: what they take of memory and of the listed files, and what
//! they put in its place. Depends on tsdb_base, tsdb_path, tsdb_model, tsdb_outside, tsdb_log, tsdb_pages, tsdb_marks,
//! tsdb_memtable, tsdb_plan, tsdb_state, tsdb_memory, tsdb_compactions, tsdb_fileset and tsdb_pin.
//!
//! What the end of a flush is to the engine state: the files that were built for it are told, the flush can be
//! committed with them, and they join the files that a core keeps.
//!
//! The inputs of a compaction among the files that a core keeps, what its job has of memory, and its ends.
//!
//! - A job has a right to read each of its inputs. Rights are tokens: the end of the job gives them back.
//! - The late inputs of a job that is out are claimed, and stand side by side in their list.
//! - A job has the marks of all series of its inputs, and the schemas of those that memory has.
//! - No end of a job takes memory.
//!
//! What the end of a compaction is to the engine state: the output that was built for it is told, and the job can be
//! committed with it, or ends without its record.
#![tactic(auto)]

mod beginning;
mod compaction_laws;
mod ending;
mod finishing;
mod flush_laws;
mod inputs;
mod output_laws;
mod runs;
mod series;

pub use beginning::{TakenInputs, take_job_inputs};
pub use compaction_laws::{
    a_begun_job_begins_in_the_state, a_finished_job_is_committed_in_the_state,
    a_job_given_up_ends_in_the_state, a_winner_of_a_job_has_its_schema,
    the_marks_of_a_job_are_of_its_moment, the_runs_of_a_job_have_its_inputs, tokens_tell_on,
};
pub use ending::give_up;
pub use finishing::{InputRuns, finish, runs_of};
pub use flush_laws::{
    a_built_file_can_be_told, a_flush_may_end_without_its_record,
    a_flush_whose_files_are_told_can_be_committed, a_pair_that_is_frozen_is_the_oldest,
    the_files_of_a_flush_join_those_of_the_state,
};
pub use inputs::take_inputs;
pub use output_laws::{
    a_built_output_can_be_told, a_file_built_for_a_job_is_its_output,
    a_job_may_end_without_its_record, a_job_with_its_output_can_be_committed,
};
pub use runs::run_of;
pub use series::{JobSeries, job_series};
pub use tsdb_compactions::{Input, Job};
pub use tsdb_pin::{Column, Pin, PinFault, PinnedSource, give_back, take_pin};
