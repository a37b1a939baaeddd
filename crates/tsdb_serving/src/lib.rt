//! The work of one turn on a core, whatever else is out of it, and lists of turns on one thread. Depends on tsdb_base,
//! tsdb_path, tsdb_model, tsdb_outside, tsdb_frames, tsdb_log, tsdb_marks, tsdb_state, tsdb_memory, tsdb_fileset,
//! tsdb_tasks and tsdb_core.
//!
//! A command is one step of the plain map, whatever the core does for it. `IsAnsweredBy` says which states a core is in
//! before and after it, and what a stop leaves meanwhile. What is out of a core is a list of loans: a state that the core
//! is in has just these (`IsServing`), and each turn says what of them came and went.
#![tactic(auto)]

mod changes;
mod fault;
mod flushing;
mod laws;
mod loan;
mod showing;
mod sweeping;

pub use changes::{create, delete, insert};
pub use fault::FlushFault;
pub use flushing::{end_flush, flush, start_flush, take_flush};
pub use laws::{
    a_core_with_loans_can_serve, a_loan_can_be_ended, a_loan_comes_and_goes, loans_stay,
};
pub use loan::Loan;
pub use showing::show;
pub use sweeping::sweep;
pub use tsdb_core::{Core, CoreFault, Options};
