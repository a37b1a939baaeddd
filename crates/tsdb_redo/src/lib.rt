//! The replay of a log, record by record, before any file is looked at. Depends on tsdb_base, tsdb_path, tsdb_model,
//! tsdb_log, tsdb_memtable, tsdb_state and tsdb_memory.
//!
//! The replay of a log, before any file is looked at: what the records give, one after another.
//!
//! An `Opening` has what is in memory, the two lists of files by number and born, and the numbers that records have
//! named. Which state of replay it shows says one relation, `IsOpeningOf`; a record leads from each such state to the
//! state after it, or has no replay in any of them. A record does to memory what it does in a running engine, by the
//! same calls of `tsdb_memory`.
//!
//! A record that has a replay costs what it says: a series is found by its number or its path, a point by its time, a
//! file by its place, and a number of a file in an ordered map. The numbers named are kept as runs, so that they cost
//! memory in the order of the gaps between them, and not of the log.
#![tactic(auto)]

mod changes;
mod fault;
mod file_records;
mod lists;
mod numbers;
mod opening;
mod replacing;
mod rows;

pub use fault::RedoFault;
pub use lists::ListedFile;
pub use opening::Opening;
