//! The opening of a store by its log and its files. Depends on tsdb_base, tsdb_path, tsdb_model, tsdb_outside,
//! tsdb_frames, tsdb_stats, tsdb_index, tsdb_log, tsdb_pages, tsfile_reader, tsdb_plan, tsdb_state, tsdb_memory,
//! tsdb_flush, tsdb_redo, tsdb_fileset and tsdb_core.
//!
//! Recovery: a store is opened by its log.
//!
//! The log is the truth: its records are read and replayed, one after another, before any file is looked at. Nothing is
//! written to the journal. A listed file is fetched and read whole once; it is damaged where it is not there, or where no
//! tree has its bytes.
//!
//! What is kept of a file that is there: its entry, and the paths of its series, by what was read of it.
//!
//! A tree has the series of a part, in its order. So what is kept of its file is what a flush keeps of the file of a
//! part, and it says the points of the tree.
//!
//! The files of a replayed log, taken up one after another into those that a core keeps.
//!
//! Which files are listed, in which order and how they were born says the log alone; how many points, hulls and series a
//! file has is read of the file. `wanted` is the first listed file that is not kept yet, sequence files first. Once all
//! are, `finish` gives the core of the replay, with no job, pin or claim.
//!
//! The opening of a store with its files.
//!
//! The log is read and replayed first, and nothing is written to it. Then each listed file is fetched, read whole once
//! and taken up, in the order of the lists, sequence files first. Last, all files that no list has are removed. A store
//! that cannot be opened keeps its files, but for those that no list has, and each token is given back.
#![tactic(auto)]

mod adopting;
mod adopting_laws;
mod described_hulls;
mod described_laws;
mod fault;
mod file_entry;
mod files;
mod finishing;
mod log;
mod opening;
mod strays;
mod summary;
mod taking;

pub use adopting_laws::what_is_read_of_a_whole_file_is_of_its_points;
pub use described_laws::the_entry_of_a_file_says_its_points;
pub use fault::{OpenFault, OpenRefused, Part};
pub use log::read_log;
pub use opening::recover;
pub use tsdb_core::{Core, Options};
