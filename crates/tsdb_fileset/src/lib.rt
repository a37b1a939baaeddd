//! The files that a core keeps, what they are to the engine state, and the lines of their listing. Depends on
//! tsdb_base, tsdb_path, tsdb_model, tsdb_outside, tsdb_plan and tsdb_flush.
//!
//! The files that a core keeps: their tokens by number, the two lists of files, and the files on their way out.
//!
//! - A number that is drawn for a file gets a place, and room in its list and among the outgoing files. So no end of a
//!   job takes memory, and none can fail for want of it.
//! - Each file of the two lists and each outgoing file has its token here, and each token is of one of them.
//! - A series is looked up among those of a file by a binary search, as they stand in the order of a tree.
//! - An outgoing file is removed from the store once no right to read it is out, and no record in doubt names it.
//!
//! What the files that a core keeps are to the engine state: which state they show, and what a sweep or a new file
//! makes of it.
//!
//! The lines of files in a listing of a store, by what is kept of each file.
#![tactic(auto)]

mod closing;
mod file;
mod files;
mod laws;
mod lines;
mod listing_laws;
mod places;
mod replacing;
mod rights;
mod room;
mod series;
mod sweeping;

pub use files::{KeptFiles, Outgoing};
pub use laws::{
    a_new_file_joins_those_of_the_state, a_sweep_is_a_step_of_the_state,
    places_alone_change_no_file, the_listed_borns_are_those_of_the_state,
};
pub use lines::file_lines;
pub use listing_laws::the_lines_tell_the_files_of_the_state;
pub use room::Spare;
pub use tsdb_flush::{Built, FlushJob, FlushRefused, Flushed, MemoryStore, run_flush, take};
