//! What a store has in memory: its series, its pairs of points and its marks. Each change is a record of the log before
//! it takes effect. Depends on tsdb_base, tsdb_path, tsdb_model, tsdb_outside, tsdb_frames, tsdb_log, tsdb_marks,
//! tsdb_memtable, tsdb_state and indexmap.
//!
//! What an engine holds in memory, and what each record of the log does to it, in two phases: `prepare` takes all the
//! memory that the effect needs, and `finish` takes none. So a running engine writes the record in between, and a
//! replay does not.
//!
//! A contract sees a `Store`. Which states of the engine have it as their part in memory says one relation,
//! `IsMemoryOf`; an effect leads from each such state to the state after the record. Files are no part of it: where an
//! effect looks at them, the caller tells the least stamp at which a listed file was frozen.
//!
//! An effect that was prepared and is not finished has changed nothing. The room that it took is used by the next one.
//!
//! The rows of inserts against what is in memory: how a row is read, when it fits the working pair, and that it can
//! then be put.
//!
//! An insert takes four calls: `cells_of` reads the row, or refuses it as the plain map does; `fits_pair` says whether the
//! working pair has to be frozen first; and then the record is written with the cells that were read. Laws say that the
//! state after the first three has what that record needs.
//!
//! A record of the log as it is appended, written once into room that the caller lends.
//!
//! What an engine holds in memory, behind its log: each change is written to the log, and then takes effect in memory.
//!
//! A change takes all of its memory first. Then one private call appends its record: it is the only place that touches
//! the log. Where that failed, memory is as it was. Files are no part of this: the relation to the engine state,
//! `IsSound`, leaves them free.
//!
//! What the plain map answers to the changes of an engine, by what is in memory.
#![tactic(auto)]

mod cells;
mod commands;
mod creating;
mod deleting;
mod fitting;
mod flushing;
mod framing;
mod freezing;
mod inserting;
mod logged_memory;
mod map_laws;
mod pairs;
mod purging;
mod reading;
mod replacing;
mod row_laws;
mod shared;
mod store;

pub use cells::cells_of;
pub use fitting::fits_pair;
pub use freezing::Freezing;
pub use logged_memory::LoggedMemory;
pub use map_laws::{
    a_creation_follows_the_map, a_deletion_follows_the_map, a_freeze_keeps_the_world,
    a_row_follows_the_map,
};
pub use purging::lesser;
pub use reading::NumberedSeries;
pub use row_laws::{
    a_pair_without_points_is_empty, a_row_can_be_put, counts_of_a_state, reading_follows_the_map,
};
pub use store::{FrozenPair, MemoryStore};
