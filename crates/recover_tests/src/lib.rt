//! Tests of the opening of a store, by public items alone: each kind of record of a log with a replay and without one,
//! damaged logs and files with their places, records that claim too much, stores with files, and calls and reads that
//! fail. Depends on `tsdb_redo` and `tsdb_recover`, for what these are given on `tsdb_base`, `tsdb_path`, `tsdb_log`
//! and `tsdb_core`, and on `tsdb_outside` and `mem_outside` for places in memory.
#![tactic(auto)]

#[cfg(test)]
mod claims;
#[cfg(test)]
mod log;
#[cfg(test)]
mod reads;
#[cfg(test)]
mod redo;
#[cfg(test)]
mod stores;
