//! Tests of one core: answers and counts, limits of a pair at their edges, flushes with their listings, calls of the
//! journal and of the files that fail, and what a stop at each moment leaves of the log. Depends on `tsdb_core`,
//! `tsdb_memory` and `tsdb_fileset`, and for what these are given and leave on `tsdb_base`, `tsdb_path`, `tsdb_model`,
//! `tsdb_outside`, `mem_outside`, `tsdb_frames`, `tsdb_log`, `tsdb_flush`, `tsdb_print` and `tests_support`. The specs
//! and proofs speak of `tsdb_state` and `tsdb_tasks` too.
#![tactic(auto)]

#[cfg(test)]
mod answers;
#[cfg(test)]
mod asking;
#[cfg(test)]
mod cases;
#[cfg(test)]
mod failing;
#[cfg(test)]
mod flushes;
#[cfg(test)]
mod places;
#[cfg(test)]
mod room;
#[cfg(test)]
mod rows;
#[cfg(test)]
mod stops;
#[cfg(test)]
mod stored;
#[cfg(test)]
mod words;
