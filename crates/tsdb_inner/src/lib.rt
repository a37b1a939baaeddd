//! Running a compaction: the surviving winners of its inputs, by streams of pages, into one file. Depends on tsdb_base,
//! tsdb_path, tsdb_model, tsdb_outside, tsdb_pages, tsdb_marks, tsdb_merge, tsdb_state, tsdb_streams, tsdb_flush and
//! tsdb_compactions.
//!
//! It reads the index of each input once, and then goes series by series in the order of a tree. Its memory is the
//! indexes of the inputs, the bytes of the output, 1,000 points of each input, and the entries of one series. An inner
//! and a cross compaction are run alike, since the inputs of both stand from the lowest to the highest priority.
#![tactic(auto)]

mod copying;
mod inputs;
mod running;

pub use running::{run_cross, run_inner};
