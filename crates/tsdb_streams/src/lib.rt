//! One series as a stream of points over files and parts in memory. Depends on tsdb_base, tsdb_path, tsdb_model,
//! tsdb_outside, tsdb_stats, tsdb_index, tsdb_pages, tsfile_reader, tsdb_marks, tsdb_merge, tsdb_aggregate and
//! tsdb_state.
//!
//! One series as a stream of points over files and points in memory, read page by page.
//!
//! A source is a file or a part in memory. Sources stand from the lowest to the highest priority, and at each time the
//! last source with a point that no mark deletes wins. A page is read when the merge comes to it, and only where its
//! times meet the range. So at most one page of each source is held. The index of a file is read when a stream is opened
//! over it, or once for the streams of many series.
//!
//! Laws between the merge of lists of points and the values of the engine state.
//!
//! Whoever reads a series of a pin merges the sources of the pin, from the lowest priority to the highest, each without
//! the points that a mark deletes. These laws say that such a merge has the value of each place.
#![tactic(auto)]

mod cleaning;
mod counting;
mod file;
mod filling;
mod indexed_files;
mod lane;
mod lanes;
mod laws;
mod opening;
mod ordering;
mod pulling;
mod source;
mod stream;
mod survival;
mod walking;

pub use indexed_files::{open_index, open_indexed};
pub use laws::{
    merged_survivors_are_all, merged_survivors_are_the_values, pieces_merge_as_their_sources,
};
pub use opening::{open_parted, open_stream};
pub use pulling::pull;
pub use source::{IndexedFile, StreamSource};
pub use stream::Stream;
