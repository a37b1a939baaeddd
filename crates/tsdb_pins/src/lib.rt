//! Queries over a pin: rows, aggregates and streams, from its files and its copies, and the law that the plain model
//! has the same. Depends on tsdb_base, tsdb_path, tsdb_model, tsdb_outside, tsdb_stats, tsdb_pages, tsdb_marks,
//! tsdb_merge, tsdb_aggregate, tsdb_state, tsdb_streams, tsdb_memory and tsdb_pin.
//!
//! What a pin has in the worlds that it stands for.
//!
//! The points of a column are the merge of what its sources have in the range and no mark deletes. Laws say that these
//! are the points of the series in each such world, and that the columns are those of the items.
//!
//! What a query answers from its pin.
//!
//! A query takes neither the core nor any lock: it reads the pin's files through the port of its session. A column is a
//! stream, so of each file only the pages are read that meet the range. An aggregate takes the statistics of the pages
//! that are clean, and reads the others.
//!
//! The rows of a select from the points of its columns.
//!
//! Each column has its points in order of time. A row has the values of all columns at one time. Rows stand in order of
//! time, one for each time at which a column has a point. No point is looked at twice.
#![tactic(auto)]

mod aggregating;
mod column;
mod folding;
mod laws;
mod lending;
mod rows;
mod selecting;
mod streaming;
mod world_laws;

pub use aggregating::aggregates;
pub use laws::{
    pages_have_the_points_of_their_file, rights_are_of_the_store, series_have_a_device,
};
pub use rows::rows_of;
pub use selecting::select;
pub use streaming::open_column;
pub use tsdb_streams::{Stream, pull};
pub use world_laws::{
    a_pin_is_answered_as_by_the_map, a_refusal_is_that_of_the_map, columns_are_those_of_the_items,
    sources_have_the_points_of_the_world,
};
