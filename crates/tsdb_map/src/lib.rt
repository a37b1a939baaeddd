//! The plain map: the plain model in executable form, a last-write-wins map for each series. Depends on tsdb_base, tsdb_path
//! and tsdb_model.
#![tactic(auto)]

mod catalog;
mod fold;
mod laws;
mod pending;
mod plain;
mod row;
mod rows;
mod select;
mod series;

pub use laws::{
    deletion_keeps_the_rest, deletion_removes_its_range, last_write_wins_in_map,
    other_values_stay_in_map, refused_insert_changes_nothing,
};
pub use pending::{Pending, Prepared};
pub use plain::Plain;
