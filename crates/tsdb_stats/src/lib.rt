//! Statistics of points, as the index of a file keeps them: those of a list of points, and those of two lists from
//! their statistics. Depends on tsdb_base, and on tsdb_model for the definition of the aggregates.
#![tactic(auto)]

mod extreme;
mod statistics;
mod sum;

pub use statistics::{join, join_whole, stats_of};
pub use tsdb_model::{Name, Path};
