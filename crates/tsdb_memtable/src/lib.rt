//! Pairs, which are the points in memory in both spaces; the watermark of each device; and the space that a written
//! point goes to. It depends on `tsdb_base` and `tsdb_path`.
#![tactic(auto)]

mod pair;
mod points;
mod series;
mod watermarks;

pub use pair::Pair;
pub use watermarks::{Watermarks, space_of};
