//! One list of points from several: at each time the point of the last source that has one. It depends on
//! `tsdb_base` for points and lists.
//!
//! Sources stand from the lowest to the highest priority. A merge is a balanced tree of merges of two, so that a point
//! costs one comparison on each level of the tree and not a look at every source. One tree serves both the merge of
//! lists and the merge over a supply, which is asked for the points of a source when the last of them was taken. The
//! tree is public for a caller that walks it by functions of its own: a method of a trait cannot call a function whose
//! type parameter has to be `Send`, so what reads through such a parameter is no supply.
#![tactic(auto)]

mod head;
mod lazy;
mod merge;
mod points;
mod supply;
mod tree;

pub use head::{Head, into_point, take_next};
pub use lazy::LazyMerge;
pub use merge::{Merge, merge_is_one, pieces_merge_as_joined};
pub use points::{ListPoints, Points, PullFault};
pub use supply::Supply;
pub use tree::{Node, count_held, pop};
