//! Paths of series, the names of their nodes, and the order of the series of a tree. It depends on tsdb_base.
//!
//! A path is nodes joined by dots, as `root.plant.pump.speed`.
//! A node is one or more ASCII letters, digits and `_`, not all of them digits. A path has 1 to 16 nodes, the
//! first of them `root`, and at most 255 bytes. Contracts see a [`Path`] and a [`Name`] as the list of its bytes.
#![tactic(auto)]

mod fault;
mod keys;
mod name;
mod path;
mod scan;
mod tree;

pub use fault::PathFault;
pub use name::Name;
pub use path::Path;
pub use tree::{compare_in_tree, compare_names, names_in_tree, series_names};
