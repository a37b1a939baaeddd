//! Deletion marks, and which points of files and frozen pairs they cover. It depends on `tsdb_base` and `tsdb_path`.
#![tactic(auto)]

mod index;
mod marks;
mod run;
mod series;

pub use marks::{Mark, Marks};
