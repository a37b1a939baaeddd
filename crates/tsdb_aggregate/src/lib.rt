//! Aggregates of one series from pieces of several sources: from a piece's statistics where nothing else lies over
//! it, and else from its points. It depends on `tsdb_base`, on `tsdb_model` for the definition of the aggregates, on
//! `tsdb_stats` for statistics and on `tsdb_merge` for the points that win.
//!
//! The pieces are put in order of their starts once. The walk goes along groups of pieces whose hulls meet one another.
//! In a group a piece is loaded when the merge comes to it, and let go at its end.
#![tactic(auto)]

mod entry;
mod fold;
mod group;
mod lanes;
mod loader;
mod piece;
mod tally;

pub use fold::{aggregate, winners_are_one};
pub use loader::Loader;
pub use piece::{Piece, overlap};
pub use tally::{Tally, has_asked};
