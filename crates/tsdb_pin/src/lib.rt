//! A pin: what a query reads, taken at one moment and given back later. Depends on tsdb_base, tsdb_path, tsdb_model,
//! tsdb_outside, tsdb_marks, tsdb_memtable, tsdb_plan and tsdb_fileset.
//!
//! Pins: what a query reads, taken at one moment and given back later.
//!
//! - A pin has a column for each item. A column has a right to read each listed file that has its series, and copies of
//!   the points in the range of the parts in memory, in the order of their priority.
//! - A pin has copies of the deletion marks of its series. So it has the same values whatever is written, deleted,
//!   flushed or compacted later.
//! - A right is a token: whoever has a pin gives it back.
#![tactic(auto)]

mod columns;
mod items;
mod parts;
mod pin;
mod returning;
mod sources;
mod taking;

pub use pin::{Column, Pin, PinFault, PinnedSource};
pub use returning::give_back;
pub use taking::take_pin;
