//! What is outside the engine, in memory: sources and sinks whose calls fail by number, steady ones that never fail,
//! and places for a store, with calls that fail by number and stops at every moment. Depends on `tsdb_base` and
//! `tsdb_outside`.
#![tactic(auto)]

mod calls;
mod entry;
mod files;
mod journal;
mod place;
mod record;
mod row;
mod steady;
mod streams;

pub use entry::{MemRight, MemSealed};
pub use files::{MemFiles, MemPort};
pub use journal::MemJournal;
pub use place::{Fails, MemPlace};
pub use record::StopKind;
pub use steady::{SteadyFiles, SteadyPlace, SteadyPort};
pub use streams::{MemSink, MemSource, SteadySink, SteadySource};
