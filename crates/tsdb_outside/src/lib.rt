//! What the engine meets outside itself: the source of a script, the sink of the output, the journal on a disk and the
//! place where it lies. Each is a trait whose meaning contracts can name (what is left, what is held, what a stop may
//! leave, how often it has failed), so that code above it is proved once for objects in memory and for real ones.
//! Depends on `tsdb_base`.
#![tactic(auto)]

mod disk;
mod faults;
mod files;
mod streams;

pub use disk::{Disk, Journal, Place, Slot};
pub use faults::{Counted, Failed, Steady, StoreFault};
pub use files::{Files, Port, ReadRight, SealedFile, is_file_number, list_of_numbers};
pub use streams::{Sink, Source};
