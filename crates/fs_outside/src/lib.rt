//! What is outside the engine, for real: the standard input and output of the program, and the slots and files of a
//! store in a directory. Depends on `tsdb_base` and `tsdb_outside`.
#![tactic(auto)]

mod file_directory;
mod file_name;
mod files;
mod journal;
mod locked_directory;
mod open_files;
mod opening;
mod place;
mod slot_directory;
mod slot_file;
mod streams;

pub use file_directory::{FileDirectory, FileOnDisk, NumberedFile, StoreDirectory};
pub use files::{FsFiles, FsPort, FsRight, FsSealed};
pub use journal::FsJournal;
pub use locked_directory::LockedDirectory;
pub use opening::open_slots;
pub use place::FsPlace;
pub use slot_directory::{OpenSlot, SlotDirectory, SlotOnDisk, SlotsOnDisk};
pub use slot_file::SlotFile;
pub use streams::{StdSink, StdSource};
