//! The index of a TsFile: what it says of each chunk and each page of the file, its bytes, reading these exactly, and
//! finding one entry. Depends on tsdb_base and tsdb_fields.
//!
//! ```text
//! index      = leaf{1..} root                   the root behind the last leaf
//! leaf       = 49 count:u16 entry{count}        256 entries, in the last leaf 1 to 256
//! entry      = device:name measurement:name type:u8 encoding:u8 place:u64 statistics count:u32 page{count}
//! page       = place:u64 statistics
//! root       = 52 count:u32 pointer{count}      a pointer for each leaf
//! pointer    = device:name measurement:name place:u64    the names of the leaf's first entry, and the leaf's place
//! ```
#![tactic(auto)]

mod fault;
mod finding;
mod index;
mod laws;
pub mod marks;
mod order;
mod pointer;
mod reading;
mod version;
mod writing;

pub use fault::IndexFault;
pub use finding::{entry_for, leaf_for};
pub use index::{FileMeta, Index, IndexEntry, PageEntry};
pub use laws::{one_index, one_spelling, root_begins};
pub use order::are_root;
pub use pointer::Pointer;
pub use reading::{end_of, pointers_in, read_index, read_leaf, read_leaves};
pub use version::has_sums;
pub use writing::{write_index, write_leaves_and_root};
