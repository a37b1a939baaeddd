//! Reading a TsFile through a port: what its tail, head, root and leaves say, the points of one page, and the check of
//! the whole file, which names the first part that is not as defined. Depends on tsdb_base, tsdb_path, tsdb_stats,
//! tsdb_fields, tsdb_index, tsdb_pages and tsdb_outside.
//!
//! The parts of a file in the order in which they are checked:
//!
//! ```text
//! length               at least 21 bytes
//! tail                 the last 14 bytes: the place of the root, and "TsFile"
//! head                 the first 7 bytes: "TsFile" 51
//! root                 from its place to the tail
//! leaf+                from the place of the first one to the root
//! group chunk page ..  from the head to the first leaf, each behind the one before it
//! leaf+ once more      whether their entries say what stands there
//! ```
#![tactic(auto)]

mod ends;
mod fault;
mod finding;
mod laws;
mod outline;
mod page;
mod parts;
mod port;
mod reader;
mod same;

pub use fault::ReadFault;
pub use finding::find_entry;
pub use laws::{a_whole_file_is_not_blamed, one_blame};
pub use reader::{check_file, read_meta, read_points};
