//! Why a file could not be built. Depends on tsdb_base.

use std::alloc::AllocError;
use std::error::Error;
use std::fmt;
use tsdb_base::Memory;

/// Why a file could not be built.
#[derive(Clone, Copy, Debug, PartialEq, Eq)]
pub enum BuildFault {
    /// Out of memory, or the file would have more pages in a chunk or more chunks than a file may have.
    Memory,
}

impl From<Memory> for BuildFault {
    fn from(_error: Memory) -> BuildFault {
        BuildFault::Memory
    }
}

impl From<AllocError> for BuildFault {
    fn from(_error: AllocError) -> BuildFault {
        BuildFault::Memory
    }
}

impl fmt::Display for BuildFault {
    fn fmt<W: fmt::Write>(&self, f: &mut fmt::Formatter<W>) -> fmt::Result {
        f.write_str("memory")
    }
}

impl Error for BuildFault {}
