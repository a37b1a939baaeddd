//! Why a file could not be read. Depends on tsdb_outside, tsdb_index, tsdb_fields, tsdb_path and tsdb_base.
ghost use Rattle.std.specs.Prelude.{◌≡◌};
ghost use Rattle.tsfile_reader.specs.declared.fault.ReadFault.TheVariants as fault;

use std::alloc::{AllocError, AllocFailed};
use std::error::Error;
use std::fmt;
use tsdb_base::Memory;
use tsdb_fields::FieldFault;
use tsdb_index::IndexFault;
use tsdb_outside::Failed;

/// Why a file could not be read.
#[derive(Clone, Copy, Debug, PartialEq, Eq)]
pub enum ReadFault {
    /// The port failed in this call, and its count of faults has risen.
    Failed,
    /// The part that begins at this place is not as defined, and those that are checked before it are.
    Damaged { at: u64 },
    /// Out of memory.
    Memory,
}

impl ReadFault {
    ghost use Rattle.tsfile_reader.specs.Answers.{as_read_fault, of_index};

    /// The fault of the part at this place, of which a field could not be read.
    pub fn of_part(fault: FieldFault, at: u64) -> ReadFault
        ensures { result ≡ as_read_fault at fault }
    {
        match fault {
            FieldFault::Bad { .. } => ReadFault::Damaged { at },
            FieldFault::Memory => ReadFault::Memory,
        }
    }

    /// The fault of an index.
    pub fn of_index(fault: IndexFault) -> ReadFault
        ensures { result ≡ of_index fault }
    {
        match fault {
            IndexFault::Bad { at } => ReadFault::Damaged { at },
            IndexFault::Memory => ReadFault::Memory,
        }
    }
}

impl From<Failed> for ReadFault {
    ghost from_gives = { λ _ e. e ≡ fault.Failed };

    fn from(_error: Failed) -> ReadFault {
        ReadFault::Failed
    }
}

impl From<AllocError> for ReadFault {
    ghost from_gives = { λ _ e. e ≡ fault.Memory };

    fn from(_error: AllocError) -> ReadFault {
        ReadFault::Memory
    }
}

impl<T: Drop> From<AllocFailed<T>> for ReadFault {
    ghost from_gives = { λ _ e. e ≡ fault.Memory };

    fn from(_error: AllocFailed<T>) -> ReadFault {
        ReadFault::Memory
    }
}

impl From<Memory> for ReadFault {
    ghost from_gives = { λ _ e. e ≡ fault.Memory };

    fn from(_error: Memory) -> ReadFault {
        ReadFault::Memory
    }
}

impl fmt::Display for ReadFault {
    fn fmt<W: fmt::Write>(&self, f: &mut fmt::Formatter<W>) -> fmt::Result {
        match self {
            ReadFault::Failed => f.write_str("failed"),
            ReadFault::Damaged { at } => write!(f, "damaged at {at}"),
            ReadFault::Memory => f.write_str("memory"),
        }
    }
}

impl Error for ReadFault {}
