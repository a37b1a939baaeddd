//! Why an index could not be read. Depends on tsdb_fields.
use std::alloc::{AllocError, AllocFailed};
use tsdb_fields::FieldFault;

/// Why an index could not be read.
#[derive(Clone, Copy, Debug, PartialEq, Eq)]
pub enum IndexFault {
    /// The part that begins at this place is no part of an index. The root comes before the leaves.
    Bad { at: u64 },
    /// Out of memory.
    Memory,
}

impl IndexFault {
    ghost use Rattle.std.specs.Prelude.{◌≡◌};
    ghost use Rattle.tsdb_index.specs.Faults.{as_index_fault};

    /// The fault of the part at this place, of which a field could not be read.
    pub fn of_part(fault: FieldFault, at: u64) -> IndexFault
        ensures { result ≡ as_index_fault at fault }
    {
        match fault {
            FieldFault::Bad { .. } => IndexFault::Bad { at },
            FieldFault::Memory => IndexFault::Memory,
        }
    }
}

impl From<AllocError> for IndexFault {
    ghost use Rattle.std.specs.Prelude.{◌≡◌};
    ghost use Rattle.tsdb_index.specs.declared.fault.IndexFault.TheVariants.{Memory};

    ghost from_gives = { λ _ e. e ≡ Memory };

    fn from(_error: AllocError) -> IndexFault {
        IndexFault::Memory
    }
}

impl<T: Drop> From<AllocFailed<T>> for IndexFault {
    ghost use Rattle.std.specs.Prelude.{◌≡◌};
    ghost use Rattle.tsdb_index.specs.declared.fault.IndexFault.TheVariants.{Memory};

    ghost from_gives = { λ _ e. e ≡ Memory };

    fn from(_error: AllocFailed<T>) -> IndexFault {
        IndexFault::Memory
    }
}
