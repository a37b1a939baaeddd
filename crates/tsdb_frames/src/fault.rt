//! Why a slot could not be read. Depends on `tsdb_outside` for `Failed`.
ghost use Rattle.std.specs.Prelude.{◌≡◌};
ghost use Rattle.tsdb_frames.specs.declared.fault.ScanFault.TheVariants as scan_fault;

use std::alloc::{AllocError, AllocFailed};
use tsdb_outside::Failed;

/// Why a slot could not be read.
#[derive(Clone, Copy, Debug, PartialEq, Eq)]
pub enum ScanFault {
    /// The journal failed in this call, and its count of faults has risen.
    Failed,
    /// At this place, in bytes, stands an open gate without a whole record and a gate behind it; or the slot is empty.
    Torn { at: u64 },
    /// Out of memory.
    Memory,
}

impl From<Failed> for ScanFault {
    ghost from_gives = { λ _ e. e ≡ scan_fault.Failed };

    fn from(_: Failed) -> Self {
        ScanFault::Failed
    }
}

impl From<AllocError> for ScanFault {
    ghost from_gives = { λ _ e. e ≡ scan_fault.Memory };

    fn from(_: AllocError) -> Self {
        ScanFault::Memory
    }
}

impl<T: Drop> From<AllocFailed<T>> for ScanFault {
    ghost from_gives = { λ _ e. e ≡ scan_fault.Memory };

    fn from(_: AllocFailed<T>) -> Self {
        ScanFault::Memory
    }
}
