//! Why the use did not come to its end. Depends on the faults of tsdb_outside and tsdb_base.

use std::alloc::AllocFailed;
use tsdb_base::Memory;
use tsdb_outside::StoreFault;

/// Why the use did not come to its end.
#[derive(Clone, Copy, Debug)]
pub enum Fault {
    /// A command was refused, or a path is none of a series.
    Refused,
    /// The store could not be opened.
    Closed,
    Store(StoreFault),
}

impl From<StoreFault> for Fault {
    fn from(fault: StoreFault) -> Fault {
        Fault::Store(fault)
    }
}

impl From<Memory> for Fault {
    fn from(_memory: Memory) -> Fault {
        Fault::Store(StoreFault::Memory)
    }
}

impl<T: Drop> From<AllocFailed<T>> for Fault {
    fn from(_error: AllocFailed<T>) -> Fault {
        Fault::Store(StoreFault::Memory)
    }
}
