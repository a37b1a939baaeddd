//! Why bytes could not be read. It depends on std alone.

ghost use Rattle.std.specs.Prelude.{◌≡◌};
ghost use Rattle.tsdb_bits.specs.declared.fault.UnpackFault.TheVariants.{Memory as OutOfMemory};

use std::alloc::{AllocError, AllocFailed};

/// Why no number is read at a place.
#[derive(Clone, Copy, Debug, PartialEq, Eq)]
pub enum BitFault {
    /// The bytes end within the number; `at` is their length.
    Short { at: u64 },
    /// The bytes are not the shortest of the number, or it passes 64 bits; `at` is the first byte.
    Overlong { at: u64 },
}

/// Why bytes are no packed list.
#[derive(Clone, Copy, Debug, PartialEq, Eq)]
pub enum UnpackFault {
    /// There are too few bytes; `at` is their length.
    Short { at: u64 },
    /// A filling bit is set, or bytes follow; `at` is the first such byte.
    Overlong { at: u64 },
    /// Out of memory.
    Memory,
}

impl From<AllocError> for UnpackFault {
    ghost from_gives = { λ _ e. e ≡ OutOfMemory };

    fn from(_e: AllocError) -> UnpackFault {
        UnpackFault::Memory
    }
}

impl<T: Drop> From<AllocFailed<T>> for UnpackFault {
    ghost from_gives = { λ _ e. e ≡ OutOfMemory };

    fn from(_e: AllocFailed<T>) -> UnpackFault {
        UnpackFault::Memory
    }
}
