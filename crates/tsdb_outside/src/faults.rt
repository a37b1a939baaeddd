//! How a call to the outside fails, and how its faults are counted. Depends on `tsdb_base` for `Memory`.
ghost use Rattle.std.specs.Prelude.{◌≡◌, ℕ, Some, codes};
ghost use Rattle.tsdb_outside.specs.declared.faults.StoreFault.TheVariants.{Failed, Memory};

use std::alloc::{AllocError, AllocFailed};
use std::error::Error;
use std::fmt;
use tsdb_base::Memory;

/// Something outside failed in this call, and its count of faults has risen.
#[derive(Clone, Copy, Debug, PartialEq, Eq)]
pub struct Failed;

impl fmt::Display for Failed {
    ghost output = { λ _. Some (codes "failed") };

    fn fmt<W: fmt::Write>(&self, f: &mut fmt::Formatter<W>) -> fmt::Result {
        write!(f, "failed")
    }
}

impl Error for Failed {}

/// Why a call that may also run out of memory failed.
#[derive(Clone, Copy, Debug, PartialEq, Eq)]
pub enum StoreFault {
    /// Something outside failed in this call, and its count of faults has risen.
    Failed,
    /// Out of memory.
    Memory,
}

impl fmt::Display for StoreFault {
    ghost use Rattle.tsdb_outside.specs.Texts.{fault_text};

    ghost output = { λ fault. Some (fault_text fault) };

    fn fmt<W: fmt::Write>(&self, f: &mut fmt::Formatter<W>) -> fmt::Result {
        match self {
            StoreFault::Failed => write!(f, "failed"),
            StoreFault::Memory => write!(f, "memory"),
        }
    }
}

impl Error for StoreFault {}

impl From<Failed> for StoreFault {
    ghost from_gives = { λ _ e. e ≡ Failed };

    fn from(_: crate::Failed) -> Self {
        StoreFault::Failed
    }
}

impl From<Memory> for StoreFault {
    ghost use Rattle.tsdb_outside.specs.declared.faults.StoreFault.TheVariants as fault;

    ghost from_gives = { λ _ e. e ≡ fault.Memory };

    fn from(_: Memory) -> Self {
        StoreFault::Memory
    }
}

impl From<AllocError> for StoreFault {
    ghost from_gives = { λ _ e. e ≡ Memory };

    fn from(_: AllocError) -> Self {
        StoreFault::Memory
    }
}

impl<T: Drop> From<AllocFailed<T>> for StoreFault {
    ghost from_gives = { λ _ e. e ≡ Memory };

    fn from(_: AllocFailed<T>) -> Self {
        StoreFault::Memory
    }
}

/// An object outside that counts its faults. The count never falls, and one that comes to 2^64 - 1 stays there.
pub trait Counted {
    /// How often it has failed.
    ghost faults: { Self → ℕ };
}

/// A kind of object that never fails: its count is always 0.
pub trait Steady: Counted {
    ghost never_fails: { (object : Self) → Self.faults object ≡ 0 };
}
