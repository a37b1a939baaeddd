//! Why a record could not be read. Depends on tsdb_fields.
use std::alloc::{AllocError, AllocFailed};
use std::error::Error;
use std::fmt;
use tsdb_fields::FieldFault;

/// Why a record could not be read.
#[derive(Clone, Copy, Debug, PartialEq, Eq)]
pub enum LogFault {
    /// No record is written so. `at` is the first byte of the first field that is none, or the first byte after the
    /// last field.
    Bad { at: u64 },
    /// Out of memory.
    Memory,
}

impl From<AllocError> for LogFault {
    ghost use Rattle.std.specs.Prelude.{◌≡◌};
    ghost use Rattle.tsdb_log.specs.declared.fault.LogFault.TheVariants.{Memory};

    ghost from_gives = { λ _ fault. fault ≡ Memory };

    fn from(_error: AllocError) -> LogFault {
        LogFault::Memory
    }
}

impl<T: Drop> From<AllocFailed<T>> for LogFault {
    ghost use Rattle.std.specs.Prelude.{◌≡◌};
    ghost use Rattle.tsdb_log.specs.declared.fault.LogFault.TheVariants.{Memory};

    ghost from_gives = { λ _ fault. fault ≡ Memory };

    fn from(_error: AllocFailed<T>) -> LogFault {
        LogFault::Memory
    }
}

impl From<FieldFault> for LogFault {
    ghost use Rattle.std.specs.Prelude.{◌≡◌};
    ghost use Rattle.tsdb_log.specs.Steps.{log_fault};

    ghost from_gives = { λ field fault. fault ≡ log_fault field };

    fn from(fault: FieldFault) -> LogFault {
        match fault {
            FieldFault::Bad { at } => LogFault::Bad { at },
            FieldFault::Memory => LogFault::Memory,
        }
    }
}

impl fmt::Display for LogFault {
    fn fmt<W: fmt::Write>(&self, f: &mut fmt::Formatter<W>) -> fmt::Result {
        match self {
            LogFault::Bad { at } => write!(f, "no record is written so, from byte {at} on"),
            LogFault::Memory => f.write_str("memory"),
        }
    }
}

impl Error for LogFault {}
