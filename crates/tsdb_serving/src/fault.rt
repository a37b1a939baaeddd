//! Why a flush ended before its end. Depends on nothing here.
ghost use Rattle.std.specs.Prelude.{◌≡◌};
ghost use Rattle.tsdb_serving.specs.Faults.{flush_answer, of_core_fault, of_file_fault};

use tsdb_base::{Answer, Memory};
use tsdb_core::CoreFault;
use tsdb_outside::StoreFault;

/// Why a flush ended before its end: the log or a file could not be written, memory ended, or the numbers for files did.
/// `counter` is the next number.
#[derive(Clone, Copy, Debug, PartialEq, Eq)]
pub enum FlushFault {
    Device,
    Memory,
    Full { counter: u64 },
}

impl FlushFault {
    /// The answer to the command that the flush was for.
    pub fn answer(self) -> Answer
        ensures { result ≡ flush_answer self }
    {
        match self {
            FlushFault::Device => Answer::Device,
            FlushFault::Memory => Answer::Memory,
            FlushFault::Full { counter } => Answer::Full { counter },
        }
    }

    /// The fault of a file that could not be written.
    pub fn of_file(fault: StoreFault) -> FlushFault
        ensures { result ≡ of_file_fault fault }
    {
        match fault {
            StoreFault::Failed => FlushFault::Device,
            StoreFault::Memory => FlushFault::Memory,
        }
    }

    /// The fault of a job that could not be taken.
    pub fn of_core(fault: CoreFault) -> FlushFault
        ensures { result ≡ of_core_fault fault }
    {
        match fault {
            CoreFault::Memory => FlushFault::Memory,
            CoreFault::Full { counter } => FlushFault::Full { counter },
        }
    }
}
