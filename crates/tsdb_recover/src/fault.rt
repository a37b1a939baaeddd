//! Why a store cannot be opened. Depends on tsdb_base.
use tsdb_base::{FileNumber, Memory};

/// A part of a store.
#[derive(Clone, Copy, Debug, PartialEq, Eq)]
pub enum Part {
    /// The log.
    Log,
    /// A stored file.
    File(FileNumber),
}

/// Why a store was not opened.
#[derive(Clone, Copy, Debug, PartialEq, Eq)]
pub enum OpenFault {
    /// The journal or the files failed, and a count of faults has risen.
    Failed,
    /// The part is damaged at this place, counted in bytes from its beginning. The place in a log is that of the gate
    /// of the first record that is torn, cannot be read, or has no replay.
    Damaged { part: Part, at: u64 },
    /// Out of memory.
    Memory,
}

/// A journal whose store was not opened, and why.
#[derive(Drop)]
pub struct OpenRefused<J> {
    pub journal: J,
    pub fault: OpenFault,
}

impl From<Memory> for OpenFault {
    ghost use Rattle.std.specs.Prelude.{◌≡◌};
    ghost use Rattle.tsdb_recover.specs.declared.fault.OpenFault.TheVariants as fault;

    ghost from_gives = { λ _ e. e ≡ fault.Memory };

    fn from(_: Memory) -> Self {
        OpenFault::Memory
    }
}
