//! Why a record was not replayed. Depends on tsdb_base.
use tsdb_base::Memory;

/// Why a record was not replayed.
#[derive(Clone, Copy, Debug, PartialEq, Eq)]
pub enum RedoFault {
    /// The record has no replay here.
    NoReplay,
    /// Out of memory.
    Memory,
}

impl From<Memory> for RedoFault {
    ghost use Rattle.std.specs.Prelude.{◌≡◌};
    ghost use Rattle.tsdb_redo.specs.declared.fault.RedoFault.TheVariants as fault;

    ghost from_gives = { λ _ e. e ≡ fault.Memory };

    fn from(_: Memory) -> Self {
        RedoFault::Memory
    }
}
