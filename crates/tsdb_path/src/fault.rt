//! Why bytes are no path or name. It depends on tsdb_base.
use std::alloc::AllocError;
use std::error::Error;
use std::fmt;
use tsdb_base::Memory;

/// Why bytes are no path or no name: the first reason that holds, in this order but that a length of more than
/// 255 bytes comes before `NotRoot`. `at` is an index into the bytes, from 0.
#[derive(Clone, Copy, Debug, PartialEq, Eq)]
pub enum PathFault {
    /// There are no bytes.
    Empty,
    /// The first node isn't `root`.
    NotRoot,
    /// The part that begins at `at` is no node; the parts before it are nodes.
    BadNode { at: u64 },
    /// There are more than 255 bytes, found at 255, or a 17th node begins at `at`.
    TooLong { at: u64 },
    /// The bytes are good, and there is no memory left for them.
    Memory,
}

impl From<AllocError> for PathFault {
    ghost use Rattle.std.specs.Prelude.{◌≡◌};
    ghost use Rattle.tsdb_path.specs.declared.fault.PathFault.TheVariants.{Memory};

    ghost from_gives = { λ _ fault. fault ≡ Memory };

    fn from(_error: AllocError) -> PathFault {
        PathFault::Memory
    }
}

impl From<Memory> for PathFault {
    ghost use Rattle.std.specs.Prelude.{◌≡◌};
    ghost use Rattle.tsdb_path.specs.declared.fault.PathFault.TheVariants.{Memory};

    ghost from_gives = { λ _ fault. fault ≡ Memory };

    fn from(_memory: Memory) -> PathFault {
        PathFault::Memory
    }
}

impl fmt::Display for PathFault {
    fn fmt<W: fmt::Write>(&self, f: &mut fmt::Formatter<W>) -> fmt::Result {
        match self {
            PathFault::Empty => f.write_str("there are no bytes"),
            PathFault::NotRoot => f.write_str("the first node is not `root`"),
            PathFault::BadNode { at } => write!(f, "there is no node at {at}"),
            PathFault::TooLong { at } => write!(f, "the path is too long at {at}"),
            PathFault::Memory => f.write_str("memory"),
        }
    }
}

impl Error for PathFault {}
