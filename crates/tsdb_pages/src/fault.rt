//! Why a page could not be read. Depends on tsdb_base.
ghost use Rattle.std.specs.Prelude.{◌≡◌};

use std::alloc::{AllocError, AllocFailed};
use std::error::Error;
use std::fmt;
use tsdb_base::{DecodeFault, Memory};

/// Why a page could not be read.
#[derive(Clone, Copy, Debug, PartialEq, Eq)]
pub enum PageFault {
    /// No page of points of the type has this body.
    Bad,
    /// Out of memory.
    Memory,
}

impl From<DecodeFault> for PageFault {
    ghost use Rattle.std.specs.Prelude.{◌≡◌};
    ghost use Rattle.tsdb_pages.specs.Reading.{as_page_fault};

    ghost from_gives = { λ fault e. e ≡ as_page_fault fault };

    fn from(fault: DecodeFault) -> PageFault {
        match fault {
            DecodeFault::Bad => PageFault::Bad,
            DecodeFault::Memory => PageFault::Memory,
        }
    }
}

impl From<Memory> for PageFault {
    ghost use Rattle.std.specs.Prelude.{◌≡◌};
    ghost use Rattle.tsdb_pages.specs.declared.fault.PageFault.TheVariants as fault;

    ghost from_gives = { λ _ e. e ≡ fault.Memory };

    fn from(_error: Memory) -> PageFault {
        PageFault::Memory
    }
}

impl fmt::Display for PageFault {
    fn fmt<W: fmt::Write>(&self, f: &mut fmt::Formatter<W>) -> fmt::Result {
        match self {
            PageFault::Bad => f.write_str("no page has this body"),
            PageFault::Memory => f.write_str("memory"),
        }
    }
}

impl Error for PageFault {}
