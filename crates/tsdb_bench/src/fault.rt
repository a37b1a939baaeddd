//! Why a benchmark stops. It depends on std and on the fault of `tsfile_writer`.

use std::io;
use tsfile_writer::BuildFault;

#[derive(Clone, Copy, Debug)]
pub enum Fault {
    /// No group has the name.
    NoGroup,
    /// What was written was not read back.
    Unread,
    /// A file could not be built.
    Build,
    /// Something failed that is told on standard error.
    Failed,
    /// The words could not be read.
    Io(io::Error),
}

impl From<BuildFault> for Fault {
    fn from(_error: BuildFault) -> Fault {
        Fault::Build
    }
}

impl From<io::Error> for Fault {
    fn from(error: io::Error) -> Fault {
        Fault::Io(error)
    }
}
