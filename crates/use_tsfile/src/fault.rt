//! Why the points did not come back. Depends on the faults of tsdb_outside, tsfile_writer and tsfile_reader.

use tsdb_outside::StoreFault;
use tsfile_reader::ReadFault;
use tsfile_writer::BuildFault;

/// Why the points did not come back.
#[derive(Clone, Copy, Debug)]
pub enum Fault {
    /// They are not those of a series: there are none, or they are not INT64 in order of time.
    Points,
    Build(BuildFault),
    Store(StoreFault),
    Read(ReadFault),
}

impl From<BuildFault> for Fault {
    fn from(fault: BuildFault) -> Fault {
        Fault::Build(fault)
    }
}

impl From<StoreFault> for Fault {
    fn from(fault: StoreFault) -> Fault {
        Fault::Store(fault)
    }
}

impl From<ReadFault> for Fault {
    fn from(fault: ReadFault) -> Fault {
        Fault::Read(fault)
    }
}
