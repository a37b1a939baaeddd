//! How the calls of a core that deal with jobs end.

/// Why a job could not be taken: for want of memory, or of numbers for files. `counter` is the next number.
#[derive(Clone, Copy, Debug, PartialEq, Eq)]
pub enum CoreFault {
    Memory,
    Full { counter: u64 },
}

/// How a flush ended: its files are listed; its pair was frozen no longer; or the log could not be written.
#[derive(Clone, Copy, Debug, PartialEq, Eq)]
pub enum Commit {
    Done,
    Gone,
    Device,
}
