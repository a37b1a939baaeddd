//! One record as it is read. Depends on `tsdb_base`.

use tsdb_base::List;

/// A record that a slot has.
#[derive(PartialEq, Eq, Drop)]
pub struct Frame {
    /// The place of its gate in the slot, in bytes.
    pub at: u64,
    /// Its bytes, from 1 to 4,294,967,295 of them.
    pub payload: List<u8>,
}
