//! What is out of a core. Depends on tsdb_core.

use tsdb_core::{FlushJob, Job, Pin};
use tsdb_outside::Files;

/// A loan: a flush, a compaction or a pin that is out of a core, until it is given back.
pub enum Loan<F: Files> {
    Flush(FlushJob),
    Compaction(Job<F>),
    Pin(Pin<F>),
}
