//! Queries, from a core and a port of its files. Depends on tsdb_base, tsdb_path, tsdb_model, tsdb_outside, tsdb_frames,
//! tsdb_state, tsdb_memory, tsdb_pin, tsdb_pins and tsdb_serving.
//!
//! A query takes a pin of the core, reads what the pin has through the port, and gives the pin back, whatever came of
//! the reading. Taking it and giving it back are turns; reading needs no core.
#![tactic(auto)]

mod pinning;
mod query;
mod reading;

pub use pinning::{pin, unpin};
pub use query::select;
pub use reading::read_pin;
pub use tsdb_pins::{Stream, open_column, pull};
pub use tsdb_serving::{Core, Options, create, delete, flush, insert, show};
