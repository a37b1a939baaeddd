//! The text of the output: replies, the headings of sessions, and the order of the commands. Depends on tsdb_base
//! and tsdb_model.
#![tactic(auto)]

mod append;
mod digits;
mod laws;
mod listing;
mod order;
mod reply;
mod sum;

pub use laws::replies_that_print_alike;
pub use order::{print_order, print_session};
pub use reply::print_reply;
