//! The plain model: the types of commands and replies, and what a last-write-wins map for each series returns for them.
//! Depends on tsdb_base and tsdb_path.
#![tactic(auto)]

mod asking;
mod command;
mod literal;
mod reply;

pub use asking::ask_aggregates;
pub use command::{Cell, Command, Item, Literal, Row, Schema};
pub use literal::{fits, value_of};
pub use reply::{FileLine, Line, Listing, Reply};
pub use tsdb_path::{Name, Path};
