//! A lock that serves its users in the order of their tickets, over one value that keeps a list of entries. It
//! depends on `atomic_table` alone.
//!
//! [`Turn::new`] takes a value and a number of seats, and gives one [`Pass`] for each seat. [`Turn::enter`] draws a
//! ticket, waits until that ticket is served and takes the value; [`Turn::leave`] gives the value back and serves the
//! next ticket. [`Turn::close`] takes all passes and gives the value for good.
//!
//! A pass remembers the value as it last left it. When it enters again, the value follows that one: the list that it
//! saw is a prefix of the value's list, no entry behind it has the number of this pass, the account of that number is
//! the same and the reach is no lower (`specs/Values.antt`).
#![tactic(auto)]

mod bell;
mod laws;
mod logged;
mod pass;
mod turn;
mod view;
mod wait;

pub use laws::{Relation, a_turn_is_shared, kept_by_turns};
pub use logged::Logged;
pub use pass::Pass;
pub use turn::{Refused, Turn};
