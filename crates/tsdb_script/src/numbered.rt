//! A command with the number of its session. Depends on tsdb_model.
use tsdb_model::Command;

/// A command of a session.
#[derive(Drop)]
pub struct Numbered {
    /// 1 to 999.
    pub session: u16,
    pub command: Command,
}
