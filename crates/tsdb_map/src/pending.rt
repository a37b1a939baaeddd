//! A change between its two phases. Depends on `reply`.

use tsdb_base::Value;
use tsdb_model::Reply;
use tsdb_path::{Name, Path};

/// What a command comes to before its record is logged.
#[derive(Drop)]
pub enum Prepared {
    /// The command changes nothing, and this is its reply.
    Reply(Reply),
    /// The command is accepted, and answers `Done` once its change is finished.
    Change(Pending),
}

/// The change of an accepted command. All of its memory is taken; it is to be finished or cancelled.
#[derive(Drop)]
pub enum Pending {
    /// The series is in the map.
    Create { device: Path, name: Name },
    /// The values are in the map. These stood at their places before, the last cell's first.
    Insert(Vec<Option<Value>>),
    /// The points are still in the map.
    Delete { device: Path, name: Name },
}
