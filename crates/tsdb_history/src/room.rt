//! The memory of a history. Depends on `told`.
ghost use Rattle.std.specs.Prelude.{◌≡◌, ℕ, IfOk, length, slice_index};
ghost use Rattle.tsdb_history.specs.Rooms.{IsRoomFor};

use crate::told::Told;
use std::alloc::Global;
use tsdb_base::Memory;
use tsdb_base::limits::SESSION_NUMBERS;

/// Every number of a session is below this.
const SESSIONS: usize = SESSION_NUMBERS;

/// The memory that the execution of a script takes for its history, so that no reply is lost once a command is executed:
/// how many commands each session has had, and places for the replies.
#[derive(Drop)]
pub struct ReplyRoom {
    pub counts: Vec<u32>,
    pub history: Vec<Told>,
}

impl ReplyRoom {
    /// Room for the replies to so many commands.
    pub fn new(alloc: Global, commands: usize) -> Result<ReplyRoom, Memory>
        ensures { IfOk result (IsRoomFor commands) }
    {
        let counts = zeros(alloc, SESSIONS)?;
        let history = Vec::with_capacity(alloc, commands)?;
        Ok(ReplyRoom { counts, history })
    }
}

/// So many zeros.
fn zeros(alloc: Global, count: usize) -> Result<Vec<u32>, Memory>
    ensures count { IfOk result (λ zeros. length zeros.items ≡ count) }
    ensures zero { IfOk result (λ zeros. (at : ℕ) → slice_index zeros.items at ≡ 0) }
{
    Ok(vec![in alloc; 0u32; count]?)
}
