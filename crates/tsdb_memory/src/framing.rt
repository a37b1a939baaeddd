//! The frame of a record. Depends on tsdb_log and tsdb_frames.
ghost use Rattle.std.specs.Prelude.{◌≡◌, ◌<◌, ◌≤◌, length, OnErr, OnOk};
ghost use Rattle.std.specs.Vec.{vec_capacity};
ghost use Rattle.tsdb_frames.specs.Log.{IsFrame, payload_of};
ghost use Rattle.tsdb_frames.specs.Slots.{frame_bytes};
ghost use Rattle.tsdb_log.specs.Spelling.{FitsFrame, HasFewParts, IsRecord, spelling};

use tsdb_base::Memory;
use tsdb_frames::close_frame;
use tsdb_log::{LogRecord, append_record};

/// Makes these bytes what is appended of a record: its length, its bytes and a closed gate. What they were before is
/// gone. Where their room is enough, it takes no memory.
///
/// The record is written behind the room for its length, and not copied.
pub fn frame_record(item: &LogRecord, framed: &mut Vec<u8>) -> Result<(), Memory>
    requires few { HasFewParts item.now }
    requires fits { FitsFrame item.now }
    ensures record { OnOk result (IsRecord item.now) }
    ensures bytes { OnOk result (framed.new.items ≡ frame_bytes (spelling item.now)) }
    ensures frame { OnOk result (IsFrame framed.new.items) }
    ensures payload { OnOk result (payload_of framed.new.items ≡ spelling item.now) }
    ensures room { OnErr result (vec_capacity framed.old < length (frame_bytes (spelling item.now))) }
    ensures capacity { vec_capacity framed.old ≤ vec_capacity framed.new }
{
    framed.clear();
    framed.extend_from_slice(&[0; 4])?;
    append_record(item, framed)?;
    close_frame(framed)
}
