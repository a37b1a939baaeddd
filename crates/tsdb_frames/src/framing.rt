//! One record as it is written. Depends on `tsdb_base`.
ghost use Rattle.std.specs.Prelude.{◌≡◌, ◌+◌, ◌<◌, ◌≤◌, ◌++◌, length, drop, IfOk, OnErr, OnOk};
ghost use Rattle.std.specs.Vec.{vec_capacity};
ghost use Rattle.tsdb_base.specs.Fields.{number32};
ghost use Rattle.tsdb_frames.specs.Log.{IsFrame, payload_of};
ghost use Rattle.tsdb_frames.specs.Slots.{IsPayload, frame_bytes};

use std::alloc::Global;
use tsdb_base::Memory;

/// How many bytes the length of a record has.
const LENGTH_BYTES: usize = 4;

/// Writes a length over the first four bytes.
fn set_length(number: u32, framed: &mut [u8])
    requires { 4 ≤ length framed.old }
    ensures { framed.new ≡ number32 number ++ drop 4 framed.old }
{
    framed[..LENGTH_BYTES].copy_from_slice(&number.to_be_bytes());
}

/// Makes what `append` writes of a record of 1 to 4,294,967,295 bytes, which stands behind four bytes of room: its length
/// goes into these, and a closed gate behind it. Where there is room for one byte more, it takes no memory.
pub fn close_frame(framed: &mut Vec<u8>) -> Result<(), Memory>
    requires { IsPayload (drop 4 framed.old.items) }
    ensures bytes { OnOk result (framed.new.items ≡ frame_bytes (drop 4 framed.old.items)) }
    ensures frame { OnOk result (IsFrame framed.new.items) }
    ensures payload { OnOk result (payload_of framed.new.items ≡ drop 4 framed.old.items) }
    ensures room { OnErr result (vec_capacity framed.old < length framed.old.items + 1) }
    ensures capacity { vec_capacity framed.old ≤ vec_capacity framed.new }
{
    let length = framed.len() - LENGTH_BYTES;
    set_length(length as u32, framed);
    framed.push(0)?;
    Ok(())
}

/// What `append` writes of a record of 1 to 4,294,967,295 bytes: its length, its bytes and a closed gate.
pub fn frame(alloc: Global, payload: &[u8]) -> Result<Vec<u8>, Memory>
    requires { IsPayload payload.now }
    ensures bytes { IfOk result (λ framed. framed.items ≡ frame_bytes payload.now) }
    ensures frame { IfOk result (λ framed. IsFrame framed.items) }
    ensures payload { IfOk result (λ framed. payload_of framed.items ≡ payload.now) }
{
    let mut framed = Vec::with_capacity(alloc, payload.len() + 5)?;
    framed.extend_from_slice(&[0; LENGTH_BYTES])?;
    framed.extend_from_slice(payload)?;
    close_frame(&mut framed)?;
    Ok(framed)
}
