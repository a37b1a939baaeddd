//! The gated log: records in a slot of a journal, each behind a gate that is opened by a write of its own. A stop at
//! any moment of a call leaves the records from before the call, or these and one more. Depends on `tsdb_outside` and
//! `tsdb_base`.
//!
//! ```text
//! slot   = open{0..} gate any{0..}     this gate is closed: any byte but 01
//! open   = 01 length:u32 payload       an open gate and its record; the length is from 1 to 4,294,967,295
//! frame  = length:u32 payload 00       what is written behind a closed gate: a record and the next gate
//! ```
//!
//! With g the place of the closed gate, a record is added in four steps: the frame is written at g + 1; the slot is
//! synced; 01 is written at g; the slot is synced. A fault in the first two steps leaves nothing in doubt, since the
//! gate at g is closed in whatever a stop leaves. A fault in the last two leaves this gate in doubt: a stop may leave
//! it open or closed. Before anything else is written, 00 is written at g and synced, since nothing may be torn behind
//! a gate that a stop may leave open.
//!
//! A slot of 65,536 bytes or more grows ahead: where a frame would pass its end, zeros are first written behind the end:
//! a quarter of what the slot has, at most 1,048,576, or as many as the limit of a slot leaves. They say nothing, as all
//! that stands behind a closed gate. Where they cannot be written the record is added all the same, and this log does
//! not grow ahead any more.
//!
//! A log turns over to the other slot with one record: byte 0 there is made closed and synced, where it may be open; the
//! frame is written at 1; the slot is synced; 01 is written at 0; the slot is synced. Until the last step the log is in
//! its slot as before, and a fault in the last two steps leaves byte 0 of the other slot in doubt.
#![tactic(auto)]

mod aside;
mod fault;
mod frames;
mod framing;
mod growing;
mod reader;
mod reading;
mod record;
mod writing;

pub use fault::ScanFault;
pub use frames::{Frames, ScanRefused};
pub use framing::{close_frame, frame};
pub use reader::{FrameReader, Next};
pub use record::Frame;
