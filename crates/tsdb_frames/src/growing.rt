//! How a long slot grows ahead of its records, so that a new length is not made durable with each of them: by at most a
//! quarter of what it has, so that a small log does not take a small disk.
ghost use Rattle.std.specs.Prelude.{◌≡◌, ◌+◌, ◌-◌, ◌*◌, ◌^◌, ◌<◌, ◌≤◌, ◌↔◌, IsTrue, length, min};

use tsdb_base::limits::END_OF_SLOT;

// The bytes from which on a slot is long.
const LONG_SLOT: u64 = 65_536;

// The longest piece of zeros.
static ZEROS: [u8; 65_536] = [0; 65_536];

// A slot grows by at most this many pieces at once.
const MOST_PIECES: u64 = 16;

// The most bytes that a slot may have.
const MAX_SLOT: u64 = END_OF_SLOT - 1;

// Whether a slot with this end is long, and a frame of this many bytes behind the gate would pass its end.
pub(crate) fn passes_end(end: u64, gate: u64, bytes: u64) -> bool
    requires { gate < end }
    ensures { IsTrue result ↔ ((65536 ≤ end) × (end < gate + 1 + bytes)) }
{
    end >= LONG_SLOT && bytes >= end - gate
}

/// The pieces by which a long slot with this end grows.
#[derive(Clone, Copy)]
pub(crate) struct Block {
    // How many.
    pub(crate) pieces: u64,
    // How many bytes each has.
    pub(crate) bytes: u64,
}

// A quarter of what a slot with this end has, or a little less, and at most 1,048,576 bytes.
pub(crate) fn block_of(end: u64) -> Block
    requires { 65536 ≤ end }
    ensures quarter { result.pieces * result.bytes * 4 ≤ end }
    ensures most { (result.pieces ≤ 16) × (result.bytes ≤ 65536) }
{
    let bytes = (end / 4).min(ZEROS.len() as u64);
    if bytes < ZEROS.len() as u64 {
        return Block { pieces: 1, bytes };
    }
    let pieces = (end / 262_144).min(MOST_PIECES);
    Block { pieces, bytes }
}

// A piece of at most so many zeros, or what of it may stand behind this end of a slot.
pub(crate) fn zeros_behind(end: u64, bytes: u64) -> &'static [u8]
    ensures { length result.now ≡ min (min bytes 65536) (2 ^ 63 - 1 - end) }
{
    let left = MAX_SLOT.saturating_sub(end);
    let size = left.min(bytes.min(ZEROS.len() as u64)) as usize;
    &ZEROS[..size]
}
