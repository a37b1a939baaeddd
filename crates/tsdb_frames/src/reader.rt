//! A log that is read frame by frame. Depends on `record`, `reading` and `fault`.
ghost use Rattle.std.specs.Prelude.{◌≡◌, ◌≢◌, ◌+◌, ◌*◌, ◌≤◌, ◌<◌, ℕ, true, false, length, [], drop, None, IfOk, IfErr};
ghost use Rattle.std.specs.Prelude.{IfSome, IsErrOf, OnErr, OnOk};
ghost use Rattle.tsdb_frames.specs.Causes.{HasScanCause};
ghost use Rattle.tsdb_frames.specs.Firsts.{HasFirst};
ghost use Rattle.tsdb_frames.specs.Pieces.{HasPiece};
ghost use Rattle.tsdb_frames.specs.Steps.{BeginsAs};

use crate::reading::{PIECE_BYTES, Start, read_piece, start_of};
use crate::{Frame, ScanFault};
use std::alloc::Global;
use tsdb_outside::{Journal, Slot};

// The bytes of a gate and of the length behind it.
const LENGTH_END: usize = 5;

// The bytes of the first frame of a log with its gate at this place, once a frame of so many bytes is added.
pub(crate) fn first_after(first: u64, gate: u64, bytes: u64) -> u64
    ensures first { gate ≡ 0 → result ≡ bytes }
    ensures later { gate ≢ 0 → result ≡ first }
{
    if gate == 0 { bytes } else { first }
}

/// What stands behind the frames that were read, as far as the piece tells.
#[derive(Drop)]
pub enum Next {
    /// The next gate is closed.
    End,
    /// The next frame.
    Whole(Frame),
    /// An open gate, and no whole frame.
    Part,
}

/// A slot of a journal whose frames are read one after another. It holds one piece of the slot, and no frame that it
/// has handed out.
#[derive(Drop)]
pub struct FrameReader<J: Journal> {
    pub(crate) journal: J,
    pub(crate) slot: Slot,
    // The place of the next gate.
    pub(crate) at: u64,
    // The bytes of the first frame, or 0.
    pub(crate) first: u64,
    // The slot has this many bytes at least.
    pub(crate) end: u64,
    // Bytes of the slot, of which so many stand before the next gate.
    pub(crate) piece: Vec<u8>,
    pub(crate) read: usize,
    ghost read_within: { read ≤ length piece.items },
    ghost within: { HasPiece (J.state journal) slot at end (drop read piece.items) },
}

impl<J: Journal> FrameReader<J> {
    ghost use Rattle.tsdb_frames.specs.Readers.{EndsReading, HasAllLeft, HasNextGate, IsReading, IsTornReading};
    ghost use Rattle.tsdb_frames.specs.Readers.{IsTornSlot};
    ghost use Rattle.tsdb_frames.specs.Readers.{KeepsJournal, ReadsAll, ReadsOne, StaysAt, StaysReading, faults_read};
    ghost use Rattle.tsdb_frames.specs.Readers.{IsNext, IsTornPart, begun_of, gate_of, left_of, read_journal};
    ghost use Rattle.tsdb_frames.specs.Readers.{unheld_of, unread_of};

    /// No frame is read yet. It reads nothing.
    pub fn new(alloc: Global, journal: J, slot: Slot) -> FrameReader<J>
        ensures { IsReading journal slot result [] }
    {
        FrameReader {
            journal,
            slot,
            at: 0,
            first: 0,
            end: 0,
            piece: Vec::new(alloc),
            read: 0,
        }
    }

    /// Reads the next frame. None where its gate is closed. It costs what the frame has, and a part of a piece.
    pub fn read_frame(&mut self, alloc: Global) -> Result<Option<Frame>, ScanFault>
        ensures frame { IfOk result (λ next. IfSome next (ReadsOne self.old self.new)) }
        ensures forward { IfOk result (λ next. IfSome next (λ frame. unread_of self.new < unread_of self.old)) }
        ensures whole { IfOk result (λ next. next ≡ None → EndsReading self.old self.new) }
        ensures ended { IfOk result (λ next. next ≡ None → HasNextGate self.new) }
        ensures torn { (at : ℕ) → IsErrOf result (ScanFault.Torn at) → IsTornReading self.old at }
        ensures stays { OnErr result (StaysReading self.old self.new) }
        ensures cause { HasScanCause (faults_read self.old) (faults_read self.new) result }
    {
        loop {
            match self.next(alloc)? {
                Next::End => return Ok(None),
                Next::Whole(frame) => return Ok(Some(frame)),
                Next::Part => {}
            }
            self.read_on(alloc)?;
        }
    }

    /// The next frame, or what stands in its place as far as the piece tells. It reads nothing.
    pub fn next(&mut self, alloc: Global) -> Result<Next, ScanFault>
        ensures next { IfOk result (λ next. IsNext next self.old self.new) }
        ensures same { OnErr result (self.new ≡ self.old) }
        ensures memory { IfErr result (λ fault. fault ≡ ScanFault.Memory) }
        ensures faults { faults_read self.new ≡ faults_read self.old }
    {
        match self.start(alloc)? {
            Start::Shut => Ok(Next::End),
            Start::Whole(frame) => Ok(Next::Whole(self.advance(frame))),
            Start::Broken => Ok(Next::Part),
        }
    }

    /// The place of the next gate.
    pub fn gate(&self) -> u64
        ensures { result ≡ gate_of self.now }
    {
        self.at
    }

    /// The bytes of the piece behind the next gate and a length.
    pub fn part(&self) -> &[u8]
        ensures { result.now ≡ begun_of self.now }
    {
        let left = &self.piece[self.read..];
        if left.len() < LENGTH_END {
            return &[];
        }
        &left[LENGTH_END..]
    }

    /// Reads a piece from the next gate on, which is longer than what is left, and at most twice as long or of the
    /// usual length. Torn where the slot has no more bytes.
    pub fn read_on(&mut self, alloc: Global) -> Result<(), ScanFault>
        ensures forward { OnOk result (unheld_of self.new < unheld_of self.old) }
        ensures short { OnOk result (length (left_of self.new) ≤ 65536 + 2 * length (left_of self.old)) }
        ensures torn { (at : ℕ) → IsErrOf result (ScanFault.Torn at) → IsTornPart self.old
            → IsTornReading self.old at }
        ensures stays { StaysReading self.old self.new }
        ensures gate { gate_of self.new ≡ gate_of self.old }
        ensures cause { HasScanCause (faults_read self.old) (faults_read self.new) result }
    {
        if !self.fill(alloc)? {
            return Err(ScanFault::Torn { at: self.at });
        }
        Ok(())
    }

    /// Reads all frames of a slot, of which none is read yet.
    pub(crate) fn read_all(&mut self, alloc: Global) -> Result<Vec<Frame>, ScanFault>
        ensures whole { IfOk result (λ frames. ReadsAll self.old self.new frames.items) }
        ensures ended { IfOk result (λ frames. HasNextGate self.new) }
        ensures torn { (at : ℕ) → IsErrOf result (ScanFault.Torn at) → IsTornSlot self.old at }
        ensures keeps { OnErr result (KeepsJournal self.old self.new) }
        ensures cause { HasScanCause (faults_read self.old) (faults_read self.new) result }
    {
        let mut frames = Vec::new(alloc);
        while let Some(frame) = self.read_frame(alloc)? {
            frames.push(frame)?;
        }
        Ok(frames)
    }

    /// Gives the journal back.
    pub fn end(self) -> J
        ensures { result ≡ read_journal self }
    {
        self.journal
    }

    // How the bytes that are left begin.
    fn start(&self, alloc: Global) -> Result<Start, ScanFault>
        ensures begins { IfOk result (λ start. BeginsAs start (left_of self.now)) }
        ensures memory { IfErr result (λ fault. fault ≡ ScanFault.Memory) }
    {
        let left = &self.piece[self.read..];
        if left.is_empty() {
            return Ok(Start::Broken);
        }
        start_of(alloc, left)
    }

    // Goes on behind the frame with which the bytes that are left begin.
    fn advance(&mut self, frame: Frame) -> Frame
        requires { HasFirst frame (left_of self.old) }
        ensures frame { ReadsOne self.old self.new result }
        ensures forward { unread_of self.new < unread_of self.old }
        ensures faults { faults_read self.new ≡ faults_read self.old }
    {
        let bytes = frame.payload.items().len() as u64 + 5;
        let at = self.at;
        self.first = first_after(self.first, at, bytes);
        self.at = at + bytes;
        self.read += bytes as usize;
        Frame {
            at,
            payload: frame.payload,
        }
    }

    // Reads a longer piece from the next gate on. It is false where the slot has no more bytes than are left.
    fn fill(&mut self, alloc: Global) -> Result<bool, ScanFault>
        ensures stays { StaysAt self.old self.new }
        ensures longer { IfOk result (λ more. more ≡ true → length (left_of self.old) < length (left_of self.new)) }
        ensures short { IfOk result (λ more. more ≡ true
            → length (left_of self.new) ≤ 65536 + 2 * length (left_of self.old)) }
        ensures all { IfOk result (λ more. more ≡ false → HasAllLeft self.old) }
        ensures not_torn { (at : ℕ) → ¬ IsErrOf result (ScanFault.Torn at) }
        ensures cause { HasScanCause (faults_read self.old) (faults_read self.new) result }
    {
        let end = self.journal.length(self.slot)?;
        let left = (self.piece.len() - self.read) as u64;
        if end <= self.at + left {
            return Ok(false);
        }
        let size = (left * 2).max(PIECE_BYTES).min(end - self.at);
        self.piece = read_piece(alloc, &mut self.journal, self.slot, self.at, size)?;
        self.read = 0;
        self.end = end;
        Ok(true)
    }
}
