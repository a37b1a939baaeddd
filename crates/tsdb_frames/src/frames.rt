//! The log in a slot of a journal: it is read once, grows record by record, and turns over to the other slot. Depends on
//! `record`, `reading`, `reader`, `growing`, `writing` and `aside`.
ghost use Rattle.std.specs.Prelude.{◌≡◌, ◌⊎◌, ℕ, ◌+◌, ◌≤◌, List, [], ◌∷◌, ◌++◌, true, false, length, None, Some, IsOk, IfOk};
ghost use Rattle.std.specs.Prelude.{IfErr, IfSome, IsErrAnd, IsErrOf, IsSome, OnErr, OnOk};
ghost use Rattle.std.specs.declared.option.Option.{Option};
ghost use Rattle.std.specs.Option.{ForSome};
ghost use Rattle.tsdb_base.specs.Causes.{Rose};
ghost use Rattle.tsdb_outside.specs.Causes.{HasCause};
ghost use Rattle.tsdb_outside.specs.Disk.{in_slot, Keeps};
ghost use Rattle.tsdb_outside.specs.Limits.{FitsSlot};
ghost use Rattle.tsdb_frames.specs.Asides.{IsCounted};
ghost use Rattle.tsdb_frames.specs.Causes.{AnswersTorn, HasScanCause};
ghost use Rattle.tsdb_frames.specs.Log.{HasGateAt, first_bytes};
ghost use Rattle.tsdb_frames.specs.declared.aside.Aside.TheVariants as aside;
ghost use Rattle.tsdb_outside.specs.declared.disk.Slot.{Slot};

use crate::aside::{Aside, is_closed, other_slot};
use crate::growing::{Block, block_of, passes_end, zeros_behind};
use crate::reader::{FrameReader, first_after};
use crate::reading::read_first_record;
use crate::writing::{Unopened, write_and_sync, write_record};
use crate::{Frame, ScanFault};
use std::alloc::Global;
use tsdb_outside::{Failed, Journal, Slot};

/// The log in a slot of a journal.
#[derive(Drop)]
pub struct Frames<J: Journal> {
    journal: J,
    slot: Slot,
    // The place of the closed gate behind the records, or of the gate in doubt.
    gate: u64,
    doubt: bool,
    // The bytes of the first frame, or 0.
    first: u64,
    aside: Aside,
    // The slot has this many bytes at least.
    end: u64,
    // No growing ahead has failed.
    grows: bool,
    ghost within: { HasGateAt (J.state journal) slot gate end },
    // A gate is in doubt only where the journal has failed.
    ghost counted: { IsCounted doubt aside (J.faults journal) },
}

/// A journal whose slot could not be read, and why.
#[derive(Drop)]
pub struct ScanRefused<J> {
    pub journal: J,
    pub fault: ScanFault,
}

impl<J: Journal> Frames<J> {
    ghost use Rattle.tsdb_frames.specs.Asides.{HasRecordsOrNone, IsAsideOn};
    ghost use Rattle.tsdb_frames.specs.Calls.{KeepsLog, KeepsAside, KeepsToSlot, IsAsideClosed, Lengthens, SettlesAside};
    ghost use Rattle.tsdb_frames.specs.Firsts.{IsFirst};
    ghost use Rattle.tsdb_frames.specs.Frames.{journal_of, disk_of, faults_of, slot_of, is_in_doubt, IsLog};
    ghost use Rattle.tsdb_frames.specs.Frames.{is_aside_in_doubt, IsAside, settled_aside};
    ghost use Rattle.tsdb_frames.specs.Log.{IsFrame, payload_of, HasRecordsOrOneMore, IsSettled};
    ghost use Rattle.tsdb_outside.specs.Moments.{LeavesOnly, LeavesFirstThen, other};
    ghost use Rattle.tsdb_frames.specs.Readers.{HasNextGate, IsWholeRead};
    ghost use Rattle.tsdb_frames.specs.Scans.{IsScanned, IsScanRefused};
    ghost use Rattle.tsdb_frames.specs.declared.record.Frame.{Frame};
    ghost use Rattle.tsdb_frames.specs.Slots.{open_records, HasRecords, IsTorn};
    ghost use Rattle.tsdb_frames.specs.Steps.{LeavesSlot};
    ghost use Rattle.tsdb_frames.specs.Turns.{LeavesInTurn};

    /// The first record of a slot, None where its first gate is closed. It costs what the record has, and not what the
    /// slot has.
    pub fn first(alloc: Global, journal: &mut J, slot: Slot) -> Result<Option<Frame>, ScanFault>
        ensures first { IfOk result (λ first. IfSome (J.state journal.old).seen
            (λ image. IsFirst first (in_slot slot image))) }
        ensures torn { (at : ℕ) → IsErrOf result (ScanFault.Torn at)
            → (at ≡ 0) × IfSome (J.state journal.old).seen (λ image. IsTorn 0 (in_slot slot image)) }
        ensures keeps { Keeps (J.state journal.old) (J.state journal.new) }
        ensures cause { HasScanCause (J.faults journal.old) (J.faults journal.new) result }
    {
        read_first_record(alloc, journal, slot)
    }

    /// Reads the records of a slot, and takes its journal for a log. It writes nothing. The slot is read in pieces up to
    /// its first closed gate, so that it costs what the log has, and not what the slot has.
    pub fn scan(
        alloc: Global,
        journal: J,
        slot: Slot,
    ) -> Result<(Frames<J>, Vec<Frame>), ScanRefused<J>>
        ensures scanned { IfOk result (λ r. IsScanned journal slot r.0 r.1.items) }
        ensures refused { IfErr result (λ refused. IsScanRefused slot (J.state journal) (J.state refused.journal)
            (J.faults journal) (J.faults refused.journal) refused.fault) }
        ensures each { IfSome (J.state journal).seen (λ image. (at : ℕ) → IsTorn at (in_slot slot image)
            → IsErrAnd result (λ refused. AnswersTorn at refused.fault)) }
    {
        let mut reader = FrameReader::new(alloc, journal, slot);
        match reader.read_all(alloc) {
            Ok(frames) => Ok((Frames::of_reader(reader), frames)),
            Err(fault) => Err(ScanRefused {
                journal: reader.end(),
                fault,
            }),
        }
    }

    /// The log of a slot that was read frame by frame, up to its first closed gate.
    pub fn of_reader(reader: FrameReader<J>) -> Frames<J>
        requires { HasNextGate reader }
        ensures { (journal : J) (place : Slot) (frames : List Frame) → IsWholeRead journal place reader frames
            → IsScanned journal place result frames }
    {
        Frames {
            slot: reader.slot,
            gate: reader.at,
            doubt: false,
            first: reader.first,
            aside: Aside::Settled,
            end: reader.end,
            grows: true,
            journal: reader.journal,
        }
    }

    /// Adds the record of a frame that `frame` made, after a gate in doubt is closed. After `Failed` a gate may be in
    /// doubt: one that was in doubt before, or that of this record. It takes no memory.
    ///
    /// Where the frame would pass the end of a slot of 65,536 bytes or more, zeros are written behind the end first: a
    /// quarter of what the slot has, at most 1,048,576, or as many as the limit of a slot leaves. They say nothing, as
    /// all that stands behind a closed gate. Where they cannot be written the record is added all the same, and no zeros
    /// are written any more.
    pub fn append(&mut self, framed: &[u8]) -> Result<(), Failed>
        requires { IsFrame framed.now }
        ensures added { OnOk result ((acknowledged : List (List ℕ)) (in_doubt : Option (List ℕ))
            → IsLog self.old acknowledged in_doubt
            → IsLog self.new (acknowledged ++ (payload_of framed.now ∷ [])) None) }
        ensures no_doubt { OnOk result (is_in_doubt self.new ≡ false) }
        ensures failed { OnErr result ((acknowledged : List (List ℕ)) (in_doubt : Option (List ℕ))
            → IsLog self.old acknowledged in_doubt
            → IsLog self.new acknowledged None ⊎ (IsLog self.new acknowledged in_doubt
            ⊎ IsLog self.new acknowledged (Some (payload_of framed.now)))) }

        // A stop at any moment leaves the acknowledged records, or these and one more: first the one that was in doubt,
        // and from some moment on this one.
        ensures moments { (acknowledged : List (List ℕ)) (in_doubt : Option (List ℕ))
            → IsLog self.old acknowledged in_doubt
            → LeavesFirstThen (disk_of self.old) (disk_of self.new)
            (λ image. HasRecordsOrOneMore acknowledged in_doubt (in_slot (slot_of self.old) image))
            (λ image. HasRecordsOrOneMore acknowledged (Some (payload_of framed.now))
            (in_slot (slot_of self.old) image)) }

        // It leaves the slot aside alone, but for a gate in doubt there, which it closes.
        ensures aside { SettlesAside self.old self.new result }
        ensures slot { KeepsToSlot self.old self.new }
        ensures cause { HasCause (faults_of self.old) (faults_of self.new) result }
    {
        self.settle()?;
        self.add(framed)
    }

    // Adds a record where no gate is in doubt.
    fn add(&mut self, framed: &[u8]) -> Result<(), Failed>
        requires { IsFrame framed.now }
        ensures added { OnOk result ((acknowledged : List (List ℕ)) → IsLog self.old acknowledged None
            → IsLog self.new (acknowledged ++ (payload_of framed.now ∷ [])) None) }
        ensures no_doubt { OnOk result (is_in_doubt self.old ≡ false → is_in_doubt self.new ≡ false) }
        ensures failed { OnErr result ((acknowledged : List (List ℕ)) → IsLog self.old acknowledged None
            → IsLog self.new acknowledged None ⊎ IsLog self.new acknowledged (Some (payload_of framed.now))) }
        ensures moments { (acknowledged : List (List ℕ)) → IsLog self.old acknowledged None
            → LeavesOnly (disk_of self.old) (disk_of self.new)
            (λ image. HasRecordsOrOneMore acknowledged (Some (payload_of framed.now))
            (in_slot (slot_of self.old) image)) }
        ensures aside { KeepsAside self.old self.new }
        ensures cause { HasCause (faults_of self.old) (faults_of self.new) result }
    {
        self.grow(framed.len() as u64);
        match write_record(&mut self.journal, self.slot, self.gate, framed) {
            Ok(()) => {
                let end = self.gate + 1 + framed.len() as u64;
                self.first = first_after(self.first, self.gate, framed.len() as u64);
                self.end = self.end.max(end);
                self.gate += framed.len() as u64;
                Ok(())
            }
            Err(Unopened::Closed) => Err(Failed),
            Err(Unopened::Doubted) => {
                self.doubt = true;
                Err(Failed)
            }
        }
    }

    // Lengthens a long slot, where a frame of this many bytes would pass its end, until that has failed once.
    fn grow(&mut self, bytes: u64)
        ensures lengthens { Lengthens self.old self.new }
        ensures later { faults_of self.old ≤ faults_of self.new }
    {
        if self.grows && passes_end(self.end, self.gate, bytes) {
            self.grows = self.write_block(block_of(self.end)).is_ok();
        }
    }

    // Writes pieces of zeros behind the end of the slot.
    fn write_block(&mut self, block: Block) -> Result<(), Failed>
        ensures lengthens { Lengthens self.old self.new }
        ensures cause { HasCause (faults_of self.old) (faults_of self.new) result }
    {
        for _ in 0..block.pieces {
            self.write_zeros(block.bytes)?;
        }
        Ok(())
    }

    // Writes a piece of zeros behind the end of the slot.
    fn write_zeros(&mut self, bytes: u64) -> Result<(), Failed>
        ensures lengthens { Lengthens self.old self.new }
        ensures cause { HasCause (faults_of self.old) (faults_of self.new) result }
    {
        let zeros = zeros_behind(self.end, bytes);
        self.journal.write_at(self.slot, self.end, zeros)?;
        self.end += zeros.len() as u64;
        Ok(())
    }

    /// Makes the other slot the log, with the record of a frame that `frame` made alone, after a gate in doubt is closed:
    /// byte 0 of the other slot is made closed; the frame is written behind it, and synced; 01 is written at byte 0, and
    /// synced. After `Failed` the log is in its slot as before. A fault while byte 0 is being opened leaves it in doubt.
    /// It takes no memory.
    pub fn turn_over(&mut self, framed: &[u8]) -> Result<(), Failed>
        requires { IsFrame framed.now }
        ensures turned { OnOk result ((acknowledged : List (List ℕ)) (in_doubt : Option (List ℕ))
            (records : Option (List (List ℕ))) → IsLog self.old acknowledged in_doubt → IsAside self.old records
            → IsLog self.new (payload_of framed.now ∷ []) None) }
        ensures slot { OnOk result (slot_of self.new ≡ other (slot_of self.old)) }
        ensures no_doubt { OnOk result (is_in_doubt self.new ≡ false) }

        // The slot that it was in goes on to have its records.
        ensures aside { OnOk result ((acknowledged : List (List ℕ)) (in_doubt : Option (List ℕ))
            → IsLog self.old acknowledged in_doubt → IsAside self.new (Some acknowledged)) }

        // After a fault the log is as before, or is so and settled. The other slot has the records from before, or none;
        // or none or the new one.
        ensures failed { OnErr result ((acknowledged : List (List ℕ)) (in_doubt : Option (List ℕ))
            → IsLog self.old acknowledged in_doubt
            → IsLog self.new acknowledged None ⊎ IsLog self.new acknowledged in_doubt) }
        ensures same_slot { OnErr result (slot_of self.new ≡ slot_of self.old) }
        ensures aside_failed { OnErr result ((records : Option (List (List ℕ))) → IsAside self.old records
            → IsAside self.new records ⊎ (IsAside self.new (Some [])
            ⊎ ((is_aside_in_doubt self.new ≡ true) × IsAside self.new (Some (payload_of framed.now ∷ []))))) }

        // A stop at any moment leaves in the slot that the log was in the acknowledged records, or these and the one in
        // doubt until its gate is closed.
        ensures moments { (acknowledged : List (List ℕ)) (in_doubt : Option (List ℕ))
            → IsLog self.old acknowledged in_doubt
            → LeavesFirstThen (disk_of self.old) (disk_of self.new)
            (λ image. HasRecordsOrOneMore acknowledged in_doubt (in_slot (slot_of self.old) image))
            (λ image. HasRecords acknowledged (in_slot (slot_of self.old) image)) }

        // It leaves in the other slot the records from before or none, until byte 0 is closed; then none; and from when
        // byte 0 is opened on none or the new one.
        ensures aside_moments { (records : Option (List (List ℕ))) → IsAside self.old records
            → LeavesInTurn (disk_of self.old) (disk_of self.new)
            (λ image. HasRecordsOrNone records (in_slot (other (slot_of self.old)) image))
            (λ image. HasRecords [] (in_slot (other (slot_of self.old)) image))
            (λ image. HasRecordsOrOneMore [] (Some (payload_of framed.now))
            (in_slot (other (slot_of self.old)) image)) }
        ensures cause { HasCause (faults_of self.old) (faults_of self.new) result }
    {
        self.settle()?;
        let length = self.close_aside()?;
        self.begin_aside(framed, length)
    }

    // Makes byte 0 of the slot aside closed, and tells how many bytes the slot has at least. After `Failed` it may be as
    // before or closed.
    fn close_aside(&mut self) -> Result<u64, Failed>
        ensures log { KeepsLog self.old self.new }
        ensures closed { OnOk result ((records : Option (List (List ℕ))) → IsAside self.old records
            → IsAsideClosed self.new) }
        ensures there { IfOk result (λ n. 1 ≤ n) }
        ensures length { IfOk result (λ n. ForSome (disk_of self.new).seen
            (λ image. n ≤ length (in_slot (other (slot_of self.new)) image))) }
        ensures limit { IfOk result FitsSlot }
        ensures failed { OnErr result ((records : Option (List (List ℕ))) → IsAside self.old records
            → IsAside self.new records) }
        ensures moments { (records : Option (List (List ℕ))) → IsAside self.old records
            → LeavesOnly (disk_of self.old) (disk_of self.new)
            (λ image. HasRecordsOrNone records (in_slot (other (slot_of self.old)) image)) }
        ensures cause { HasCause (faults_of self.old) (faults_of self.new) result }
    {
        let (closed, length) = is_closed(&mut self.journal, other_slot(self.slot), self.aside)?;
        if closed {
            self.aside = Aside::Closed;
            return Ok(length);
        }
        self.aside = Aside::Unsettled;
        self.write_closed()?;
        Ok(length.max(1))
    }

    // Writes 00 at byte 0 of the slot aside, and syncs it.
    fn write_closed(&mut self) -> Result<(), Failed>
        ensures log { KeepsLog self.old self.new }
        ensures closed { OnOk result (IsSome (disk_of self.old).seen → IsAsideClosed self.new) }
        ensures state { OnOk result (self.new.aside ≡ aside.Closed) }
        ensures there { OnOk result (ForSome (disk_of self.new).seen
            (λ image. 1 ≤ length (in_slot (other (slot_of self.new)) image))) }
        ensures length { (n : ℕ) → ForSome (disk_of self.old).seen
            (λ image. n ≤ length (in_slot (other (slot_of self.old)) image))
            → ForSome (disk_of self.new).seen (λ image. n ≤ length (in_slot (other (slot_of self.new)) image)) }
        ensures same { OnErr result (self.new.aside ≡ self.old.aside) }
        ensures failed { OnErr result ((records : Option (List (List ℕ)))
            → IsAsideOn (disk_of self.old) (other (slot_of self.old)) aside.Unsettled records
            → IsAsideOn (disk_of self.new) (other (slot_of self.new)) aside.Unsettled records) }
        ensures moments { (records : Option (List (List ℕ)))
            → IsAsideOn (disk_of self.old) (other (slot_of self.old)) aside.Unsettled records
            → LeavesOnly (disk_of self.old) (disk_of self.new)
            (λ image. HasRecordsOrNone records (in_slot (other (slot_of self.old)) image)) }
        ensures cause { HasCause (faults_of self.old) (faults_of self.new) result }
    {
        write_and_sync(&mut self.journal, other_slot(self.slot), 0, &[0])?;
        self.aside = Aside::Closed;
        Ok(())
    }

    // Begins the log anew in the slot aside, whose byte 0 is closed and which has so many bytes at least.
    fn begin_aside(&mut self, framed: &[u8], bytes: u64) -> Result<(), Failed>
        requires frame { IsFrame framed.now }
        requires there { 1 ≤ bytes }
        requires long { ForSome (disk_of self.old).seen
            (λ image. bytes ≤ length (in_slot (other (slot_of self.old)) image)) }
        requires limit { FitsSlot bytes }
        ensures turned { OnOk result (IsAsideClosed self.old → self.old.doubt ≡ false
            → IsLog self.new (payload_of framed.now ∷ []) None) }
        ensures slot { OnOk result (slot_of self.new ≡ other (slot_of self.old)) }
        ensures no_doubt { OnOk result (self.old.doubt ≡ false → is_in_doubt self.new ≡ false) }
        ensures settled { OnOk result (self.new.aside ≡ aside.Settled) }
        ensures leaves { LeavesSlot (slot_of self.old) (disk_of self.old) (disk_of self.new) }
        ensures log { OnErr result (KeepsLog self.old self.new) }
        ensures failed { OnErr result (IsAsideClosed self.old
            → IsAside self.new (Some [])
            ⊎ ((is_aside_in_doubt self.new ≡ true) × IsAside self.new (Some (payload_of framed.now ∷ [])))) }
        ensures moments { IsAsideClosed self.old → LeavesFirstThen (disk_of self.old) (disk_of self.new)
            (λ image. HasRecords [] (in_slot (other (slot_of self.old)) image))
            (λ image. HasRecordsOrOneMore [] (Some (payload_of framed.now))
            (in_slot (other (slot_of self.old)) image)) }
        ensures cause { HasCause (faults_of self.old) (faults_of self.new) result }
    {
        let slot = other_slot(self.slot);
        match write_record(&mut self.journal, slot, 0, framed) {
            Ok(()) => {
                self.slot = slot;
                self.gate = framed.len() as u64;
                self.first = self.gate;
                self.end = bytes.max(self.gate + 1);
                self.aside = Aside::Settled;
                Ok(())
            }
            Err(Unopened::Closed) => Err(Failed),
            Err(Unopened::Doubted) => {
                self.aside = Aside::Doubted;
                Err(Failed)
            }
        }
    }

    /// The slot that the log is in.
    pub fn slot(&self) -> Slot
        ensures { result ≡ slot_of self.now }
    {
        self.slot
    }

    /// The bytes of its records, with the closed gate behind them.
    pub fn length(&self) -> u64
        ensures { (acknowledged : List (List ℕ)) (in_doubt : Option (List ℕ)) → IsLog self.now acknowledged in_doubt
            → result ≡ length (open_records acknowledged) + 1 }
    {
        self.gate + 1
    }

    /// The bytes of its first frame, or 0 where it has no record.
    pub fn first_length(&self) -> u64
        ensures { (acknowledged : List (List ℕ)) (in_doubt : Option (List ℕ)) → IsLog self.now acknowledged in_doubt
            → result ≡ first_bytes acknowledged }
    {
        self.first
    }

    /// Whether a gate is in doubt, in either slot: a stop may leave it open or closed.
    pub fn doubt(&self) -> bool
        ensures { result ≡ is_in_doubt self.now }
    {
        self.doubt || matches!(self.aside, Aside::Doubted)
    }

    /// Closes a gate in doubt. After `Failed` it is still in doubt.
    pub fn settle(&mut self) -> Result<(), Failed>
        ensures settled { OnOk result ((acknowledged : List (List ℕ)) (in_doubt : Option (List ℕ))
            → IsLog self.old acknowledged in_doubt → IsLog self.new acknowledged None) }
        ensures no_doubt { OnOk result (is_in_doubt self.new ≡ false) }
        ensures failed { OnErr result ((acknowledged : List (List ℕ)) (in_doubt : Option (List ℕ))
            → IsLog self.old acknowledged in_doubt → IsLog self.new acknowledged in_doubt) }
        ensures same_doubt { OnErr result (is_in_doubt self.new ≡ is_in_doubt self.old) }

        // Where no gate is in doubt it does nothing.
        ensures idle { is_in_doubt self.old ≡ false → IsOk result × (self.new ≡ self.old) }

        // A stop at any moment leaves the acknowledged records, or these and the one in doubt.
        ensures moments { (acknowledged : List (List ℕ)) (in_doubt : Option (List ℕ))
            → IsLog self.old acknowledged in_doubt
            → LeavesOnly (disk_of self.old) (disk_of self.new)
            (λ image. HasRecordsOrOneMore acknowledged in_doubt (in_slot (slot_of self.old) image)) }

        // It leaves the slot aside alone, but for a gate in doubt there, which it closes.
        ensures aside { SettlesAside self.old self.new result }
        ensures slot { KeepsToSlot self.old self.new }
        ensures cause { HasCause (faults_of self.old) (faults_of self.new) result }
    {
        self.settle_aside()?;
        self.settle_gate()
    }

    // Closes byte 0 of the slot aside, where it is in doubt. After `Failed` it still is.
    fn settle_aside(&mut self) -> Result<(), Failed>
        ensures log { KeepsLog self.old self.new }
        ensures no_doubt { OnOk result (is_aside_in_doubt self.new ≡ false) }
        ensures same_doubt { OnErr result (is_aside_in_doubt self.new ≡ is_aside_in_doubt self.old) }
        ensures idle { is_aside_in_doubt self.old ≡ false → IsOk result × (self.new ≡ self.old) }
        ensures aside { OnOk result ((records : Option (List (List ℕ))) → IsAside self.old records
            → IsAside self.new (settled_aside self.old records)) }
        ensures failed { OnErr result ((records : Option (List (List ℕ))) → IsAside self.old records
            → IsAside self.new records) }
        ensures moments { (records : Option (List (List ℕ))) → IsAside self.old records
            → LeavesOnly (disk_of self.old) (disk_of self.new)
            (λ image. HasRecordsOrNone records (in_slot (other (slot_of self.old)) image)) }
        ensures cause { HasCause (faults_of self.old) (faults_of self.new) result }
    {
        match self.aside {
            Aside::Doubted => self.write_closed(),
            _ => Ok(()),
        }
    }

    // Closes the gate behind the records, where it is in doubt. After `Failed` it still is.
    fn settle_gate(&mut self) -> Result<(), Failed>
        ensures settled { OnOk result ((acknowledged : List (List ℕ)) (in_doubt : Option (List ℕ))
            → IsLog self.old acknowledged in_doubt → IsLog self.new acknowledged None) }
        ensures no_doubt { OnOk result (is_aside_in_doubt self.old ≡ false → is_in_doubt self.new ≡ false) }
        ensures failed { OnErr result ((acknowledged : List (List ℕ)) (in_doubt : Option (List ℕ))
            → IsLog self.old acknowledged in_doubt → IsLog self.new acknowledged in_doubt) }
        ensures still { OnErr result ((self.old.doubt ≡ true) × (self.new.doubt ≡ true)) }
        ensures idle { self.old.doubt ≡ false → IsOk result × (self.new ≡ self.old) }
        ensures moments { (acknowledged : List (List ℕ)) (in_doubt : Option (List ℕ))
            → IsLog self.old acknowledged in_doubt
            → LeavesOnly (disk_of self.old) (disk_of self.new)
            (λ image. HasRecordsOrOneMore acknowledged in_doubt (in_slot (slot_of self.old) image)) }
        ensures aside { KeepsAside self.old self.new }
        ensures cause { HasCause (faults_of self.old) (faults_of self.new) result }
    {
        if self.doubt {
            write_and_sync(&mut self.journal, self.slot, self.gate, &[0])?;
            self.doubt = false;
        }
        Ok(())
    }

    /// Gives the journal back, as it is. Where no gate is in doubt, its slot is settled.
    pub fn end(self) -> J
        ensures journal { result ≡ journal_of self }
        ensures settled { (acknowledged : List (List ℕ)) → IsLog self acknowledged None
            → IsSettled (slot_of self) (J.state result) }
    {
        self.journal
    }
}
