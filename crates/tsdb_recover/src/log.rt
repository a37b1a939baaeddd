//! The log of a store, read and replayed. Depends on `fault`.
ghost use Rattle.std.specs.Prelude.{◌≡◌, ◌≤◌, ◌<◌, ℕ, IfErr, IfOk, IfSome, IsErrAnd, IsErrOf, OnErr, OnOk};
ghost use Rattle.tsdb_frames.specs.Readers.{HasNextGate, IsTornPart, StaysReading, disk_read, faults_read, gate_of};
ghost use Rattle.tsdb_frames.specs.Readers.{begun_of, unheld_of};
ghost use Rattle.tsdb_base.specs.Causes.{Rose};
ghost use Rattle.tsdb_outside.specs.Disk.{Keeps};
ghost use Rattle.tsdb_log.specs.Places.{AreFieldsNearTheirEnd};
ghost use Rattle.tsdb_recover.specs.Causes.{AnswersDamage};
ghost use Rattle.tsdb_recover.specs.Log.{IsLogRead};
ghost use Rattle.tsdb_recover.specs.Replaying.{HasReplayed, IsDamagedLog, IsFrameRedone, IsFrameRefused, IsPartRefused};
ghost use Rattle.tsdb_recover.specs.Replaying.{IsUnreadLog, of_scan};
ghost use Rattle.tsdb_recover.specs.declared.fault.Part as store_part;
ghost use Rattle.tsdb_recover.specs.declared.fault.Part.TheVariants as parts;
ghost use Rattle.tsdb_state.specs.Damage.{IsDamaged};
ghost use Rattle.tsdb_state.specs.Stores.{store_steps};

use crate::fault::{OpenFault, OpenRefused, Part};
use std::alloc::Global;
use tsdb_frames::{Frame, FrameReader, Frames, Next, ScanFault};
use tsdb_log::{LogFault, may_begin, read_record};
use tsdb_outside::{Journal, Slot};
use tsdb_redo::{Opening, RedoFault};

/// Reads the log in slot A of a journal record by record, and replays each as it is read. It writes nothing. It takes
/// the memory of what the records lead to, and of one piece of the log: at most twice as long as what stands there of a
/// record, whatever length that claims, and some 200,000 bytes.
pub fn read_log<J: Journal>(
    alloc: Global,
    journal: J,
) -> Result<(Frames<J>, Opening), OpenRefused<J>>
    ensures read { IfOk result (λ r. IsLogRead journal r.0 r.1) }
    ensures damaged { IfErr result (λ refused. IfSome (J.state journal).seen (λ image. (part : store_part.Part) (at : ℕ)
        → refused.fault ≡ OpenFault.Damaged part at → (part ≡ parts.Log) × IsDamaged store_steps at image.a)) }
    ensures each { IfSome (J.state journal).seen (λ image. (at : ℕ) → IsDamaged store_steps at image.a
        → IsErrAnd result (λ refused. AnswersDamage at refused.fault)) }

    // It writes nothing.
    ensures returns { IfErr result (λ refused. Keeps (J.state journal) (J.state refused.journal)) }
    ensures returns_later { IfErr result (λ refused. J.faults journal ≤ J.faults refused.journal) }
    ensures cause { IfErr result (λ refused. refused.fault ≡ OpenFault.Failed
        → Rose (J.faults journal) (J.faults refused.journal)) }
{
    let mut reader = FrameReader::new(alloc, journal, Slot::A);
    match replay(alloc, &mut reader) {
        Ok(opening) => Ok((Frames::of_reader(reader), opening)),
        Err(fault) => Err(OpenRefused {
            journal: reader.end(),
            fault,
        }),
    }
}

/// Replays the records of a slot, of which none is read yet, each as it is read. Damaged at the place of the first that is
/// torn, cannot be read, or has no replay.
fn replay<J: Journal>(alloc: Global, reader: &mut FrameReader<J>) -> Result<Opening, OpenFault>
    ensures read { IfOk result (λ opening. (journal : J) → IsUnreadLog journal reader.old
        → HasReplayed journal reader.new opening) }
    ensures ended { OnOk result (HasNextGate reader.new) }
    ensures damaged { (part : store_part.Part) (at : ℕ) → IsErrOf result (OpenFault.Damaged part at)
        → (part ≡ parts.Log) × IsDamagedLog reader.old at }
    ensures keeps { OnErr result ((journal : J) → IsUnreadLog journal reader.old
        → Keeps (J.state journal) (disk_read reader.new)) }
    ensures later { faults_read reader.old ≤ faults_read reader.new }
    ensures failed { IsErrOf result OpenFault.Failed → Rose (faults_read reader.old) (faults_read reader.new) }
{
    let mut opening = Opening::new(alloc);
    loop {
        match reader.next(alloc) {
            Ok(Next::Whole(frame)) => {
                redo(&mut opening, alloc, &frame)?;
                continue;
            }
            Ok(Next::Part) => {}
            Ok(Next::End) => return Ok(opening),
            Err(fault) => return Err(log_fault(fault)),
        }
        read_on(alloc, reader)?;
    }
}

/// Reads on in a record that is longer than what is read of it, after a look at that. Damaged where no record begins
/// so.
fn read_on<J: Journal>(alloc: Global, reader: &mut FrameReader<J>) -> Result<(), OpenFault>
    ensures forward { OnOk result (unheld_of reader.new < unheld_of reader.old) }
    ensures near { OnOk result (AreFieldsNearTheirEnd (begun_of reader.old)) }
    ensures damaged { (part : store_part.Part) (at : ℕ) → IsErrOf result (OpenFault.Damaged part at)
        → (part ≡ parts.Log) × (IsTornPart reader.old → IsPartRefused reader.old at) }
    ensures stays { StaysReading reader.old reader.new }
    ensures gate { gate_of reader.new ≡ gate_of reader.old }
    ensures later { faults_read reader.old ≤ faults_read reader.new }
    ensures failed { IsErrOf result OpenFault.Failed → Rose (faults_read reader.old) (faults_read reader.new) }
{
    let damaged = OpenFault::Damaged {
        part: Part::Log,
        at: reader.gate(),
    };
    if !may_begin(alloc, reader.part())? {
        return Err(damaged);
    }
    match reader.read_on(alloc) {
        Ok(()) => Ok(()),
        Err(fault) => Err(log_fault(fault)),
    }
}

/// The fault of a log that could not be read on.
fn log_fault(fault: ScanFault) -> OpenFault
    ensures { result ≡ of_scan fault }
{
    match fault {
        ScanFault::Failed => OpenFault::Failed,
        ScanFault::Torn { at } => OpenFault::Damaged {
            part: Part::Log,
            at,
        },
        ScanFault::Memory => OpenFault::Memory,
    }
}

/// Replays the record of a frame.
fn redo(opening: &mut Opening, alloc: Global, frame: &Frame) -> Result<(), OpenFault>
    ensures redone { OnOk result (IsFrameRedone opening.old opening.new frame.now) }
    ensures damaged { (part : store_part.Part) (at : ℕ) → IsErrOf result (OpenFault.Damaged part at)
        → (part ≡ parts.Log) × (at ≡ frame.now.at) × IsFrameRefused opening.old frame.now }
    ensures no_failure { ¬ IsErrOf result OpenFault.Failed }
{
    let damaged = OpenFault::Damaged {
        part: Part::Log,
        at: frame.at,
    };
    match read_record(alloc, frame.payload.items()) {
        Ok(item) => match opening.redo(item) {
            Ok(()) => Ok(()),
            Err(RedoFault::NoReplay) => Err(damaged),
            Err(RedoFault::Memory) => Err(OpenFault::Memory),
        },
        Err(LogFault::Bad { .. }) => Err(damaged),
        Err(LogFault::Memory) => Err(OpenFault::Memory),
    }
}
