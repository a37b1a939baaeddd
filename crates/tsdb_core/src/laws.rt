//! The laws. A function here does nothing; its contract says a law, or the bounds of what it calls. What a core keeps
//! for jobs and pins that are out, it keeps until they end, so that their ends can be called. Depends on `engine`,
//! tsdb_compactions, tsdb_flush and tsdb_pin.
ghost use Rattle.std.specs.List.{AllByRecursion as Each};
ghost use Rattle.std.specs.Prelude.{[], List, Option};
ghost use Rattle.tsdb_tasks.specs.CompactionsOutputs.{TellsInputs, TellsTruth};
ghost use Rattle.tsdb_tasks.specs.Jobs.{IsCompactionOf};
ghost use Rattle.tsdb_core.specs.Compactions.{AreOnInputs, IsHandedOut, IsJobOut, job_rights};
ghost use Rattle.tsdb_core.specs.Core.{IsSeen, KeepsJobs, files_of, logged_of};
ghost use Rattle.tsdb_core.specs.Flushes.{HasNumbersOf, IsOut};
ghost use Rattle.tsdb_core.specs.Loans.{IsNothingClaimed, KeepsLoans, LentRight};
ghost use Rattle.tsdb_core.specs.Pins.{AreOnColumns, pin_rights};
ghost use Rattle.tsdb_fileset.specs.Places.{AreUnread};
ghost use Rattle.tsdb_frames.specs.Frames.{disk_of, slot_of};
ghost use Rattle.tsdb_base.specs.Lists.{Among, IsWithOne};
ghost use Rattle.tsdb_tasks.specs.Pins.{AreColumnsHeld};
ghost use Rattle.tsdb_memory.specs.LogState.{Outside, log_of};
ghost use Rattle.tsdb_model.specs.State as plain;
ghost use Rattle.tsdb_outside.specs.Disk.{Image};
ghost use Rattle.tsdb_state.specs.Order.{all_files};
ghost use Rattle.tsdb_state.specs.State as state;
ghost use Rattle.tsdb_state.specs.State.{Compaction, EngineState, ToldContents};
ghost use Rattle.tsdb_state.specs.StoredEngine.{IsKeptWhole, LeadsTo, LeavesOneOf};
ghost use Rattle.tsdb_state.specs.Stores.{IsStateOf};

use crate::engine::Core;
use tsdb_fileset::{Built, FlushJob, Flushed};
use tsdb_outside::{Files, Journal};
use tsdb_tasks::{Job, Pin};

/// Each file that the state of a core lists, and each on its way out, is kept whole. Whatever a stop leaves of the log
/// then stands for the state, or for that with the one change in doubt, with whatever files hold the kept ones.
pub fn listed_files_are_kept<J: Journal, F: Files>(_core: &Core<J, F>)
    ensures whole { (outside : Outside) (engine : EngineState) → IsSeen _core.now outside engine
        → Each (IsKeptWhole outside.kept outside.told) (all_files engine) }
    ensures left { (outside : Outside) (engine : EngineState) (at : plain.State) (next : Option plain.State)
        (image : Image) → IsSeen _core.now outside engine → IsStateOf outside.told engine.store at
        → LeadsTo outside.told engine.store engine.doubt next
        → (disk_of (log_of (logged_of _core.now))).may_leave image
        → LeavesOneOf outside.kept (slot_of (log_of (logged_of _core.now))) at next image }
{}

/// Where no compaction and no right is out and nothing is claimed, what is kept for flushes is all.
pub fn nothing_is_lent<J: Journal, F: Files>(_core: &Core<J, F>)
    ensures { (flushes : List state.FlushState) → KeepsJobs _core.now flushes [] → AreUnread (files_of _core.now).places
        → IsNothingClaimed _core.now → KeepsLoans _core.now flushes [] [] }
{}

/// Where no job and no pin has a right, none is out: so the core can be closed.
pub fn nothing_lent_is_unread<J: Journal, F: Files>(_core: &Core<J, F>)
    ensures { (flushes : List state.FlushState) (compactions : List Compaction)
        → KeepsLoans _core.now flushes compactions [] → AreUnread (files_of _core.now).places }
{}

/// A flush that is kept can be ended.
pub fn a_kept_flush_is_out<J: Journal, F: Files>(_core: &Core<J, F>, _job: &FlushJob)
    ensures { (flush : state.FlushState) (others flushes : List state.FlushState) (compactions : List Compaction)
        (lent : List (List LentRight)) → HasNumbersOf _job.now flush → IsWithOne flush others flushes
        → KeepsLoans _core.now flushes compactions lent → IsOut _core.now _job.now }
{}

/// Each job that a core hands out is one of a compaction, and has a right on each of its inputs.
pub fn a_job_is_of_a_compaction<F: Files>(_job: &Job<F>)
    ensures compaction { IsHandedOut _job.now → (compaction : Compaction) × IsCompactionOf _job.now compaction }
    ensures rights { AreOnInputs _job.now (job_rights F.Right.file _job.now) }
{}

/// A compaction that is kept, with its rights, can be ended.
pub fn a_kept_compaction_is_out<J: Journal, F: Files>(_core: &Core<J, F>, _job: &Job<F>)
    ensures { (compaction : Compaction) (others compactions : List Compaction) (flushes : List state.FlushState)
        (lent : List (List LentRight)) → IsHandedOut _job.now → IsCompactionOf _job.now compaction
        → IsWithOne compaction others compactions → Among (job_rights F.Right.file _job.now) lent
        → KeepsLoans _core.now flushes compactions lent → IsJobOut F.Right.file _core.now _job.now }
{}

/// The truth of a job lasts: while its rights are kept, whatever came since its beginning, each state that the core
/// shows tells of its inputs what was told then, and its rights tell their bytes. So it can be committed with what is
/// told now.
pub fn a_kept_compaction_tells<J: Journal, F: Files>(_core: &Core<J, F>, _job: &Job<F>)
    ensures { (outside : Outside) (engine : EngineState) (flushes : List state.FlushState)
        (compactions : List Compaction) (lent : List (List LentRight)) (begun : ToldContents)
        → IsSeen _core.now outside engine → KeepsLoans _core.now flushes compactions lent
        → Among (job_rights F.Right.file _job.now) lent → TellsTruth F.Right.file begun _job.now
        → TellsInputs F.Right.file outside.told _job.now }
{}

/// A pin has the rights that it gives back; where they are kept it can be given back.
pub fn a_kept_pin_is_held<J: Journal, F: Files>(_core: &Core<J, F>, _pin: &Pin<F>)
    ensures rights { AreOnColumns _pin.now (pin_rights F.Right.file _pin.now) }
    ensures held { (flushes : List state.FlushState) (compactions : List Compaction) (lent : List (List LentRight))
        → Among (pin_rights F.Right.file _pin.now) lent → KeepsLoans _core.now flushes compactions lent
        → AreColumnsHeld F.Right.file (files_of _core.now) _pin.now.columns }
{}

/// The value may go to another thread.
fn crosses<T: Send>(_value: &T) {}

/// A core, and all that it hands out and takes back, may go to another thread.
pub fn a_core_crosses<J: Journal, F: Files>(
    _core: &Core<J, F>,
    _flush: &FlushJob,
    _files: &Flushed<F>,
    _output: &Built<F>,
    _job: &Job<F>,
    _pin: &Pin<F>,
) {
    crosses(_core);
    crosses(_flush);
    crosses(_files);
    crosses(_output);
    crosses(_job);
    crosses(_pin);
}
