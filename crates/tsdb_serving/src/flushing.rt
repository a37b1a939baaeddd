//! A flush: the working pair and all frozen pairs become files. Depends on `fault`, `sweeping` and tsdb_core.
ghost use Rattle.std.specs.Prelude.{◌≡◌, ◌≢◌, ◌⊎◌, ◌<◌, ◌≤◌, ◌↔◌, ℕ, [], IfErr, IfOk, IsTrue, OnOk, drop};
ghost use Rattle.std.specs.Prelude.{length, slice_get};
ghost use Rattle.std.specs.List.{AllByRecursion as Each};
ghost use Rattle.std.specs.Option.{option_map};
ghost use Rattle.std.specs.declared.option.Option.TheVariants.{None, Some};
ghost use Rattle.std.specs.declared.result.Result.TheVariants.{Ok};
ghost use Rattle.tsdb_core.specs.Core.{files_of, logged_of, newest_born, next_of, store_of, working_of};
ghost use Rattle.tsdb_core.specs.Files.{AreDone, AreDoneSoFar};
ghost use Rattle.tsdb_core.specs.Flushes.{IsDue, IsOldestPair, IsOut, IsTakeAnswer};
ghost use Rattle.tsdb_core.specs.Jobs.{IsJob};
ghost use Rattle.tsdb_core.specs.declared.commit.Commit.{Commit as CommitOf};
ghost use Rattle.tsdb_memory.specs.LogState.{memory_of};
ghost use Rattle.tsdb_base.specs.Causes.{Rose};
ghost use Rattle.tsdb_memory.specs.Fits.{HasNoPairPoint};
ghost use Rattle.tsdb_serving.specs.declared.fault.FlushFault.{FlushFault as FaultOf};
ghost use Rattle.tsdb_serving.specs.Flushing.{TakesFlushBack, GoesOn, HasFlushCauseOver, IsEndAnswer, LendsFlushOrNot};
ghost use Rattle.tsdb_serving.specs.Flushing.{faults_under, frozen_under};
ghost use Rattle.tsdb_serving.specs.Loans.{CanServe};
ghost use Rattle.tsdb_serving.specs.Sweeping.{AreOutgoingRead, LeavesRead, StaysRead};
ghost use Rattle.tsdb_base.specs.Limits.{max_frozen};

use crate::fault::FlushFault;
use crate::sweeping::sweep;
use std::alloc::Global;
use tsdb_base::{Answer, Space, Stamp, limits};
use tsdb_core::{Commit, Core, CoreFault, FlushJob, FlushRefused, Flushed, run_flush};
use tsdb_outside::{Files, Journal, Port};

/// How many pairs can be frozen.
const MAX_FROZEN: u64 = limits::MAX_FROZEN as u64;

/// Freezes the working pair, where it has a point, and writes the files of all frozen pairs, from the oldest on.
///
/// Where two pairs are frozen and the working pair has a point, the oldest is flushed first. It ends at the first pair
/// that cannot be frozen or flushed, which stays in memory. At the end files on their way out are removed, whatever it
/// returns; one that cannot be removed is passed over.
pub fn flush<J: Journal, F: Files>(
    alloc: Global,
    core: &mut Core<J, F>,
    port: &mut F::Port,
) -> Result<(), FlushFault>
    requires ready { CanServe (F.Port.store port.old) core.old }
    ensures flushed { OnOk result ((frozen_under core.new ≡ []) × HasNoPairPoint (working_of core.new)) }
    ensures swept { LeavesRead (F.Port.faults port.old) (F.Port.faults port.new) core.new }
    ensures goes_on { GoesOn F.Port.store F.Port.faults port.old port.new core.old core.new 6 }
    ensures cause { IfErr result (HasFlushCauseOver F.Port.faults port.old port.new core.old core.new) }
{
    let flushed = flush_pairs(alloc, core, port);
    sweep(core, port);
    flushed
}

/// Freezes the working pair, and flushes all pairs: one turn after another.
fn flush_pairs<J: Journal, F: Files>(
    alloc: Global,
    core: &mut Core<J, F>,
    port: &mut F::Port,
) -> Result<(), FlushFault>
    requires ready { CanServe (F.Port.store port.old) core.old }
    ensures flushed { OnOk result ((frozen_under core.new ≡ []) × HasNoPairPoint (working_of core.new)) }
    ensures goes_on { GoesOn F.Port.store F.Port.faults port.old port.new core.old core.new 6 }
    ensures cause { IfErr result (HasFlushCauseOver F.Port.faults port.old port.new core.old core.new) }
{
    match start_flush(alloc, core, port) {
        Ok(Some(upto)) => flush_both(alloc, core, port, upto),
        Ok(None) => Ok(()),
        Err(fault) => Err(fault),
    }
}

/// Flushes both frozen pairs, or the one that there is, up to the stamp of the newest.
fn flush_both<J: Journal, F: Files>(
    alloc: Global,
    core: &mut Core<J, F>,
    port: &mut F::Port,
    upto: Stamp,
) -> Result<(), FlushFault>
    requires newest { newest_born (frozen_under core.old) ≡ Some upto.0 }
    requires ready { CanServe (F.Port.store port.old) core.old }
    ensures flushed { OnOk result (frozen_under core.new ≡ []) }
    ensures working { working_of core.new ≡ working_of core.old }
    ensures goes_on { GoesOn F.Port.store F.Port.faults port.old port.new core.old core.new 4 }
    ensures cause { IfErr result (HasFlushCauseOver F.Port.faults port.old port.new core.old core.new) }
{
    // (it tells that two pairs at most are frozen)
    core.memory().sound();
    match flush_next(alloc, core, port, upto) {
        Ok(()) => flush_next(alloc, core, port, upto),
        Err(fault) => Err(fault),
    }
}

/// Freezes the working pair, where it has a point, and returns the stamp up to which a flush has all points that are there
/// now: that at the last freeze of a pair that is still frozen. There is none where no point is in memory.
///
/// Where two pairs are frozen and the working pair has a point, the oldest is flushed first, and files on their way out are
/// removed.
pub fn start_flush<J: Journal, F: Files>(
    alloc: Global,
    core: &mut Core<J, F>,
    port: &mut F::Port,
) -> Result<Option<Stamp>, FlushFault>
    requires ready { CanServe (F.Port.store port.old) core.old }
    ensures newest { IfOk result (λ upto. option_map (λ stamp. stamp.0) upto ≡ newest_born (frozen_under core.new)) }
    ensures emptied { OnOk result (HasNoPairPoint (working_of core.new)) }
    ensures swept { StaysRead (F.Port.faults port.old) (F.Port.faults port.new) core.old core.new }
    ensures goes_on { GoesOn F.Port.store F.Port.faults port.old port.new core.old core.new 2 }
    ensures cause { IfErr result (HasFlushCauseOver F.Port.faults port.old port.new core.old core.new) }
{
    match make_place(alloc, core, port) {
        Ok(()) => freeze(core),
        Err(fault) => Err(fault),
    }
}

/// Flushes the oldest pair, where the working pair could not be frozen else.
fn make_place<J: Journal, F: Files>(
    alloc: Global,
    core: &mut Core<J, F>,
    port: &mut F::Port,
) -> Result<(), FlushFault>
    requires ready { CanServe (F.Port.store port.old) core.old }
    ensures place { OnOk result (HasNoPairPoint (working_of core.new) ⊎ (length (frozen_under core.new) < max_frozen)) }
    ensures swept { AreOutgoingRead (files_of core.old)
        → LeavesRead (F.Port.faults port.old) (F.Port.faults port.new) core.new }
    ensures goes_on { GoesOn F.Port.store F.Port.faults port.old port.new core.old core.new 2 }
    ensures cause { IfErr result (HasFlushCauseOver F.Port.faults port.old port.new core.old core.new) }
{
    if is_idle(core) {
        return Ok(());
    }
    if core.frozen() < MAX_FROZEN {
        return Ok(());
    }
    flush_oldest(alloc, core, port)
}

/// Whether the working pair has no point.
fn is_idle<J: Journal, F: Files>(core: &Core<J, F>) -> bool
    ensures { IsTrue result ↔ HasNoPairPoint (working_of core.now) }
{
    core.working(Space::Sequence) == 0 && core.working(Space::Unsequence) == 0
}

/// Freezes the working pair, where it has a point, and returns the stamp at the last freeze of a pair that is frozen.
fn freeze<J: Journal, F: Files>(core: &mut Core<J, F>) -> Result<Option<Stamp>, FlushFault>
    requires place { HasNoPairPoint (working_of core.old) ⊎ (length (frozen_under core.old) < max_frozen) }
    ensures newest { IfOk result (λ upto. option_map (λ stamp. stamp.0) upto ≡ newest_born (frozen_under core.new)) }
    ensures emptied { OnOk result (HasNoPairPoint (working_of core.new)) }
    ensures files { files_of core.new ≡ files_of core.old }
    ensures goes_on { (port : F.Port) → GoesOn F.Port.store F.Port.faults port port core.old core.new 0 }
    ensures cause { IfErr result (λ fault. fault ≡ FaultOf.Device
        → Rose (faults_under core.old) (faults_under core.new)) }
    ensures full { IfErr result (λ fault. (counter : ℕ) → fault ≢ FaultOf.Full counter) }
{
    if is_idle(core) {
        return Ok(core.newest_frozen());
    }
    match core.freeze() {
        Answer::Done => Ok(core.newest_frozen()),
        Answer::Device => Err(FlushFault::Device),
        _ => Err(FlushFault::Memory),
    }
}

/// The stamp at which the oldest frozen pair was frozen.
fn oldest<J: Journal, F: Files>(core: &Core<J, F>) -> Option<Stamp>
    ensures two { length (frozen_under core.now) ≤ max_frozen }
    ensures born { option_map (λ stamp. stamp.0) result ≡ option_map (λ pair. pair.born)
        (slice_get (frozen_under core.now) 0) }
{
    match core.memory().frozen().first() {
        Some(pair) => Some(pair.born()),
        None => None,
    }
}

/// Flushes the oldest frozen pair, if there is one, within a turn.
pub(crate) fn flush_oldest<J: Journal, F: Files>(
    alloc: Global,
    core: &mut Core<J, F>,
    port: &mut F::Port,
) -> Result<(), FlushFault>
    requires ready { CanServe (F.Port.store port.old) core.old }
    ensures flushed { OnOk result (frozen_under core.new ≡ drop 1 (frozen_under core.old)) }
    ensures few { length (frozen_under core.old) ≤ max_frozen }
    ensures working { working_of core.new ≡ working_of core.old }
    ensures swept { AreOutgoingRead (files_of core.old)
        → LeavesRead (F.Port.faults port.old) (F.Port.faults port.new) core.new }
    ensures goes_on { GoesOn F.Port.store F.Port.faults port.old port.new core.old core.new 2 }
    ensures cause { IfErr result (HasFlushCauseOver F.Port.faults port.old port.new core.old core.new) }
{
    match oldest(core) {
        Some(upto) => flush_next(alloc, core, port, upto),
        None => Ok(()),
    }
}

/// Flushes the oldest frozen pair, where it was frozen at the stamp or before it.
fn flush_next<J: Journal, F: Files>(
    alloc: Global,
    core: &mut Core<J, F>,
    port: &mut F::Port,
    upto: Stamp,
) -> Result<(), FlushFault>
    requires ready { CanServe (F.Port.store port.old) core.old }
    ensures flushed { IsDue upto.0 (frozen_under core.old)
        → OnOk result (frozen_under core.new ≡ drop 1 (frozen_under core.old)) }
    ensures none { ¬ IsDue upto.0 (frozen_under core.old) → (frozen_under core.new ≡ frozen_under core.old)
        × Each (λ pair. upto.0 < pair.born) (frozen_under core.old) }
    ensures working { working_of core.new ≡ working_of core.old }
    ensures swept { AreOutgoingRead (files_of core.old)
        → LeavesRead (F.Port.faults port.old) (F.Port.faults port.new) core.new }
    ensures goes_on { GoesOn F.Port.store F.Port.faults port.old port.new core.old core.new 2 }
    ensures cause { IfErr result (HasFlushCauseOver F.Port.faults port.old port.new core.old core.new) }
{
    match take_flush(core, upto) {
        Ok(Some(job)) => run_job(alloc, core, port, job),
        Ok(None) => Ok(()),
        Err(fault) => Err(FlushFault::of_core(fault)),
    }
}

/// Takes the job of the oldest frozen pair, where it was frozen at the stamp or before it. The pair stays frozen until the
/// job ends. All memory that its end needs is taken.
pub fn take_flush<J: Journal, F: Files>(
    core: &mut Core<J, F>,
    upto: Stamp,
) -> Result<Option<FlushJob>, CoreFault>
    ensures answer { IsTakeAnswer upto.0 (next_of core.old) (memory_of (logged_of core.old)) result }
    ensures none { result ≡ Ok None → Each (λ pair. upto.0 < pair.born) (frozen_under core.new) }
    ensures taken { LendsFlushOrNot F.Right.file core.old core.new result }
    ensures memory { memory_of (logged_of core.new) ≡ memory_of (logged_of core.old) }
    ensures files { AreOutgoingRead (files_of core.old) → AreOutgoingRead (files_of core.new) }
{
    core.take_flush(upto)
}

/// Writes the files of a job of the oldest pair, and ends it: its files are listed; or it is given up, where they cannot be
/// written.
fn run_job<J: Journal, F: Files>(
    alloc: Global,
    core: &mut Core<J, F>,
    port: &mut F::Port,
    job: FlushJob,
) -> Result<(), FlushFault>
    requires is_job { IsJob job }
    requires out { IsOut core.old job }
    requires store { F.Port.store port.old ≡ store_of core.old }
    requires oldest { IsOldestPair core.old job }
    ensures flushed { OnOk result (frozen_under core.new ≡ drop 1 (frozen_under core.old)) }
    ensures ends { TakesFlushBack F.Right.file (F.Port.store port.old) job core.old core.new }
    ensures swept { LeavesRead (F.Port.faults port.old) (F.Port.faults port.new) core.new }
    ensures same_store { F.Port.store port.new ≡ F.Port.store port.old }
    ensures cause { IfErr result (HasFlushCauseOver F.Port.faults port.old port.new core.old core.new) }
    ensures later { F.Port.faults port.old ≤ F.Port.faults port.new }
{
    match run_flush::<F>(alloc, &job, port) {
        Ok(files) => result_of(end_flush(core, port, job, files, true)),
        Err(FlushRefused { files, fault }) => {
            end_flush(core, port, job, files, false);
            Err(FlushFault::of_file(fault))
        }
    }
}

/// What a commit means for the flush: where its pair was flushed meanwhile it is done too.
fn result_of(commit: Commit) -> Result<(), FlushFault>
    ensures ok { OnOk result (commit ≢ CommitOf.Device) }
    ensures device { IfErr result (λ fault. (fault ≡ FaultOf.Device) × (commit ≡ CommitOf.Device)) }
{
    match commit {
        Commit::Done | Commit::Gone => Ok(()),
        Commit::Device => Err(FlushFault::Device),
    }
}

/// Ends a flush that is out. Where it is whole its files are listed, one for each number that was drawn for it, and its
/// pair is frozen no longer; where that was flushed meanwhile, or the log could not be written, and where it is not whole,
/// they are on their way out. Then files on their way out that are not read are removed; one that cannot be removed is
/// passed over. It takes no memory.
pub fn end_flush<J: Journal, F: Files>(
    core: &mut Core<J, F>,
    port: &mut F::Port,
    job: FlushJob,
    files: Flushed<F>,
    whole: bool,
) -> Commit
    requires out { IsOut core.old job }
    requires store { F.Port.store port.old ≡ store_of core.old }
    requires so_far { AreDoneSoFar F.Sealed.file F.Sealed.rights (F.Port.store port.old) job files }
    requires done { IsTrue whole → AreDone F.Sealed.file F.Sealed.rights (F.Port.store port.old) job files }
    ensures answer { IsEndAnswer whole core.old job result }
    ensures left { result ≡ CommitOf.Done → frozen_under core.new ≡ drop 1 (frozen_under core.old) }
    ensures stays { result ≢ CommitOf.Done → memory_of (logged_of core.new) ≡ memory_of (logged_of core.old) }
    ensures ends { TakesFlushBack F.Right.file (F.Port.store port.old) job core.old core.new }
    ensures cause { result ≡ CommitOf.Device → Rose (faults_under core.old) (faults_under core.new) }
    ensures swept { LeavesRead (F.Port.faults port.old) (F.Port.faults port.new) core.new }
    ensures same_store { F.Port.store port.new ≡ F.Port.store port.old }
    ensures later { F.Port.faults port.old ≤ F.Port.faults port.new }
{
    let commit = commit_or_give_up(core, job, files, whole);
    sweep(core, port);
    commit
}

/// Ends a flush that is out, without the files on their way out.
fn commit_or_give_up<J: Journal, F: Files>(
    core: &mut Core<J, F>,
    job: FlushJob,
    files: Flushed<F>,
    whole: bool,
) -> Commit
    requires out { IsOut core.old job }
    requires so_far { AreDoneSoFar F.Sealed.file F.Sealed.rights (store_of core.old) job files }
    requires done { IsTrue whole → AreDone F.Sealed.file F.Sealed.rights (store_of core.old) job files }
    ensures answer { IsEndAnswer whole core.old job result }
    ensures left { result ≡ CommitOf.Done → frozen_under core.new ≡ drop 1 (frozen_under core.old) }
    ensures stays { result ≢ CommitOf.Done → memory_of (logged_of core.new) ≡ memory_of (logged_of core.old) }
    ensures ends { TakesFlushBack F.Right.file (store_of core.old) job core.old core.new }
    ensures same_store { store_of core.new ≡ store_of core.old }
    ensures cause { result ≡ CommitOf.Device → Rose (faults_under core.old) (faults_under core.new) }
{
    if whole {
        return core.commit_flush(job, files);
    }
    core.abandon_flush(job, files);
    Commit::Gone
}
