//! A compaction: the files of a plan become one. Depends on `turns`, tsdb_inner and tsdb_serving.
ghost use Rattle.std.specs.List.{AllByRecursion as Each};
ghost use Rattle.std.specs.Prelude.{◌≡◌, ◌≢◌, ◌≤◌, ℕ, IfErr, IfOk, OnErr, OnOk};
ghost use Rattle.tsdb_base.specs.declared.ids.Space.TheVariants.{Sequence as SequenceSpace};
ghost use Rattle.tsdb_compactions.specs.Jobs.{IsJobFormed};
ghost use Rattle.tsdb_compactions.specs.Outputs.{IsOutputOf, TellsTruth};
ghost use Rattle.tsdb_serving.specs.Beginnings.{IsCrossRuns, IsInnerRuns};
ghost use Rattle.tsdb_serving.specs.Compactions.{IsJobOut};
ghost use Rattle.tsdb_serving.specs.Core.{files_of, next_of, store_of};
ghost use Rattle.tsdb_inner.specs.Inputs.{IsInputOf};
ghost use Rattle.tsdb_fileset.specs.Files.{AreKept};
ghost use Rattle.tsdb_fileset.specs.Places.{AreOfStore};
ghost use Rattle.tsdb_outside.specs.Causes.{HasStoreCause};
ghost use Rattle.tsdb_rewriting.specs.Rewriting.{EndsJob, IsCompacted, IsFinished, IsFullAtEnd, IsOutputOfStore};
ghost use Rattle.tsdb_rewriting.specs.Rewriting.{WasTold};
ghost use Rattle.tsdb_serving.specs.Flushing.{GoesOn, HasCountedFault};
ghost use Rattle.tsdb_serving.specs.Loans.{CanServe};
ghost use Rattle.tsdb_serving.specs.Serving.{IsSure};
ghost use Rattle.tsdb_serving.specs.Sweeping.{LeavesRead};
ghost use Rattle.tsdb_serving.specs.declared.fault.FlushFault.{FlushFault as FaultOf};
ghost use Rattle.tsdb_state.specs.State.{ToldContents};

use crate::turns::{end_job, start_cross, start_inner};
use std::alloc::Global;
use tsdb_base::Space;
use tsdb_compactions::{Built, Job};
use tsdb_inner::{run_cross, run_inner};
use tsdb_outside::{Failed, Files, Journal, Port, StoreFault};
use tsdb_serving::{Core, FlushFault, sweep};

/// Replaces the files of the inner plan of a list by one, where there is a plan, and removes files on their way out
/// that are not read, whatever it returns.
///
/// A job that cannot be run is given up, and a file that cannot be removed is passed over.
pub fn compact_inner<J: Journal, F: Files>(
    alloc: Global,
    core: &mut Core<J, F>,
    port: &mut F::Port,
    space: Space,
) -> Result<(), FlushFault>
    requires ready { CanServe (F.Port.store port.old) core.old }
    ensures compacted { OnOk result (IsCompacted (IsInnerRuns space core.old) space core.old core.new) }
    ensures swept { LeavesRead (F.Port.faults port.old) (F.Port.faults port.new) core.new }
    ensures goes_on { GoesOn F.Port.store F.Port.faults port.old port.new core.old core.new 1 }
    ensures cause { IsSure (F.Port.store port.old) core.old → IfErr result (λ fault. fault ≡ FaultOf.Device
        → HasCountedFault F.Port.faults port.old port.new core.old core.new) }
    ensures full { IfErr result (IsFullAtEnd (next_of core.new)) }
{
    match start_inner(core, space) {
        Ok(Some(job)) => rewrite(alloc, core, port, job),
        Ok(None) => {
            sweep(core, port);
            Ok(())
        }
        Err(fault) => {
            sweep(core, port);
            Err(fault)
        }
    }
}

/// Replaces the files of the cross plan by one, where there is a plan, as `compact_inner` does those of an inner one.
pub fn compact_cross<J: Journal, F: Files>(
    alloc: Global,
    core: &mut Core<J, F>,
    port: &mut F::Port,
) -> Result<(), FlushFault>
    requires ready { CanServe (F.Port.store port.old) core.old }
    ensures compacted { OnOk result (IsCompacted (IsCrossRuns core.old) SequenceSpace core.old core.new) }
    ensures swept { LeavesRead (F.Port.faults port.old) (F.Port.faults port.new) core.new }
    ensures goes_on { GoesOn F.Port.store F.Port.faults port.old port.new core.old core.new 1 }
    ensures cause { IsSure (F.Port.store port.old) core.old → IfErr result (λ fault. fault ≡ FaultOf.Device
        → HasCountedFault F.Port.faults port.old port.new core.old core.new) }
    ensures full { IfErr result (IsFullAtEnd (next_of core.new)) }
{
    match start_cross(core) {
        Ok(Some(job)) => rewrite(alloc, core, port, job),
        Ok(None) => {
            sweep(core, port);
            Ok(())
        }
        Err(fault) => {
            sweep(core, port);
            Err(fault)
        }
    }
}

/// Writes the output of a job that is out, and ends it with the output; or gives the job up, where it cannot be
/// written.
fn rewrite<J: Journal, F: Files>(
    alloc: Global,
    core: &mut Core<J, F>,
    port: &mut F::Port,
    job: Job<F>,
) -> Result<(), FlushFault>
    requires out { IsJobOut F.Right.file core.old job }
    requires store { F.Port.store port.old ≡ store_of core.old }
    ensures finished { OnOk result (IsFinished job core.old core.new) }
    ensures kept { AreKept (files_of core.old) }
    ensures of_store { AreOfStore (store_of core.old) (files_of core.old).places }
    ensures ends { EndsJob F.Right.file (F.Port.store port.old) job core.old core.new }
    ensures swept { LeavesRead (F.Port.faults port.old) (F.Port.faults port.new) core.new }
    ensures same_store { F.Port.store port.new ≡ F.Port.store port.old }
    ensures cause { WasTold F.Right.file job → IfErr result (λ fault. fault ≡ FaultOf.Device
        → HasCountedFault F.Port.faults port.old port.new core.old core.new) }
    ensures full { IfErr result (λ fault. (counter : ℕ) → fault ≢ FaultOf.Full counter) }
    ensures later { F.Port.faults port.old ≤ F.Port.faults port.new }
{
    core.sound();
    match run(alloc, &job, port) {
        Ok(output) => result_of(end_job(core, port, job, output, true)),
        Err(fault) => {
            let _ = end_job(core, port, job, None, false);
            Err(FlushFault::of_file(fault))
        }
    }
}

/// Writes the output of a job, by the call of its kind.
fn run<F: Files>(
    alloc: Global,
    job: &Job<F>,
    port: &mut F::Port,
) -> Result<Option<Built<F>>, StoreFault>
    requires formed { IsJobFormed job.now }
    requires of_store { Each (IsInputOf F.Right.file (F.Port.store port.old)) job.now.inputs }
    ensures output { IfOk result (IsOutputOf F.Right.file F.Sealed.file F.Sealed.rights job.now) }
    ensures of_store { IfOk result (IsOutputOfStore F.Sealed.file (F.Port.store port.old)) }
    ensures cause { (told : ToldContents) → TellsTruth F.Right.file told job.now
        → HasStoreCause (F.Port.faults port.old) (F.Port.faults port.new) result }
    ensures later { F.Port.faults port.old ≤ F.Port.faults port.new }
    ensures same_store { F.Port.store port.new ≡ F.Port.store port.old }
{
    if job.is_cross() {
        run_cross(alloc, job, port)
    } else {
        run_inner(alloc, job, port)
    }
}

/// What the end of a job that was whole means for its compaction.
fn result_of(ended: Result<(), Failed>) -> Result<(), FlushFault>
    ensures done { OnOk result (OnErr ended ⊥) }
    ensures device { IfErr result (λ fault. (fault ≡ FaultOf.Device) × OnOk ended ⊥) }
{
    match ended {
        Ok(()) => Ok(()),
        Err(Failed) => Err(FlushFault::Device),
    }
}
