//! The turns of a compaction: its job is begun, and ended. Depends on tsdb_core and tsdb_serving.
ghost use Rattle.std.specs.Option.{option_map};
ghost use Rattle.std.specs.Prelude.{◌≡◌, ◌≤◌, IfOk, IfSome, IsTrue, List, OnErr, Option, false, true};
ghost use Rattle.std.specs.declared.result.Result.TheVariants.{Err};
ghost use Rattle.tsdb_base.specs.Causes.{Rose};
ghost use Rattle.tsdb_base.specs.declared.ids.Space.TheVariants.{Sequence as SequenceSpace};
ghost use Rattle.tsdb_compactions.specs.Jobs.{is_cross};
ghost use Rattle.tsdb_compactions.specs.Outputs.{IsBuiltFor, IsOutputOf};
ghost use Rattle.tsdb_model.specs.State as plain;
ghost use Rattle.tsdb_outside.specs.Files.{Store, StoredFile};
ghost use Rattle.tsdb_rewriting.specs.Rewriting.{EndsJob, IsEndOf, IsOutputOfStore, IsStartAnswer, LendsJobOrNot};
ghost use Rattle.tsdb_serving.specs.Beginnings.{HaveHulls, IsBeginAnswer, IsCrossRuns, IsInnerRuns};
ghost use Rattle.tsdb_serving.specs.Compactions.{IsJobOut};
ghost use Rattle.tsdb_serving.specs.Core.{files_of, next_of, store_of};
ghost use Rattle.tsdb_serving.specs.Flushing.{faults_under, frozen_under};
ghost use Rattle.tsdb_serving.specs.Replacements.{IsJobCommit};
ghost use Rattle.tsdb_serving.specs.Serving.{IsServing};
ghost use Rattle.tsdb_serving.specs.Sweeping.{AreOutgoingRead, LeavesRead};
ghost use Rattle.tsdb_serving.specs.TasksFiles.{file_built};
ghost use Rattle.tsdb_serving.specs.TheVariants.{Memory as NoMemory};
ghost use Rattle.tsdb_serving.specs.declared.fault.FlushFault.TheVariants.{Memory as OutOfMemory};
ghost use Rattle.tsdb_serving.specs.declared.loan.Loan.{Loan};

use tsdb_base::Space;
use tsdb_compactions::{Built, Job};
use tsdb_outside::{Failed, Files, Journal};
use tsdb_serving::{Core, CoreFault, FlushFault, sweep};

/// Begins the compaction of a command: the job of the inner plan of a list, where there is one. A fault is the answer
/// to the command.
pub fn start_inner<J: Journal, F: Files>(
    core: &mut Core<J, F>,
    space: Space,
) -> Result<Option<Job<F>>, FlushFault>
    ensures answer { IsStartAnswer (IsInnerRuns space core.old) (next_of core.old) result }
    ensures lent { LendsJobOrNot F.Right.file space (IsInnerRuns space core.old) core.old core.new result }
    ensures kind { IfOk result (λ begun. IfSome begun (λ job. is_cross job ≡ false)) }
    ensures files { AreOutgoingRead (files_of core.old) → AreOutgoingRead (files_of core.new) }
{
    match work_inner(core, space) {
        Ok(begun) => Ok(begun),
        Err(fault) => Err(FlushFault::of_core(fault)),
    }
}

/// Begins the compaction of a command: the job of the cross plan, where there is one. A fault is the answer to the
/// command.
pub fn start_cross<J: Journal, F: Files>(
    core: &mut Core<J, F>,
) -> Result<Option<Job<F>>, FlushFault>
    ensures answer { HaveHulls core.old → IsStartAnswer (IsCrossRuns core.old) (next_of core.old) result }
    ensures lent { LendsJobOrNot F.Right.file SequenceSpace (IsCrossRuns core.old) core.old core.new result }
    ensures kind { IfOk result (λ begun. IfSome begun (λ job. is_cross job ≡ true)) }
    ensures disorder { ¬ HaveHulls core.old → result ≡ Err OutOfMemory }
    ensures order { (loans : List (Loan _ _ _ _)) (files : List StoredFile) (at : plain.State)
        (next : Option plain.State) → IsServing loans core.old files at next → HaveHulls core.old }
    ensures files { AreOutgoingRead (files_of core.old) → AreOutgoingRead (files_of core.new) }
{
    match work_cross(core) {
        Ok(begun) => Ok(begun),
        Err(fault) => Err(FlushFault::of_core(fault)),
    }
}

/// Begins the job of the inner plan of a list, where there is one: none of the sequence list while a job has claimed
/// it. All memory that its end needs is taken.
pub fn work_inner<J: Journal, F: Files>(
    core: &mut Core<J, F>,
    space: Space,
) -> Result<Option<Job<F>>, CoreFault>
    ensures answer { IsBeginAnswer (IsInnerRuns space core.old) (next_of core.old) result }
    ensures lent { LendsJobOrNot F.Right.file space (IsInnerRuns space core.old) core.old core.new result }
    ensures kind { IfOk result (λ begun. IfSome begun (λ job. is_cross job ≡ false)) }
    ensures files { AreOutgoingRead (files_of core.old) → AreOutgoingRead (files_of core.new) }
{
    core.begin_inner(space)
}

/// Begins the job of the cross plan, where there is one: none while a job has claimed the sequence list. All memory
/// that its end needs is taken. Where the hulls of a listed file are not in order it answers `Memory`; in each state
/// that the core is in they are.
pub fn work_cross<J: Journal, F: Files>(core: &mut Core<J, F>) -> Result<Option<Job<F>>, CoreFault>
    ensures answer { HaveHulls core.old → IsBeginAnswer (IsCrossRuns core.old) (next_of core.old) result }
    ensures lent { LendsJobOrNot F.Right.file SequenceSpace (IsCrossRuns core.old) core.old core.new result }
    ensures kind { IfOk result (λ begun. IfSome begun (λ job. is_cross job ≡ true)) }
    ensures disorder { ¬ HaveHulls core.old → result ≡ Err NoMemory }
    ensures order { (loans : List (Loan _ _ _ _)) (files : List StoredFile) (at : plain.State)
        (next : Option plain.State) → IsServing loans core.old files at next → HaveHulls core.old }
    ensures files { AreOutgoingRead (files_of core.old) → AreOutgoingRead (files_of core.new) }
{
    core.begin_cross()
}

/// Ends a job that is out. Where it is whole its output, or none, stands in the place of its inputs, and these are on
/// their way out; where the log could not be written, and where it is not whole, it is given up, and its output is on
/// its way out, if there is one. Then files on their way out that are not read are removed; one that cannot be removed
/// is passed over. It takes no memory.
pub fn end_job<J: Journal, F: Files>(
    core: &mut Core<J, F>,
    port: &mut F::Port,
    job: Job<F>,
    output: Option<Built<F>>,
    whole: bool,
) -> Result<(), Failed>
    requires out { IsJobOut F.Right.file core.old job }
    requires store { F.Port.store port.old ≡ store_of core.old }
    requires in_store { IsOutputOfStore F.Sealed.file (F.Port.store port.old) output }
    requires made { IfSome output (IsBuiltFor F.Right.file F.Sealed.file F.Sealed.rights job) }
    requires whole { IsTrue whole → IsOutputOf F.Right.file F.Sealed.file F.Sealed.rights job output }
    ensures answer { IsEndOf whole job core.old core.new result }
    ensures frozen { frozen_under core.new ≡ frozen_under core.old }
    ensures ends { EndsJob F.Right.file (F.Port.store port.old) job core.old core.new }
    ensures cause { OnErr result (Rose (faults_under core.old) (faults_under core.new)) }
    ensures swept { LeavesRead (F.Port.faults port.old) (F.Port.faults port.new) core.new }
    ensures same_store { F.Port.store port.new ≡ F.Port.store port.old }
    ensures later { F.Port.faults port.old ≤ F.Port.faults port.new }
{
    let ended = commit_or_give_up(core, job, output, whole);
    sweep(core, port);
    ended
}

/// Ends a job that is out, without the files on their way out.
fn commit_or_give_up<J: Journal, F: Files>(
    core: &mut Core<J, F>,
    job: Job<F>,
    output: Option<Built<F>>,
    whole: bool,
) -> Result<(), Failed>
    requires out { IsJobOut F.Right.file core.old job }
    requires in_store { IsOutputOfStore F.Sealed.file (store_of core.old) output }
    requires made { IfSome output (IsBuiltFor F.Right.file F.Sealed.file F.Sealed.rights job) }
    requires whole { IsTrue whole → IsOutputOf F.Right.file F.Sealed.file F.Sealed.rights job output }
    ensures answer { IsEndOf whole job core.old core.new result }
    ensures frozen { frozen_under core.new ≡ frozen_under core.old }
    ensures ends { (store : Store) → store ≡ store_of core.old → EndsJob F.Right.file store job core.old core.new }
    ensures same_store { store_of core.new ≡ store_of core.old }
    ensures cause { OnErr result (Rose (faults_under core.old) (faults_under core.new)) }
{
    core.sound();
    if whole {
        return list(core, job, output);
    }
    core.abandon(job, output);
    Ok(())
}

/// Lists the output of a job, by the call of its kind.
fn list<J: Journal, F: Files>(
    core: &mut Core<J, F>,
    job: Job<F>,
    output: Option<Built<F>>,
) -> Result<(), Failed>
    requires out { IsJobOut F.Right.file core.old job }
    requires output { IsOutputOf F.Right.file F.Sealed.file F.Sealed.rights job output }
    requires store { IsOutputOfStore F.Sealed.file (store_of core.old) output }
    ensures { IsJobCommit F.Right.file core.old core.new job (option_map (file_built F.Sealed.file) output) result }
{
    if job.is_cross() {
        core.commit_cross(job, output)
    } else {
        core.commit_inner(job, output)
    }
}
