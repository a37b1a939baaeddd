//! What a core that flushes is asked for, and what it stays ready for then. Depends on nothing here.
ghost use Rattle.std.specs.Prelude.{[], ◌≤◌, List};
ghost use Rattle.core_tests.specs.Ready.{IsReady, IsReadyWith, IsTakenOut};
ghost use Rattle.tsdb_tasks.specs.Files.{AreDone, new_files};
ghost use Rattle.tsdb_core.specs.Core.{store_of};
ghost use Rattle.tsdb_core.specs.Flushes.{HasEndedFlush, IsOut};
ghost use Rattle.tsdb_core.specs.Limits.{IsPairLimit};
ghost use Rattle.tsdb_core.specs.declared.commit.Commit.{Commit as HowEnded};
ghost use Rattle.tsdb_flush.specs.declared.job.FlushJob.{FlushJob as JobOf};
ghost use Rattle.tsdb_model.specs.Commands.{IsWellFormed};
ghost use Rattle.tsdb_outside.specs.Files.{Store};

use std::alloc::Global;
use tsdb_base::{Answer, FileNumber, Stamp};
use tsdb_core::{Commit, Core, CoreFault, Options};
use tsdb_fileset::KeptFiles;
use tsdb_flush::{FlushJob, Flushed};
use tsdb_memory::LoggedMemory;
use tsdb_model::Command;
use tsdb_outside::{Files, Journal};

/// The job of the oldest pair, where it was frozen at this stamp or before.
pub fn take<J: Journal, F: Files>(
    core: &mut Core<J, F>,
    upto: u64,
) -> Result<Option<FlushJob>, CoreFault>
    ensures out { (store : Store) (jobs : List JobOf) → IsReady store core.old jobs → IsTakenOut core.new result }
    ensures ready { (store : Store) (jobs : List JobOf) → IsReady store core.old jobs
        → IsReadyWith store core.new jobs result }
{
    core.take_flush(Stamp(upto))
}

/// Commits the files of a job, or gives them up.
pub fn end<J: Journal, F: Files>(
    core: &mut Core<J, F>,
    job: FlushJob,
    files: Flushed<F>,
    commits: bool,
) -> Option<Commit>
    requires out { IsOut core.old job }
    requires done { AreDone F.Sealed.file F.Sealed.rights (store_of core.old) job files }
    ensures { (commit : HowEnded) × HasEndedFlush core.old core.new job (new_files F.Sealed.file files) commit }
{
    if commits {
        return Some(core.commit_flush(job, files));
    }
    core.abandon_flush(job, files);
    None
}

/// What the core answers to a command; none where a flush has to come first, and for a query.
pub fn ask<J: Journal, F: Files>(core: &mut Core<J, F>, command: &Command) -> Option<Answer>
    requires { IsWellFormed command.now }
    ensures { (store : Store) (jobs : List JobOf) → IsReady store core.old jobs → IsReady store core.new jobs }
{
    match command {
        Command::Create(schema) => Some(core.create(schema)),
        Command::Delete { series, range } => Some(core.delete(series, range)),
        Command::Insert { device, row } if !core.needs_flush(row) => Some(core.insert(device, row)),
        _ => None,
    }
}

/// What the core answers to a freeze; none where a flush has to come first.
pub fn freeze<J: Journal, F: Files>(core: &mut Core<J, F>) -> Option<Answer>
    ensures { (store : Store) (jobs : List JobOf) → IsReady store core.old jobs → IsReady store core.new jobs }
{
    if core.frozen() < 2 {
        return Some(core.freeze());
    }
    None
}

/// A core of the store of these files over a log and memory that are new, the next file of which gets this number.
pub fn new_core<J: Journal, F: Files>(
    alloc: Global,
    logged: LoggedMemory<J>,
    files: &F,
    pair_points: u64,
    next: u64,
) -> Core<J, F>
    requires limit { IsPairLimit pair_points }
    requires next { 1 ≤ next }
    ensures { IsReady (F.store files.now) result [] }
{
    let kept = KeptFiles::new(alloc, files);
    Core::new(
        alloc,
        logged,
        kept,
        Options { pair_points },
        FileNumber(next),
    )
}
