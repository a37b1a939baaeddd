//! Calls of a core that begin and end nothing, or begin and end a flush. Depends on the crates that it tests.
ghost use Rattle.jobs_tests.specs.Out.{AreHandedOn, EndsFlush, HasFlush, IsHandedOn, IsKept, TakesFlush};
ghost use Rattle.std.specs.Prelude.{◌≡◌, IfSome};
ghost use Rattle.tsdb_tasks.specs.Files.{AreDone, new_files};
ghost use Rattle.tsdb_core.specs.Core.{store_of};
ghost use Rattle.tsdb_core.specs.Flushes as flushes;
ghost use Rattle.tsdb_model.specs.Commands.{IsWellFormed};

use std::alloc::Global;
use tsdb_base::{Answer, Stamp, Time};
use tsdb_core::{Commit, Core};
use tsdb_flush::{FlushJob, FlushRefused, Flushed, run_flush};
use tsdb_model::Command;
use tsdb_outside::{Failed, Files, Journal};
use tsdb_script::read_script;

/// Whether the core does a command, where it may be asked for it.
pub fn is_done<J: Journal, F: Files>(core: &mut Core<J, F>, command: &Command) -> bool
    requires { IsWellFormed command.now }
    ensures { AreHandedOn core.old core.new }
{
    match command {
        Command::Create(schema) => core.create(schema) == Answer::Done,
        Command::Delete { series, range } => core.delete(series, range) == Answer::Done,
        Command::Insert { device, row } if !core.needs_flush(row) => {
            core.insert(device, row) == Answer::Done
        }
        _ => false,
    }
}

/// Freezes the working pair, where the core may be asked for it.
fn freeze<J: Journal, F: Files>(core: &mut Core<J, F>) -> bool
    ensures { AreHandedOn core.old core.new }
{
    if core.frozen() < 2 {
        return core.freeze() == Answer::Done;
    }
    false
}

/// The job of the oldest pair, where there is one and a number is left.
fn take<J: Journal, F: Files>(core: &mut Core<J, F>) -> Option<FlushJob>
    ensures { TakesFlush core.old core.new result }
{
    match core.take_flush(Stamp(u64::MAX)) {
        Ok(job) => job,
        Err(_) => None,
    }
}

/// Commits the files of a flush.
fn commit<J: Journal, F: Files>(core: &mut Core<J, F>, job: FlushJob, files: Flushed<F>) -> Commit
    requires out { flushes.IsOut core.old job }
    requires done { AreDone F.Sealed.file F.Sealed.rights (store_of core.old) job files }
    ensures { flushes.HasEndedFlush core.old core.new job (new_files F.Sealed.file files) result }
{
    core.commit_flush(job, files)
}

/// Writes the files of a flush and commits them. It is given up where they cannot be put.
fn run<J: Journal, F: Files>(
    alloc: Global,
    core: &mut Core<J, F>,
    port: &mut F::Port,
    job: FlushJob,
) -> bool
    requires { HasFlush (F.Port.store port.old) core.old job }
    ensures hands { EndsFlush (F.Port.store port.old) core.old core.new job }
    ensures same_store { F.Port.store port.new ≡ F.Port.store port.old }
{
    match run_flush::<F>(alloc, &job, port) {
        Ok(files) => commit(core, job, files) == Commit::Done,
        Err(FlushRefused { files, fault: _ }) => {
            core.abandon_flush(job, files);
            false
        }
    }
}

/// Freezes the working pair, where it may, and flushes the oldest pair. Whether there is one, and it is committed.
pub fn flush<J: Journal, F: Files>(alloc: Global, core: &mut Core<J, F>, port: &mut F::Port) -> bool
    requires { IsKept (F.Port.store port.old) core.old }
    ensures hands { IsHandedOn (F.Port.store port.old) core.old core.new }
    ensures same_store { F.Port.store port.new ≡ F.Port.store port.old }
{
    freeze(core);
    match take(core) {
        Some(job) => run::<J, F>(alloc, core, port, job),
        None => false,
    }
}

/// Sweeps the files that are on their way out.
pub fn sweep<J: Journal, F: Files>(core: &mut Core<J, F>, port: &mut F::Port) -> Result<u64, Failed>
    requires { IsKept (F.Port.store port.old) core.old }
    ensures hands { IsHandedOn (F.Port.store port.old) core.old core.new }
    ensures same_store { F.Port.store port.new ≡ F.Port.store port.old }
{
    core.sweep(port)
}

/// The command of a line of a script, where it is one.
pub fn command_of(alloc: Global, line: &str) -> Option<Command>
    ensures { IfSome result IsWellFormed }
{
    match read_script(alloc, line.as_bytes()) {
        Ok(mut commands) => match commands.pop() {
            Some(numbered) => Some(numbered.command),
            None => None,
        },
        Err(_) => None,
    }
}

/// The command that writes a value into `s` at a time.
pub fn put_command(alloc: Global, time: Time, value: i64) -> Option<Command>
    ensures { IfSome result IsWellFormed }
{
    match format!(in alloc; "1 insert into root.g.d(timestamp,s) values({time},{value})") {
        Ok(line) => command_of(alloc, line.as_str()),
        Err(_) => None,
    }
}

/// The command that deletes a range from `s`.
pub fn delete_command(alloc: Global, from: Time, to: Time) -> Option<Command>
    ensures { IfSome result IsWellFormed }
{
    match format!(in alloc; "1 delete from root.g.d.s where time>={from} and time<={to}") {
        Ok(line) => command_of(alloc, line.as_str()),
        Err(_) => None,
    }
}
