//! The calls of a core that begin and end compactions and pins, and what is run between them. Depends on the crates
//! that it tests.
ghost use Rattle.jobs_tests.specs.Begins.{BeginsOrNot};
ghost use Rattle.jobs_tests.specs.Out.{BeginsJob, EndsJob, EndsPin, HasPin, TakesPin};
ghost use Rattle.std.specs.List.{AllByRecursion as Each};
ghost use Rattle.std.specs.Prelude.{◌≡◌, IfOk, IfSome};
ghost use Rattle.tsdb_tasks.specs.Ending.{IsOutputNumbered};
ghost use Rattle.tsdb_compactions.specs.Jobs.{IsJobFormed};
ghost use Rattle.tsdb_compactions.specs.Outputs.{IsOutputOf};
ghost use Rattle.tsdb_core.specs.Compactions.{IsJobOut};
ghost use Rattle.tsdb_core.specs.Core.{store_of};
ghost use Rattle.tsdb_inner.specs.Inputs.{IsInputOf};
ghost use Rattle.tsdb_outside.specs.Files.{Store};
ghost use Rattle.tsdb_pins.specs.Reading.{AreColumnsOf, HaveNodes};

use std::alloc::Global;
use tsdb_base::{Range, Space, Time, Value};
use tsdb_compactions::Job;
use tsdb_core::{Core, CoreFault};
use tsdb_flush::Built;
use tsdb_inner::{run_cross, run_inner};
use tsdb_model::{Command, Item, Line};
use tsdb_outside::{Failed, Files, Journal, StoreFault};
use tsdb_path::Path;
use tsdb_pin::Pin;
use tsdb_pins::select;

/// Which calls a compaction is made by.
#[derive(Clone, Copy, Debug, PartialEq, Eq)]
pub enum Kind {
    Inner(Space),
    Cross,
}

/// How a compaction began. A job is told by its born, its first four inputs, 0 for none, and the number of its output.
#[derive(Clone, Copy, Debug, PartialEq, Eq)]
pub enum Began {
    NoPlan,
    Not(CoreFault),
    Job(u64, [u64; 4], u64),
}

/// What is told of a job.
fn told_of<F: Files>(job: &Job<F>) -> Began {
    let mut inputs = [0; 4];
    for (place, input) in inputs.iter_mut().zip(job.inputs.items()) {
        *place = input.number.0;
    }
    Began::Job(job.born.0, inputs, job.output.0)
}

/// Begins a compaction, by the call of its kind.
fn call<J: Journal, F: Files>(
    core: &mut Core<J, F>,
    kind: Kind,
) -> Result<Option<Job<F>>, CoreFault>
    ensures { BeginsOrNot F.Right.file core.old core.new result }
{
    match kind {
        Kind::Inner(space) => core.begin_inner(space),
        Kind::Cross => core.begin_cross(),
    }
}

/// How a compaction began whose job this is.
fn beginning_of<F: Files>(job: &Option<Job<F>>) -> Began {
    match job {
        Some(job) => told_of(job),
        None => Began::NoPlan,
    }
}

/// Begins a compaction.
pub fn begin<J: Journal, F: Files>(core: &mut Core<J, F>, kind: Kind) -> (Began, Option<Job<F>>)
    ensures { BeginsJob F.Right.file core.old core.new result.1 }
{
    match call(core, kind) {
        Ok(job) => (beginning_of(&job), job),
        Err(fault) => (Began::Not(fault), None),
    }
}

/// Writes the output of a job.
pub fn run_job<F: Files>(
    alloc: Global,
    kind: Kind,
    job: &Job<F>,
    port: &mut F::Port,
) -> Result<Option<Built<F>>, StoreFault>
    requires formed { IsJobFormed job.now }
    requires of_store { Each (IsInputOf F.Right.file (F.Port.store port.old)) job.now.inputs }
    ensures output { IfOk result (IsOutputOf F.Right.file F.Sealed.file F.Sealed.rights job.now) }
    ensures of_store { IfOk result (λ output. IfSome output (λ built.
        (F.Sealed.file built.sealed).store ≡ F.Port.store port.old)) }
    ensures same_store { F.Port.store port.new ≡ F.Port.store port.old }
{
    match kind {
        Kind::Inner(_) => run_inner(alloc, job, port),
        Kind::Cross => run_cross(alloc, job, port),
    }
}

/// How many points an output has: 0 where there is none.
pub fn points_of<F: Files>(output: &Option<Built<F>>) -> u64 {
    match output {
        Some(built) => built.entry.points,
        None => 0,
    }
}

/// Commits a job with its output.
pub fn commit<J: Journal, F: Files>(
    core: &mut Core<J, F>,
    job: Job<F>,
    output: Option<Built<F>>,
) -> Result<(), Failed>
    requires out { IsJobOut F.Right.file core.old job }
    requires output { IsOutputOf F.Right.file F.Sealed.file F.Sealed.rights job output }
    requires store { IfSome output (λ built. (F.Sealed.file built.sealed).store ≡ store_of core.old) }
    ensures { (store : Store) → EndsJob F.Right.file store core.old core.new job }
{
    if job.is_cross() {
        core.commit_cross(job, output)
    } else {
        core.commit_inner(job, output)
    }
}

/// Gives a job up, with its output, if there is one.
pub fn give_up<J: Journal, F: Files>(core: &mut Core<J, F>, job: Job<F>, output: Option<Built<F>>)
    requires out { IsJobOut F.Right.file core.old job }
    requires output { IfSome output (IsOutputNumbered F.Sealed.rights job) }
    requires store { IfSome output (λ built. (F.Sealed.file built.sealed).store ≡ store_of core.old) }
    ensures { (store : Store) → EndsJob F.Right.file store core.old core.new job }
{
    core.abandon(job, output);
}

/// Takes a pin of items of a device, where it may be taken.
fn take_pin<J: Journal, F: Files>(
    core: &mut Core<J, F>,
    device: &Path,
    items: &[Item],
    range: &Range,
) -> Option<Pin<F>>
    ensures { TakesPin F.Right.file core.old core.new result }
{
    match core.pin(device, items, range) {
        Ok(pin) => Some(pin),
        Err(_) => None,
    }
}

/// Takes a pin of what a select asks for.
pub fn pin<J: Journal, F: Files>(core: &mut Core<J, F>, command: &Command) -> Option<Pin<F>>
    ensures { TakesPin F.Right.file core.old core.new result }
{
    match command {
        Command::Select {
            device,
            items,
            range,
        } => take_pin::<J, F>(core, device, items.items(), range),
        _ => None,
    }
}

/// Gives a pin back.
pub fn unpin<J: Journal, F: Files>(core: &mut Core<J, F>, pin: Pin<F>)
    requires { (store : Store) × HasPin F.Right.file store core.old pin }
    ensures { (store : Store) → EndsPin F.Right.file store core.old core.new pin }
{
    core.unpin(pin);
}

/// What the rows of a pin have at three times, and how many rows there are.
#[derive(Clone, Copy, Debug, PartialEq, Eq)]
pub struct Rows(pub [Option<i64>; 3], pub usize);

/// The value of `s` in a row.
fn value_of(line: &Line) -> Option<i64> {
    match line.values.items() {
        [Some(Value::I64(value))] => Some(*value),
        _ => None,
    }
}

/// The value at a time.
fn value_at(lines: &[Line], time: Time) -> Option<i64> {
    lines
        .iter()
        .find(|line| line.time == time)
        .and_then(value_of)
}

/// What the rows have at these times.
fn rows_at(lines: &[Line], times: [Time; 3]) -> Rows {
    let at = [
        value_at(lines, times[0]),
        value_at(lines, times[1]),
        value_at(lines, times[2]),
    ];
    Rows(at, lines.len())
}

/// The rows of a pin, where its files can be read.
pub fn read<F: Files>(
    alloc: Global,
    port: &mut F::Port,
    pin: &Pin<F>,
    times: [Time; 3],
) -> Option<Rows>
    requires nodes { HaveNodes pin.now.columns }
    requires of_store { AreColumnsOf F.Right.file (F.Port.store port.old) pin.now.columns }
    ensures { F.Port.store port.new ≡ F.Port.store port.old }
{
    match select::<F>(alloc, pin, port) {
        Ok(lines) => Some(rows_at(&lines, times)),
        Err(_) => None,
    }
}
