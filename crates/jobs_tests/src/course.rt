//! A course of a core: a compaction under a pin, with steps before it, while it is out, and behind it. Depends on
//! `calls`, `jobs` and `served`.
ghost use Rattle.jobs_tests.specs.Out.{AreHandedOn, EndsJob, EndsPin, HasJob, HasPin, IsHandedOn, IsKept};
ghost use Rattle.std.specs.Prelude.{◌≡◌, [], ◌≤◌, IfSome};
ghost use Rattle.tsdb_compactions.specs.Outputs.{IsOutputOf};
ghost use Rattle.tsdb_core.specs.Compactions.{IsJobOut};
ghost use Rattle.tsdb_core.specs.Core.{store_of};
ghost use Rattle.tsdb_core.specs.Loans.{KeepsLoans};
ghost use Rattle.tsdb_model.specs.Commands.{IsWellFormed};
ghost use Rattle.tsdb_outside.specs.Files.{Store};

use crate::calls::{command_of, delete_command, flush, is_done, put_command, sweep};
use crate::jobs::{
    Began, Kind, Rows, begin, commit, give_up, pin, points_of, read, run_job, unpin,
};
use crate::served::new_place;
use mem_outside::{MemFiles, MemJournal};
use std::alloc::Global;
use std::test::Fail;
use tsdb_base::{FileNumber, Time};
use tsdb_compactions::Job;
use tsdb_core::{Core, Options};
use tsdb_fileset::KeptFiles;
use tsdb_flush::Built;
use tsdb_frames::Frames;
use tsdb_memory::{LoggedMemory, MemoryStore};
use tsdb_model::{Command, Reply};
use tsdb_outside::{Failed, Files, Journal, Place, Slot};
use tsdb_pin::Pin;
use tsdb_print::print_reply;

/// A step that begins and ends nothing, or begins and ends a flush or a compaction.
#[derive(Clone, Copy, Debug, PartialEq, Eq)]
pub enum Step {
    Create,
    /// Writes a value into `s` at a time.
    Put(Time, i64),
    /// Deletes a range from `s`.
    Delete(Time, Time),
    /// Freezes the working pair and flushes the oldest pair.
    Flush,
    Sweep,
    /// Begins a compaction, runs it, and commits it, where there is a plan.
    Compact(Kind),
}

/// Steps; a pin of `s`; a compaction that begins, steps, its run, steps, and its end; steps; and what the pin reads.
#[derive(Clone, Copy)]
pub struct Course<'a> {
    pub before: &'a [Step],
    pub kind: Kind,
    pub meanwhile: &'a [Step],
    pub written: &'a [Step],
    pub commits: bool,
    pub behind: &'a [Step],
    pub times: [Time; 3],
}

/// What came of a compaction: how it began, how many points its output has, where it could be written, and how its
/// commit went, where it was not given up.
#[derive(Clone, Copy, Debug, PartialEq, Eq)]
pub struct Compacted(pub Began, pub Option<u64>, pub Option<Result<(), Failed>>);

/// What is seen of a course: the compaction; what the pin reads behind it; how many files a sweep removes before the
/// pin is given back, and one behind that; and what a new pin reads then.
#[derive(Clone, Copy, Debug, PartialEq, Eq)]
pub struct Seen {
    pub compacted: Compacted,
    pub pinned: Option<Rows>,
    pub swept: [Result<u64, Failed>; 2],
    pub rows: Option<Rows>,
}

/// Ends a job with its output.
fn end<J: Journal, F: Files>(
    core: &mut Core<J, F>,
    job: Job<F>,
    output: Option<Built<F>>,
    commits: bool,
) -> Option<Result<(), Failed>>
    requires out { IsJobOut F.Right.file core.old job }
    requires output { IsOutputOf F.Right.file F.Sealed.file F.Sealed.rights job output }
    requires store { IfSome output (λ built. (F.Sealed.file built.sealed).store ≡ store_of core.old) }
    ensures { (store : Store) → EndsJob F.Right.file store core.old core.new job }
{
    if commits {
        return Some(commit(core, job, output));
    }
    give_up(core, job, output);
    None
}

/// Runs a job and commits it. Whether it went well.
fn rewrite<J: Journal, F: Files>(
    alloc: Global,
    core: &mut Core<J, F>,
    port: &mut F::Port,
    kind: Kind,
    job: Job<F>,
) -> bool
    requires { HasJob F.Right.file (F.Port.store port.old) core.old job }
    ensures ends { EndsJob F.Right.file (F.Port.store port.old) core.old core.new job }
    ensures same_store { F.Port.store port.new ≡ F.Port.store port.old }
{
    core.sound();
    match run_job::<F>(alloc, kind, &job, port) {
        Ok(output) => commit(core, job, output).is_ok(),
        Err(_) => {
            give_up(core, job, None);
            false
        }
    }
}

/// Begins a compaction, runs it, and commits it. Whether it went well, or there is no plan.
fn compact<J: Journal, F: Files>(
    alloc: Global,
    core: &mut Core<J, F>,
    port: &mut F::Port,
    kind: Kind,
) -> bool
    requires { IsKept (F.Port.store port.old) core.old }
    ensures hands { IsHandedOn (F.Port.store port.old) core.old core.new }
    ensures same_store { F.Port.store port.new ≡ F.Port.store port.old }
{
    let (began, job) = begin(core, kind);
    match job {
        Some(job) => rewrite::<J, F>(alloc, core, port, kind, job),
        None => began == Began::NoPlan,
    }
}

/// Whether there is a command, and the core does it.
fn change<J: Journal, F: Files>(core: &mut Core<J, F>, command: Option<Command>) -> bool
    requires { IfSome command IsWellFormed }
    ensures { AreHandedOn core.old core.new }
{
    match command {
        Some(command) => is_done(core, &command),
        None => false,
    }
}

const CREATE: &str = "1 create timeseries root.g.d.s with datatype=INT64,encoding=PLAIN";

/// Takes a step. Whether it went well.
fn take_step<J: Journal, F: Files>(
    alloc: Global,
    core: &mut Core<J, F>,
    port: &mut F::Port,
    step: Step,
) -> bool
    requires { IsKept (F.Port.store port.old) core.old }
    ensures hands { IsHandedOn (F.Port.store port.old) core.old core.new }
    ensures same_store { F.Port.store port.new ≡ F.Port.store port.old }
{
    match step {
        Step::Create => change(core, command_of(alloc, CREATE)),
        Step::Put(time, value) => change(core, put_command(alloc, time, value)),
        Step::Delete(from, to) => change(core, delete_command(alloc, from, to)),
        Step::Flush => flush::<J, F>(alloc, core, port),
        Step::Sweep => sweep::<J, F>(core, port).is_ok(),
        Step::Compact(kind) => compact::<J, F>(alloc, core, port, kind),
    }
}

/// Takes steps. Whether each went well.
fn take_steps<J: Journal, F: Files>(
    alloc: Global,
    core: &mut Core<J, F>,
    port: &mut F::Port,
    steps: &[Step],
) -> bool
    requires { IsKept (F.Port.store port.old) core.old }
    ensures hands { IsHandedOn (F.Port.store port.old) core.old core.new }
    ensures same_store { F.Port.store port.new ≡ F.Port.store port.old }
{
    for place in 0..steps.len() {
        if !take_step::<J, F>(alloc, core, port, steps[place]) {
            return false;
        }
    }
    true
}

/// A compaction that could not be written, and was given up, or none.
fn nothing(began: Began) -> Compacted {
    Compacted(began, None, None)
}

/// Takes steps once the output of a job is written, and ends the job.
fn finish<J: Journal, F: Files>(
    alloc: Global,
    core: &mut Core<J, F>,
    port: &mut F::Port,
    job: Job<F>,
    output: Option<Built<F>>,
    course: Course<'_>,
) -> Option<Option<Result<(), Failed>>>
    requires job { HasJob F.Right.file (F.Port.store port.old) core.old job }
    requires output { IsOutputOf F.Right.file F.Sealed.file F.Sealed.rights job output }
    requires of_store { IfSome output (λ built. (F.Sealed.file built.sealed).store ≡ F.Port.store port.old) }
    ensures ends { EndsJob F.Right.file (F.Port.store port.old) core.old core.new job }
    ensures same_store { F.Port.store port.new ≡ F.Port.store port.old }
{
    let done = take_steps::<J, F>(alloc, core, port, course.written);
    let ended = end(core, job, output, course.commits);
    done.then_some(ended)
}

/// Runs a job, takes steps, and ends the job. None where a step did not go well.
fn write<J: Journal, F: Files>(
    alloc: Global,
    core: &mut Core<J, F>,
    port: &mut F::Port,
    began: Began,
    job: Job<F>,
    course: Course<'_>,
) -> Option<Compacted>
    requires { HasJob F.Right.file (F.Port.store port.old) core.old job }
    ensures ends { EndsJob F.Right.file (F.Port.store port.old) core.old core.new job }
    ensures same_store { F.Port.store port.new ≡ F.Port.store port.old }
{
    core.sound();
    match run_job::<F>(alloc, course.kind, &job, port) {
        Ok(output) => {
            let points = Some(points_of(&output));
            let ended = finish::<J, F>(alloc, core, port, job, output, course);
            ended.map(|ended| Compacted(began, points, ended))
        }
        Err(_) => {
            give_up(core, job, None);
            Some(nothing(began))
        }
    }
}

/// Takes steps while a job is out, and then runs and ends it. None where a step did not go well.
fn during<J: Journal, F: Files>(
    alloc: Global,
    core: &mut Core<J, F>,
    port: &mut F::Port,
    began: Began,
    job: Job<F>,
    course: Course<'_>,
) -> Option<Compacted>
    requires { HasJob F.Right.file (F.Port.store port.old) core.old job }
    ensures ends { EndsJob F.Right.file (F.Port.store port.old) core.old core.new job }
    ensures same_store { F.Port.store port.new ≡ F.Port.store port.old }
{
    let done = take_steps::<J, F>(alloc, core, port, course.meanwhile);
    let compacted = write::<J, F>(alloc, core, port, began, job, course);
    if done { compacted } else { None }
}

/// Begins the compaction of a course, and ends it.
fn compact_course<J: Journal, F: Files>(
    alloc: Global,
    core: &mut Core<J, F>,
    port: &mut F::Port,
    course: Course<'_>,
) -> Option<Compacted>
    requires { IsKept (F.Port.store port.old) core.old }
    ensures hands { IsHandedOn (F.Port.store port.old) core.old core.new }
    ensures same_store { F.Port.store port.new ≡ F.Port.store port.old }
{
    let (began, job) = begin(core, course.kind);
    match job {
        Some(job) => during::<J, F>(alloc, core, port, began, job, course),
        None => Some(nothing(began)),
    }
}

/// What is seen of a course while its pin is held.
#[derive(Clone, Copy)]
struct UnderPin {
    compacted: Compacted,
    rows: Option<Rows>,
    swept: Result<u64, Failed>,
}

/// The compaction of a course, the steps behind it, and a sweep. None where a step did not go well.
fn take_course<J: Journal, F: Files>(
    alloc: Global,
    core: &mut Core<J, F>,
    port: &mut F::Port,
    course: Course<'_>,
) -> Option<(Compacted, Result<u64, Failed>)>
    requires { IsKept (F.Port.store port.old) core.old }
    ensures hands { IsHandedOn (F.Port.store port.old) core.old core.new }
    ensures same_store { F.Port.store port.new ≡ F.Port.store port.old }
{
    let compacted = compact_course::<J, F>(alloc, core, port, course);
    let done = take_steps::<J, F>(alloc, core, port, course.behind);
    let swept = sweep::<J, F>(core, port);
    match compacted {
        Some(compacted) if done => Some((compacted, swept)),
        _ => None,
    }
}

/// Reads a pin behind the compaction, and gives it back.
fn under_pin<J: Journal, F: Files>(
    alloc: Global,
    core: &mut Core<J, F>,
    port: &mut F::Port,
    pin: Pin<F>,
    course: Course<'_>,
) -> Option<UnderPin>
    requires { HasPin F.Right.file (F.Port.store port.old) core.old pin }
    ensures gives { EndsPin F.Right.file (F.Port.store port.old) core.old core.new pin }
    ensures same_store { F.Port.store port.new ≡ F.Port.store port.old }
{
    let taken = take_course::<J, F>(alloc, core, port, course);
    core.sound();
    let rows = read::<F>(alloc, port, &pin, course.times);
    unpin(core, pin);
    taken.map(|(compacted, swept)| UnderPin {
        compacted,
        rows,
        swept,
    })
}

/// The same under a new pin.
fn lead_pinned<J: Journal, F: Files>(
    alloc: Global,
    core: &mut Core<J, F>,
    port: &mut F::Port,
    command: &Command,
    course: Course<'_>,
) -> Option<UnderPin>
    requires { IsKept (F.Port.store port.old) core.old }
    ensures hands { IsHandedOn (F.Port.store port.old) core.old core.new }
    ensures same_store { F.Port.store port.new ≡ F.Port.store port.old }
{
    match pin(core, command) {
        Some(pin) => under_pin::<J, F>(alloc, core, port, pin, course),
        None => None,
    }
}

/// What a new pin reads, before it is given back.
fn look<J: Journal, F: Files>(
    alloc: Global,
    core: &mut Core<J, F>,
    port: &mut F::Port,
    command: &Command,
    times: [Time; 3],
) -> Option<Rows>
    requires { IsKept (F.Port.store port.old) core.old }
    ensures hands { IsHandedOn (F.Port.store port.old) core.old core.new }
    ensures same_store { F.Port.store port.new ≡ F.Port.store port.old }
{
    match pin(core, command) {
        Some(pin) => {
            core.sound();
            let rows = read::<F>(alloc, port, &pin, times);
            unpin(core, pin);
            rows
        }
        None => None,
    }
}

/// What is seen of a course behind the steps before it.
fn see<J: Journal, F: Files>(
    alloc: Global,
    core: &mut Core<J, F>,
    port: &mut F::Port,
    command: &Command,
    course: Course<'_>,
) -> Option<Seen>
    requires { IsKept (F.Port.store port.old) core.old }
    ensures hands { IsHandedOn (F.Port.store port.old) core.old core.new }
    ensures same_store { F.Port.store port.new ≡ F.Port.store port.old }
{
    let first = lead_pinned::<J, F>(alloc, core, port, command, course);
    let swept = sweep::<J, F>(core, port);
    let rows = look::<J, F>(alloc, core, port, command, course.times);
    first.map(|first| Seen {
        compacted: first.compacted,
        pinned: first.rows,
        swept: [first.swept, swept],
        rows,
    })
}

/// Leads a core through a course. None where a step did not go well.
fn follow<J: Journal, F: Files>(
    alloc: Global,
    core: &mut Core<J, F>,
    port: &mut F::Port,
    course: Course<'_>,
) -> Option<Seen>
    requires { IsKept (F.Port.store port.old) core.old }
    ensures hands { IsHandedOn (F.Port.store port.old) core.old core.new }
    ensures same_store { F.Port.store port.new ≡ F.Port.store port.old }
{
    let done = take_steps::<J, F>(alloc, core, port, course.before);
    match command_of(alloc, "1 select s from root.g.d") {
        Some(command) if done => see::<J, F>(alloc, core, port, &command, course),
        _ => None,
    }
}

/// A course, with what has to be seen of it, and the listing behind it.
#[derive(Clone, Copy)]
pub struct Case<'a> {
    pub course: Course<'a>,
    pub seen: Seen,
    pub listing: &'a str,
}

/// Whether the listing is printed so.
fn is_listed<J: Journal, F: Files>(
    alloc: Global,
    core: &Core<J, F>,
    listing: &str,
) -> Result<bool, Fail> {
    let files = Reply::Files(core.show()?);
    let printed = print_reply(alloc, &Command::ShowFiles, &files)?;
    Ok(printed.as_slice() == listing.as_bytes())
}

/// Whether a core that is led through a course is seen so, and has the listing behind it.
fn is_seen<J: Journal, F: Files>(
    alloc: Global,
    core: &mut Core<J, F>,
    port: &mut F::Port,
    case: Case<'_>,
) -> Result<bool, Fail>
    requires { IsKept (F.Port.store port.old) core.old }
    ensures hands { IsHandedOn (F.Port.store port.old) core.old core.new }
    ensures same_store { F.Port.store port.new ≡ F.Port.store port.old }
{
    let seen = follow::<J, F>(alloc, core, port, case.course);
    if seen == Some(case.seen) {
        return is_listed(alloc, core, case.listing);
    }
    Ok(false)
}

/// Leads a core through the courses. The first one that is not seen so.
fn first_other<J: Journal, F: Files>(
    alloc: Global,
    core: &mut Core<J, F>,
    port: &mut F::Port,
    cases: &[Case<'_>],
) -> Result<Option<usize>, Fail>
    requires { IsKept (F.Port.store port.old) core.old }
    ensures hands { IsHandedOn (F.Port.store port.old) core.old core.new }
    ensures same_store { F.Port.store port.new ≡ F.Port.store port.old }
{
    for place in 0..cases.len() {
        if !is_seen::<J, F>(alloc, core, port, cases[place])? {
            return Ok(Some(place));
        }
    }
    Ok(None)
}

/// A core of the store of these files over a log and memory that are new, the next file of which gets this number.
fn new_core<J: Journal, F: Files>(
    alloc: Global,
    logged: LoggedMemory<J>,
    files: &F,
    next: u64,
) -> Core<J, F>
    requires { 1 ≤ next }
    ensures loans { KeepsLoans result [] [] [] }
    ensures of_store { F.store files.now ≡ store_of result }
{
    let kept = KeptFiles::new(alloc, files);
    let options = Options { pair_points: 2 };
    Core::new(alloc, logged, kept, options, FileNumber(next))
}

/// Leads a new core through the courses, and closes it.
fn lead<J: Journal, F: Files>(
    alloc: Global,
    logged: LoggedMemory<J>,
    port: &mut F::Port,
    files: &mut F,
    next: u64,
    cases: &[Case<'_>],
) -> (Result<Option<usize>, Fail>, J)
    requires next { 1 ≤ next }
    requires same { F.store files.old ≡ F.Port.store port.old }
    ensures { F.store files.new ≡ F.Port.store port.new }
{
    let mut core = new_core::<J, F>(alloc, logged, files, next);
    let other = first_other::<J, F>(alloc, &mut core, port, cases);
    (other, core.close(files))
}

/// The first of the courses over one new store that is not seen so, where these calls of the journal and of the files
/// fail, and the next file gets this number.
pub fn first_wrong(
    alloc: Global,
    next: u64,
    cases: &[Case<'_>],
    journal: &[u64],
    files: &[u64],
) -> Result<Option<usize>, Fail> {
    let mut place = new_place(alloc, journal, files)?;
    let (journal, mut files) = place.take_up(b"d")?;
    let mut port = files.port()?;
    let Ok((frames, _)) = Frames::scan(alloc, journal, Slot::A) else {
        return Err(Fail::from("a log"));
    };
    if next == 0 {
        return Err(Fail::from("a number"));
    }
    let logged = LoggedMemory::new(alloc, frames, MemoryStore::new(alloc));
    let (other, journal) = lead::<MemJournal, MemFiles>(
        alloc, logged, &mut port, &mut files, next, cases,
    );
    files.end_port(port);
    place.put_down(journal, files);
    other
}
