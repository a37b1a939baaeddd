//! Cores with files over places in memory, and the steps that they are led through. Depends on `asking` and
//! `words`.
ghost use Rattle.std.specs.Prelude.{◌≡◌, [], ◌∷◌, List, IfOk, IfSome};
ghost use Rattle.std.proofs.Props.{props};
ghost use Rattle.core_tests.specs.Ready.{IsReady};
ghost use Rattle.tsdb_core.specs.Core.{store_of};
ghost use Rattle.tsdb_core.specs.Flushes.{IsOut};
ghost use Rattle.tsdb_flush.specs.Jobs.{IsJob};
ghost use Rattle.tsdb_flush.specs.declared.job.FlushJob.{FlushJob as JobOf};
ghost use Rattle.tsdb_base.specs.Lists.{IsWithOne};
ghost use Rattle.tsdb_model.specs.Commands.{IsWellFormed};

use crate::asking::{ask, end, freeze, new_core, take};
use crate::words::command_of;
use mem_outside::{MemFiles, MemJournal, MemPlace};
use std::alloc::Global;
use std::test::Fail;
use tests_support as lines;
use tsdb_base::{Answer, Space, Stamp, Time};
use tsdb_core::{Commit, Core, CoreFault};
use tsdb_flush::{FlushJob, FlushRefused, run_flush};
use tsdb_frames::Frames;
use tsdb_memory::{LoggedMemory, MemoryStore};
use tsdb_model::{Command, Reply};
use tsdb_outside::{Failed, Files, Journal, Place, Slot};
use tsdb_print::print_reply;

/// A step of a list.
#[derive(Clone, Copy)]
pub enum Step {
    /// A command or a freeze, as `words` has them. A row writes 1.
    Ask(&'static str),
    /// These words, one after another, up to the first that is not done.
    Asks(&'static [&'static str]),
    /// A row of a word, which writes this value.
    Write(&'static str, i64),
    /// The command of a line of a script.
    Line(&'static str),
    /// Writes a text of the most bytes into `s` at each of so many times, from 0 on.
    Texts(Time),
    /// Looks whether the row of a word needs a flush.
    Needs(&'static str),
    /// Looks whether a text of so many bytes for `s` needs a flush.
    TextNeeds(usize),
    /// Takes the oldest pair that was frozen at this stamp or before, writes its files, and commits them.
    Flush(u64),
    /// Gives the flush up in place of its commit.
    GiveUp,
    /// Takes two jobs of one pair, and commits one after the other.
    Twice,
    Sweep,
    /// Looks at how many pairs are frozen, how many files are on their way out, and how many are listed.
    Look,
}

/// What came of a step.
#[derive(Clone, Copy, PartialEq, Eq)]
pub enum Came {
    /// What was answered; none where a flush has to come before the row or the freeze.
    Answered(Option<Answer>),
    /// Whether the row needs a flush; none for what is no row.
    Needs(Option<bool>),
    NotDue,
    NotTaken(CoreFault),
    /// How a flush was committed; none where it was given up.
    Ended(Option<Commit>),
    EndedTwice(Option<Commit>, Option<Commit>),
    Swept(Result<u64, Failed>),
    Has(u64, usize, usize),
}

/// The most bytes of a text.
const LONGEST: usize = 65_535;

/// The command that writes a text of so many bytes at a time into `s`.
fn text_command(alloc: Global, time: Time, length: usize) -> Result<Command, Fail>
    ensures { IfOk result IsWellFormed }
{
    let text = "x".repeat(alloc, length)?;
    let line = format!(in alloc; "insert into root.g.d(timestamp,s) values({time},'{text}')")?;
    lines::command_of(alloc, line.as_str())
}

/// The command of a step, where it has one.
fn command_in(alloc: Global, step: Step) -> Result<Option<Command>, Fail>
    ensures { IfOk result (λ command. IfSome command IsWellFormed) }
{
    match step {
        Step::Ask(word) | Step::Needs(word) => command_of(alloc, word, 1),
        Step::Write(word, value) => command_of(alloc, word, value),
        Step::Line(line) => Ok(Some(lines::command_of(alloc, line)?)),
        Step::TextNeeds(length) => Ok(Some(text_command(alloc, 2_000, length)?)),
        _ => Ok(None),
    }
}

/// Writes the files of a job, and commits them, or gives them up. It is given up too where they cannot be put.
fn run<J: Journal, F: Files>(
    alloc: Global,
    core: &mut Core<J, F>,
    port: &mut F::Port,
    job: FlushJob,
    commits: bool,
) -> Option<Commit>
    requires is_job { IsJob job }
    requires out { IsOut core.old job }
    requires port { F.Port.store port.old ≡ store_of core.old }
    ensures ready { (others jobs : List JobOf) → IsWithOne job others jobs
        → IsReady (F.Port.store port.old) core.old jobs → IsReady (F.Port.store port.old) core.new others }
    ensures same_store { F.Port.store port.new ≡ F.Port.store port.old }
{
    match run_flush::<F>(alloc, &job, port) {
        Ok(files) => end(core, job, files, commits),
        Err(FlushRefused { files, fault: _ }) => {
            core.abandon_flush(job, files);
            None
        }
    }
}

/// Flushes the oldest pair, where it is due.
fn flush<J: Journal, F: Files>(
    alloc: Global,
    core: &mut Core<J, F>,
    port: &mut F::Port,
    upto: u64,
    commits: bool,
) -> Came
    requires ready { IsReady (F.Port.store port.old) core.old [] }
    ensures ready { IsReady (F.Port.store port.new) core.new [] }
    ensures same_store { F.Port.store port.new ≡ F.Port.store port.old }
{
    match take(core, upto) {
        Ok(Some(job)) => Came::Ended(run::<J, F>(alloc, core, port, job, commits)),
        Ok(None) => Came::NotDue,
        Err(fault) => Came::NotTaken(fault),
    }
}

/// Takes one more job of the pair of a job that is out, and commits both.
fn run_twice<J: Journal, F: Files>(
    alloc: Global,
    core: &mut Core<J, F>,
    port: &mut F::Port,
    first: FlushJob,
) -> Came
    requires is_job { IsJob first }
    requires ready { IsReady (F.Port.store port.old) core.old (first ∷ []) }
    ensures ready { IsReady (F.Port.store port.new) core.new [] }
    ensures same_store { F.Port.store port.new ≡ F.Port.store port.old }
{
    match take(core, u64::MAX) {
        Ok(Some(second)) => {
            let first = run::<J, F>(alloc, core, port, first, true);
            let second = run::<J, F>(alloc, core, port, second, true);
            Came::EndedTwice(first, second)
        }
        Ok(None) => Came::Ended(run::<J, F>(alloc, core, port, first, true)),
        Err(fault) => {
            let _ = run::<J, F>(alloc, core, port, first, false);
            Came::NotTaken(fault)
        }
    }
}

/// Commits two jobs of the oldest pair.
fn flush_twice<J: Journal, F: Files>(
    alloc: Global,
    core: &mut Core<J, F>,
    port: &mut F::Port,
) -> Came
    requires ready { IsReady (F.Port.store port.old) core.old [] }
    ensures ready { IsReady (F.Port.store port.new) core.new [] }
    ensures same_store { F.Port.store port.new ≡ F.Port.store port.old }
{
    match take(core, u64::MAX) {
        Ok(Some(job)) => run_twice::<J, F>(alloc, core, port, job),
        Ok(None) => Came::NotDue,
        Err(fault) => Came::NotTaken(fault),
    }
}

/// Sweeps the files that are on their way out.
fn sweep<J: Journal, F: Files>(core: &mut Core<J, F>, port: &mut F::Port) -> Came
    requires ready { IsReady (F.Port.store port.old) core.old [] }
    ensures ready { IsReady (F.Port.store port.new) core.new [] }
    ensures same_store { F.Port.store port.new ≡ F.Port.store port.old }
{
    Came::Swept(core.sweep(port))
}

/// A core without a job that is out, with its files and a port of theirs.
pub struct Stored<J: Journal, F: Files> {
    core: Core<J, F>,
    port: F::Port,
    files: F,
    ghost ready: { IsReady (F.Port.store port) core [] } by { Prim.hlevel props },
    ghost same: { F.store files ≡ F.Port.store port },
}

impl<J: Journal, F: Files> Stored<J, F> {
    /// What the core answers to a command, where it may be asked.
    pub fn ask(&mut self, command: &Command) -> Option<Answer>
        requires { IsWellFormed command.now }
    {
        ask(&mut self.core, command)
    }

    /// What the core answers to a freeze, where it may be asked.
    pub fn freeze(&mut self) -> Option<Answer> {
        freeze(&mut self.core)
    }

    /// Takes a step.
    pub fn go(&mut self, alloc: Global, step: Step) -> Result<Came, Fail> {
        match command_in(alloc, step)? {
            Some(command) => Ok(self.go_by_command(step, &command)),
            None => self.go_without_command(alloc, step),
        }
    }

    fn go_by_command(&mut self, step: Step, command: &Command) -> Came
        requires { IsWellFormed command.now }
    {
        match step {
            Step::Needs(_) | Step::TextNeeds(_) => match command {
                Command::Insert { row, .. } => Came::Needs(Some(self.core.needs_flush(row))),
                _ => Came::Needs(None),
            },
            _ => Came::Answered(self.ask(command)),
        }
    }

    fn go_without_command(&mut self, alloc: Global, step: Step) -> Result<Came, Fail> {
        match step {
            Step::Texts(texts) => self.write_texts(alloc, texts),
            Step::Flush(upto) => Ok(self.flush(alloc, upto, true)),
            Step::GiveUp => Ok(self.flush(alloc, u64::MAX, false)),
            Step::Twice => Ok(flush_twice::<J, F>(alloc, &mut self.core, &mut self.port)),
            Step::Sweep => Ok(sweep::<J, F>(&mut self.core, &mut self.port)),
            Step::Look => Ok(Came::Has(
                self.core.frozen(),
                self.core.outgoing().len(),
                self.core.entries(Space::Sequence).len(),
            )),
            Step::Asks(words) => self.ask_words(alloc, words),
            _ => Ok(Came::Answered(self.freeze())),
        }
    }

    /// What came of the first word that was not done, or of the last.
    fn ask_words(&mut self, alloc: Global, words: &[&str]) -> Result<Came, Fail> {
        let mut answer = Some(Answer::Done);
        for word in words {
            if answer == Some(Answer::Done) {
                answer = match command_of(alloc, word, 1)? {
                    Some(command) => self.ask(&command),
                    None => self.freeze(),
                };
            }
        }
        Ok(Came::Answered(answer))
    }

    /// What came of the first text that was not written, or of the last.
    fn write_texts(&mut self, alloc: Global, texts: Time) -> Result<Came, Fail> {
        let mut answer = Some(Answer::Done);
        for time in 0..texts {
            let command = text_command(alloc, time, LONGEST)?;
            let next = self.ask(&command);
            if answer == Some(Answer::Done) {
                answer = next;
            }
        }
        Ok(Came::Answered(answer))
    }

    fn flush(&mut self, alloc: Global, upto: u64, commits: bool) -> Came {
        flush::<J, F>(alloc, &mut self.core, &mut self.port, upto, commits)
    }

    /// What the core has: frozen pairs, points of the working pair in each space, the born of the newest frozen pair, 0
    /// where there is none, and the stamp.
    pub fn counts(&self) -> [u64; 5] {
        let newest = match self.core.newest_frozen() {
            Some(Stamp(born)) => born,
            None => 0,
        };
        let sequence = self.core.working(Space::Sequence);
        let unsequence = self.core.working(Space::Unsequence);
        let stamp = self.core.memory().stamp();
        [self.core.frozen(), sequence, unsequence, newest, stamp]
    }

    /// Whether the listing is printed as this text.
    pub fn lists(&self, alloc: Global, text: &str) -> bool {
        match self.core.show() {
            Ok(listing) => is_printed(alloc, &Reply::Files(listing), text),
            Err(_) => false,
        }
    }
}

/// Whether a listing is printed as this text.
fn is_printed(alloc: Global, listing: &Reply, text: &str) -> bool {
    match print_reply(alloc, &Command::ShowFiles, listing) {
        Ok(printed) => printed.as_slice() == text.as_bytes(),
        Err(_) => false,
    }
}

/// A core over the log of a place, with this pair limit, the next file of which gets this number.
pub fn open_stored(
    alloc: Global,
    place: &mut MemPlace,
    pair_points: u64,
    next: u64,
) -> Result<Stored<MemJournal, MemFiles>, Fail> {
    if pair_points == 0 || pair_points > 1_000_000 || next == 0 {
        return Err(Fail::from("a limit of a pair, or a number"));
    }
    let (journal, files) = place.take_up(b"d")?;
    let mut files = files;
    let port = files.port()?;
    let Ok((frames, _)) = Frames::scan(alloc, journal, Slot::A) else {
        return Err(Fail::from("a log"));
    };
    let logged = LoggedMemory::new(alloc, frames, MemoryStore::new(alloc));
    let core = new_core(alloc, logged, &files, pair_points, next);
    Ok(Stored { core, port, files })
}

/// Closes a core, and puts the place down.
pub fn close_stored(place: &mut MemPlace, stored: Stored<MemJournal, MemFiles>) {
    let Stored { core, port, files } = stored;
    let mut files = files;
    let journal = core.close(&mut files);
    files.end_port(port);
    place.put_down(journal, files);
}
