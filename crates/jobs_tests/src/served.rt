//! A core over a place in memory that serves commands. Depends on nothing here.
ghost use Rattle.std.specs.Prelude.{◌≡◌, ◌≤◌};
ghost use Rattle.std.proofs.Props.{props};
ghost use Rattle.jobs_tests.specs.Free.{IsFree};
ghost use Rattle.tsdb_core.specs.Limits.{IsPairLimit};
ghost use Rattle.tsdb_model.specs.Commands.{IsWellFormed};

use mem_outside::{Fails, MemFiles, MemJournal, MemPlace};
use std::alloc::Global;
use std::test::Fail;
use tsdb_base::FileNumber;
use tsdb_core::{Core, Options};
use tsdb_fileset::KeptFiles;
use tsdb_frames::Frames;
use tsdb_history::serve;
use tsdb_memory::{LoggedMemory, MemoryStore};
use tsdb_model::{Command, Reply};
use tsdb_outside::{Files, Journal, Place, Slot};

/// A place with a new log, where these calls of the journal and of the files fail.
pub fn new_place(alloc: Global, journal: &[u64], files: &[u64]) -> Result<MemPlace, Fail> {
    let fails = Fails {
        journal: journal.to_vec(alloc)?,
        files: files.to_vec(alloc)?,
    };
    let slots = [vec![in alloc; 0u8]?, vec![in alloc; 0u8]?];
    Ok(MemPlace::new(alloc, slots, Vec::new(alloc), fails)?)
}

/// A core of which nothing is out, with its files and a port of theirs.
pub struct Served<J: Journal, F: Files> {
    core: Core<J, F>,
    port: F::Port,
    files: F,
    ghost free: { IsFree (F.Port.store port) core } by { Prim.hlevel props },
    ghost same: { F.store files ≡ F.Port.store port },
}

impl<J: Journal, F: Files> Served<J, F> {
    /// The reply to a command.
    pub fn serve(&mut self, alloc: Global, command: &Command) -> Reply
        requires { IsWellFormed command.now }
    {
        serve_free(alloc, &mut self.core, &mut self.port, command)
    }
}

/// The reply to a command, behind which nothing is out of the core.
fn serve_free<J: Journal, F: Files>(
    alloc: Global,
    core: &mut Core<J, F>,
    port: &mut F::Port,
    command: &Command,
) -> Reply
    requires well_formed { IsWellFormed command.now }
    requires free { IsFree (F.Port.store port.old) core.old }
    ensures free { IsFree (F.Port.store port.old) core.new }
    ensures same_store { F.Port.store port.new ≡ F.Port.store port.old }
{
    serve(alloc, core, port, command)
}

impl Served<MemJournal, MemFiles> {
    /// How many bytes of files were read.
    pub fn bytes_read(&self) -> u64 {
        self.port.bytes_read()
    }
}

/// A core of the store of these files over a log and memory that are new, the next file of which gets this number.
fn new_core<J: Journal, F: Files>(
    alloc: Global,
    logged: LoggedMemory<J>,
    files: &F,
    pair_points: u64,
    next: u64,
) -> Core<J, F>
    requires limit { IsPairLimit pair_points }
    requires next { 1 ≤ next }
    ensures { IsFree (F.store files.now) result }
{
    let kept = KeptFiles::new(alloc, files);
    Core::new(
        alloc,
        logged,
        kept,
        Options { pair_points },
        FileNumber(next),
    )
}

/// A core over the log of a place, with this pair limit, the next file of which gets this number.
pub fn open(
    alloc: Global,
    place: &mut MemPlace,
    pair_points: u64,
    next: u64,
) -> Result<Served<MemJournal, MemFiles>, Fail> {
    if pair_points == 0 || pair_points > 1_000_000 || next == 0 {
        return Err(Fail::from("a limit of a pair, or a number"));
    }
    let (journal, files) = place.take_up(b"d")?;
    let mut files = files;
    let port = files.port()?;
    let Ok((frames, _)) = Frames::scan(alloc, journal, Slot::A) else {
        return Err(Fail::from("a log"));
    };
    let logged = LoggedMemory::new(alloc, frames, MemoryStore::new(alloc));
    let core = new_core(alloc, logged, &files, pair_points, next);
    Ok(Served { core, port, files })
}

/// Closes a core, and puts the place down.
pub fn close(place: &mut MemPlace, served: Served<MemJournal, MemFiles>) {
    let Served { core, port, files } = served;
    let mut files = files;
    let journal = tsdb_history::close(core, &mut files);
    files.end_port(port);
    place.put_down(journal, files);
}
