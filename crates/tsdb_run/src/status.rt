//! How a run ends. Depends on tsdb_base, tsdb_history and tsdb_recover.
ghost use Rattle.std.specs.Prelude.{◌≡◌, IfOk};
ghost use Rattle.tsdb_run.specs.Status.{status_code, status_text};

use std::alloc::Global;
use std::io::Write;
use tsdb_base::{List, Memory};
use tsdb_history::Told;
use tsdb_recover::Part;

/// How a run ended.
#[derive(Clone, Copy, Debug, PartialEq, Eq)]
pub enum Status {
    /// The script was executed, and the whole output was written.
    Done,
    /// Out of memory.
    Memory,
    /// The words of the command line are not those that the program knows.
    Words,
    /// The first bad line of the script, counted from 1, and the kind of its fault.
    Script { line: u32, kind: u8 },
    /// The source of the script failed.
    Source,
    /// The sink of the output failed.
    Sink,
    /// The journal or the files of the store failed before a command was executed.
    Device,
    /// A part of the store is damaged at this place, counted in bytes from the beginning of the part.
    Damaged { part: Part, at: u64 },
}

/// What a run leaves: how it ended, and the reply to each command, in the order in which the commands took place. The
/// history is empty where no command was executed.
#[derive(Drop)]
pub struct Ended {
    pub status: Status,
    pub history: List<Told>,
}

impl Status {
    /// The exit code of the program.
    pub fn code(&self) -> u8
        ensures { result ≡ status_code self.now }
    {
        match self {
            Status::Done => 0,
            Status::Memory => 1,
            Status::Words => 2,
            Status::Script { .. } => 3,
            Status::Source => 4,
            Status::Sink => 5,
            Status::Device => 6,
            Status::Damaged { .. } => 7,
        }
    }

    /// What the program says on standard error, a line or nothing.
    pub fn text(&self, alloc: Global) -> Result<Vec<u8>, Memory>
        ensures { IfOk result (λ text. text.items ≡ status_text self.now) }
    {
        let text: &[u8] = match self {
            Status::Done => b"",
            Status::Memory => b"memory\n",
            Status::Words => b"usage: tsdb run DIR [--pair N] [--workers N]\n",
            Status::Script { line, kind } => return script_text(alloc, *line, *kind),
            Status::Source => b"source\n",
            Status::Sink => b"sink\n",
            Status::Device => b"device\n",
            Status::Damaged { part, at } => return damaged_text(alloc, *part, *at),
        };
        Ok(Vec::from_slice(alloc, text)?)
    }

    /// Says on standard error how the run ended, and returns the exit code.
    pub fn report<W: Write>(self, alloc: Global, err: &mut W) -> u8
        ensures { result ≡ status_code self }
    {
        if let Ok(text) = self.text(alloc) {
            // Where standard error takes nothing, the exit code still tells.
            let _ = err.write_all(&text);
        }
        self.code()
    }
}

fn script_text(alloc: Global, line: u32, kind: u8) -> Result<Vec<u8>, Memory>
    ensures { IfOk result (λ text. text.items ≡ status_text (Status.Script line kind)) }
{
    let text = format!(in alloc; "line {line} kind {kind}\n")?;
    Ok(Vec::from_slice(alloc, text.as_bytes())?)
}

fn damaged_text(alloc: Global, part: Part, at: u64) -> Result<Vec<u8>, Memory>
    ensures { IfOk result (λ text. text.items ≡ status_text (Status.Damaged part at)) }
{
    let text = match part {
        Part::Log => format!(in alloc; "damaged log at {at}\n")?,
        Part::File(number) => format!(in alloc; "damaged file {} at {at}\n", number.0)?,
    };
    Ok(Vec::from_slice(alloc, text.as_bytes())?)
}
