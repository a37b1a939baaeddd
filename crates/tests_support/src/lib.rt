//! For tests alone: lines of text as commands, and replies in words. Depends on tsdb_model and tsdb_script.
//!
//! A table of commands is a `const` of lines, and a small loop takes them one after another, so that a test with many
//! cases has no more to prove than one with few:
//!
//! ```
//! const STEPS: [(&str, &str); 2] = [
//!     ("create timeseries root.d.a with datatype=INT32,encoding=PLAIN", "Done"),
//!     ("select a from root.d where time>=0 and time<=9", ""),
//! ];
//!
//! fn first_wrong(alloc: Global, plain: &mut Plain, steps: &[(&str, &str)]) -> Result<Option<usize>, Fail> {
//!     for (step, (line, wanted)) in steps.iter().enumerate() {
//!         let reply = plain.apply(&command_of(alloc, line)?)?;
//!         if words_of(alloc, &reply)?.as_str() != *wanted {
//!             return Ok(Some(step));
//!         }
//!     }
//!     Ok(None)
//! }
//! ```
#![tactic(auto)]

ghost use Rattle.std.specs.Prelude.{IfOk};
ghost use Rattle.tsdb_model.specs.Commands.{IsWellFormed};

use std::alloc::Global;
use std::test::Fail;
use tsdb_model::{Command, Line, Reply};
use tsdb_script::read_script;

/// The command of a line of a script that lacks its session.
pub fn command_of(alloc: Global, line: &str) -> Result<Command, Fail>
    ensures { IfOk result IsWellFormed }
{
    let script = format!(in alloc; "1 {line}")?;
    let mut commands = read_script(alloc, script.as_bytes())?;
    match commands.pop() {
        Some(numbered) => Ok(numbered.command),
        None => Err(Fail::new("a line without a command")),
    }
}

/// A reply in words: an answer by its name, rows as `1 [Some(I32(8))];2 [None];`, and aggregates as
/// `[Some(Value(I64(3))), Some(Sum(7))]`.
pub fn words_of(alloc: Global, reply: &Reply) -> Result<String, Fail> {
    match reply {
        Reply::Plain(answer) => Ok(format!(in alloc; "{answer:?}")?),
        Reply::Files(_) => Ok(format!(in alloc; "files")?),
        Reply::Values(values) => Ok(format!(in alloc; "{:?}", values.items())?),
        Reply::Lines(lines) => rows_in_words(alloc, lines.items()),
    }
}

fn rows_in_words(alloc: Global, rows: &[Line]) -> Result<String, Fail> {
    let mut text = String::new(alloc);
    for row in rows {
        let time = row.time;
        let row = format!(in alloc; "{time} {:?};", row.values.items())?;
        text.push_str(row.as_str())?;
    }
    Ok(text)
}
