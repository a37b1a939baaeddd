//! The words that the tests are made of, as commands. `Cs` creates the series `s` of `root.g.d`, `I1st` writes a value
//! at time 1 into `s` and `t`, `D13s` deletes the times from 1 to 3 from `s`. Any other word, as `F`, is a freeze,
//! which is no command. Depends on `tests_support` alone.
ghost use Rattle.std.specs.Prelude.{IfOk, IfSome};
ghost use Rattle.tsdb_model.specs.Commands.{IsWellFormed};

use std::alloc::Global;
use std::test::Fail;
use tests_support as lines;
use tsdb_base::Time;
use tsdb_model::Command;

/// The time that a digit is.
pub fn time_of(digit: u8) -> Time {
    i64::from(digit) - 48
}

fn create_line(alloc: Global, name: u8) -> Result<String, Fail> {
    let name = char::from(name);
    Ok(format!(in alloc; "create timeseries root.g.d.{name} with datatype=INT64,encoding=PLAIN")?)
}

fn insert_line(alloc: Global, time: u8, names: &[u8], value: i64) -> Result<String, Fail> {
    let time = time_of(time);
    Ok(match names {
        [name] => {
            let name = char::from(*name);
            format!(in alloc; "insert into root.g.d(timestamp,{name}) values({time},{value})")?
        }
        _ => format!(in alloc;
            "insert into root.g.d(timestamp,s,t) values({time},{value},{value})"
        )?,
    })
}

fn delete_line(alloc: Global, from: u8, to: u8, name: u8) -> Result<String, Fail> {
    let (from, to, name) = (time_of(from), time_of(to), char::from(name));
    Ok(format!(in alloc; "delete from root.g.d.{name} where time>={from} and time<={to}")?)
}

/// The line of a script that a word is.
fn line_of(alloc: Global, word: &str, value: i64) -> Result<Option<String>, Fail> {
    match word.as_bytes() {
        [b'C', name] => create_line(alloc, *name).map(Some),
        [b'I', time, names @ ..] => insert_line(alloc, *time, names, value).map(Some),
        [b'D', from, to, name] => delete_line(alloc, *from, *to, *name).map(Some),
        _ => Ok(None),
    }
}

/// The command that a word is, with this value in its row.
pub fn command_of(alloc: Global, word: &str, value: i64) -> Result<Option<Command>, Fail>
    ensures { IfOk result (λ command. IfSome command IsWellFormed) }
{
    match line_of(alloc, word, value)? {
        Some(line) => Ok(Some(lines::command_of(alloc, line.as_str())?)),
        None => Ok(None),
    }
}
