//! Runs on a place, as tables have them, and whether they leave what they should. Depends on `text`.
use super::text::Text;
use mem_outside::{MemSink, MemSource};
use std::alloc::Global;
use tsdb_base::Memory;
use tsdb_outside::{Place, Sink, Source};
use tsdb_run::{Status, Word};

/// The words of most runs.
pub const WORDS: &[&str] = &["run", "d"];

/// A first series, for most scripts.
pub const CREATE: &str = "1 create timeseries root.g.d.s with datatype=INT64,encoding=PLAIN\n";

/// An insert into it, up to the time.
pub const INSERT: &str = "1 insert into root.g.d(timestamp,s) values(";

/// A select of all its points.
pub const SELECT: &str = "1 select s from root.g.d\n";

/// The number of no call, since calls are counted from 1.
pub const NO_CALL: u64 = 0;

/// A script as it stands, and what a run of it leaves.
#[derive(Clone, Copy)]
pub struct Script {
    pub words: &'static [&'static str],
    /// The script in parts.
    pub lines: &'static [&'static str],
    /// The call of its source and that of its sink which fail.
    pub failing: [u64; 2],
    pub status: Status,
    /// How many replies its history has.
    pub replies: usize,
    pub printed: &'static str,
}

/// An empty script.
pub const EMPTY: Script = Script {
    words: WORDS,
    lines: &[],
    failing: [NO_CALL, NO_CALL],
    status: Status::Done,
    replies: 0,
    printed: "order\n",
};

/// A run that executes no command prints nothing.
pub const SILENT: Script = Script {
    printed: "",
    ..EMPTY
};

/// A run. Its commands have `; ` between them: `C` creates `root.g.d.s`, `I t v` inserts a value at a time, `S` selects
/// all points, and others are of session 1.
#[derive(Clone, Copy)]
pub enum Run {
    /// Its commands, and its replies with ` / ` between their lines. It ends well.
    Replies(&'static str, &'static str),
    /// The same with words of its own.
    RepliesTo(&'static [&'static str], &'static str, &'static str),
    /// Its commands, its exit code, and what it says on standard error.
    Ends(&'static str, u8, &'static str),
    Script(Script),
}

/// What a run left: how it ended, how many replies its history has, and the sink.
#[derive(Drop)]
pub struct Left {
    pub status: Status,
    pub replies: usize,
    pub sink: MemSink,
}

/// How a run ends, and how many replies its history has.
fn end_of<S: Source, K: Sink, P: Place>(
    alloc: Global,
    place: &mut P,
    words: &[Word],
    source: &mut S,
    sink: &mut K,
) -> (Status, usize) {
    let ended = tsdb_run::run(alloc, words, source, sink, place);
    (ended.status, ended.history.items().len())
}

fn words_of(alloc: Global, texts: &[&str]) -> Result<Vec<Word>, Memory> {
    let mut words = Vec::new(alloc);
    for text in texts {
        words.push(Word::new(alloc, text.as_bytes())?)?;
    }
    Ok(words)
}

/// What a run with these words leaves, whose source and sink fail at these calls.
fn left_with<P: Place>(
    alloc: Global,
    place: &mut P,
    words: &[&str],
    failing: [u64; 2],
    script: Text,
) -> Result<Left, Memory> {
    let [take, put] = failing;
    let mut source = MemSource::new(script.into_bytes()?, vec![in alloc; take]?);
    let mut sink = MemSink::new(alloc, vec![in alloc; put]?);
    let words = words_of(alloc, words)?;
    let (status, replies) = end_of(alloc, place, &words, &mut source, &mut sink);
    Ok(Left {
        status,
        replies,
        sink,
    })
}

/// What a run of the script leaves.
pub fn left_by<P: Place>(alloc: Global, place: &mut P, script: Text) -> Result<Left, Memory> {
    left_with(alloc, place, WORDS, [NO_CALL, NO_CALL], script)
}

pub fn is_done(left: &Left) -> bool {
    left.status == Status::Done
}

/// Whether a run of the script ends well and prints this.
pub fn prints<P: Place>(alloc: Global, place: &mut P, script: Text, printed: &Text) -> bool {
    match left_by(alloc, place, script) {
        Ok(left) => is_done(&left) && printed.is(left.sink.bytes()),
        Err(_) => false,
    }
}

/// The time and the value of an insert.
fn point_of(command: &str) -> Option<(&str, &str)> {
    command.strip_prefix("I ")?.split_once(' ')
}

fn put_command(script: &mut Text, command: &str) {
    match command.as_bytes() {
        b"C" => script.put(&[CREATE]),
        b"S" => script.put(&[SELECT]),
        _ => match point_of(command) {
            Some((time, value)) => script.put(&[INSERT, time, ",", value, ")\n"]),
            None => script.put(&["1 ", command, "\n"]),
        },
    }
}

/// The script of these commands.
pub fn script_of(alloc: Global, commands: &str) -> Text {
    let mut script = Text::new(alloc);
    for command in commands.split("; ") {
        put_command(&mut script, command);
    }
    script
}

/// Puts the order of these commands, which is printed behind the replies.
pub fn put_order(printed: &mut Text, commands: &str) {
    printed.put(&["order 1"]);
    for byte in commands.as_bytes() {
        if *byte == b';' {
            printed.put(&[" 1"]);
        }
    }
    printed.put(&["\n"]);
}

/// What these commands print with these replies.
fn printed_of(alloc: Global, commands: &str, replies: &str) -> Text {
    let mut printed = Text::new(alloc);
    printed.put(&["session 1\n"]);
    for line in replies.split(" / ") {
        printed.put(&[line, "\n"]);
    }
    put_order(&mut printed, commands);
    printed
}

/// Whether the status has this exit code, and says this on standard error.
pub fn is_said(alloc: Global, status: &Status, code: u8, text: &str) -> bool {
    match status.text(alloc) {
        Ok(said) => status.code() == code && said.as_slice() == text.as_bytes(),
        Err(_) => false,
    }
}

/// Whether the run left what it should.
fn has_left(alloc: Global, run: &Run, left: &Left) -> bool {
    let printed = left.sink.bytes();
    match run {
        Run::Replies(commands, replies) | Run::RepliesTo(_, commands, replies) => {
            is_done(left) && printed_of(alloc, commands, replies).is(printed)
        }
        Run::Ends(_, code, text) => is_said(alloc, &left.status, *code, text),
        Run::Script(script) => {
            left.status == script.status
                && left.replies == script.replies
                && printed == script.printed.as_bytes()
        }
    }
}

/// What a run leaves.
fn left_of<P: Place>(alloc: Global, place: &mut P, run: &Run) -> Result<Left, Memory> {
    match run {
        Run::Replies(commands, _) | Run::Ends(commands, _, _) => {
            left_by(alloc, place, script_of(alloc, commands))
        }
        Run::RepliesTo(words, commands, _) => {
            let script = script_of(alloc, commands);
            left_with(alloc, place, words, [NO_CALL, NO_CALL], script)
        }
        Run::Script(script) => {
            let mut text = Text::new(alloc);
            text.put(script.lines);
            left_with(alloc, place, script.words, script.failing, text)
        }
    }
}

/// Whether a run on the place leaves what it should.
pub fn is_right<P: Place>(alloc: Global, place: &mut P, run: &Run) -> bool {
    match left_of(alloc, place, run) {
        Ok(left) => has_left(alloc, run, &left),
        Err(_) => false,
    }
}
