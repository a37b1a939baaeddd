//! Scripts at their limits, and one past them.
use super::byte_sink::ByteSink;
use super::read;
use std::alloc::Global;
use std::process::Abort;
use tsdb_script::ScriptFault;

const MAX_LINE: usize = 1_048_576;

/// A line of 24 bytes.
const DELETE: &[u8] = b"1 delete from root.g.d.s";

/// A part of a comment, of 64 bytes. The longest script has as many bytes as 1,048,576 of them.
const HASHES: &[u8] = b"################################################################";

const PAST: Result<usize, ScriptFault> = Err(ScriptFault::Bad { line: 1, kind: 9 });

/// A script of a first part, so many times a second one, and a last one; and what is read of it.
type Case = (
    &'static [u8],
    usize,
    &'static [u8],
    &'static [u8],
    Result<usize, ScriptFault>,
);

fn is_read(alloc: Global, case: &Case) -> bool {
    let (first, times, part, last, wanted) = case;
    let mut script = ByteSink::new(alloc);
    script.put(first);
    for _ in 0..*times {
        script.put(part);
    }
    script.put(last);
    match script.bytes() {
        Some(script) => read(alloc, script) == *wanted,
        None => false,
    }
}

/// Expects that each of the scripts is read so.
fn expect(rt: &impl Abort, alloc: Global, cases: &[Case]) {
    for (at, case) in cases.iter().enumerate() {
        assert!(rt; is_read(alloc, case), "{at}");
    }
}

const LINES: [Case; 11] = [
    (DELETE, MAX_LINE - 24, b" ", b"", Ok(1)),
    (DELETE, MAX_LINE - 23, b" ", b"", PAST),
    (DELETE, MAX_LINE - 25, b" ", b"\n", Ok(1)),
    (DELETE, MAX_LINE - 24, b" ", b"\n", PAST),
    (DELETE, MAX_LINE - 26, b" ", b"\r\n", Ok(1)),
    (DELETE, MAX_LINE - 25, b" ", b"\r\n", PAST),
    // before its tokens are read
    (
        b"`",
        MAX_LINE - 1,
        b" ",
        b"",
        Err(ScriptFault::Bad { line: 1, kind: 3 }),
    ),
    (b"`", MAX_LINE, b" ", b"", PAST),
    // a comment and a blank line may be longer
    (b"#", MAX_LINE - 1, b" ", b"\n", Ok(0)),
    (b"\t", MAX_LINE - 2, b" ", b"\r\n", Ok(0)),
    (b"", MAX_LINE, b" ", b"#", PAST),
];

#[test]
fn the_longest_line(rt: HostRuntime) {
    expect(&rt, rt.alloc(), &LINES);
}

const SCRIPTS: [Case; 2] = [
    (
        b"\n",
        1_048_575,
        HASHES,
        b"###############################################################",
        Ok(0),
    ),
    (
        b"\n",
        1_048_575,
        HASHES,
        b"##############################################################\n",
        Ok(0),
    ),
];

#[test]
fn the_longest_script(rt: HostRuntime) {
    expect(&rt, rt.alloc(), &SCRIPTS);
}

const A_BYTE_MORE: [Case; 4] = [
    (b"", 1_048_576, HASHES, b"#", PAST),
    // the limit is passed by a line feed, and behind one
    (
        b"\n",
        1_048_575,
        HASHES,
        b"###############################################################\n",
        Err(ScriptFault::Bad { line: 2, kind: 9 }),
    ),
    (
        b"\n",
        1_048_575,
        HASHES,
        b"##############################################################\n#",
        Err(ScriptFault::Bad { line: 3, kind: 9 }),
    ),
    // an earlier bad line comes first
    (
        b"# c\n0\n",
        1_048_576,
        HASHES,
        b"",
        Err(ScriptFault::Bad { line: 2, kind: 1 }),
    ),
];

#[test]
fn a_byte_more(rt: HostRuntime) {
    expect(&rt, rt.alloc(), &A_BYTE_MORE);
}

const NO_TEXT: Result<usize, ScriptFault> = Err(ScriptFault::Bad { line: 1, kind: 6 });

const TEXTS: [Case; 5] = [
    (
        b"1 insert into root.g.d(time,s) values(1,'",
        65_535,
        b"x",
        b"')",
        Ok(1),
    ),
    (
        b"1 insert into root.g.d(time,s) values(1,'",
        65_536,
        b"x",
        b"')",
        NO_TEXT,
    ),
    // a doubled quote counts once
    (
        b"1 insert into root.g.d(time,s) values(1,",
        131_072,
        b"'",
        b")",
        Ok(1),
    ),
    (
        b"1 insert into root.g.d(time,s) values(1,",
        131_074,
        b"'",
        b")",
        NO_TEXT,
    ),
    (
        b"1 insert into root.g.d(time,s) values(1,",
        131_073,
        b"'",
        b")",
        NO_TEXT,
    ),
];

#[test]
fn the_longest_text(rt: HostRuntime) {
    expect(&rt, rt.alloc(), &TEXTS);
}

const NAMES: [Case; 2] = [
    (b"1 select s", 999, b",s", b" from root.d", Ok(1)),
    (
        b"1 select s",
        1000,
        b",s",
        b" from root.d",
        Err(ScriptFault::Bad { line: 1, kind: 7 }),
    ),
];

#[test]
fn the_most_names(rt: HostRuntime) {
    expect(&rt, rt.alloc(), &NAMES);
}

const MOST_COMMANDS: Case = (b"", 1_000_000, b"1 flush\n", b"", Ok(1_000_000));

#[test]
fn the_most_commands(rt: HostRuntime) {
    expect(&rt, rt.alloc(), &[MOST_COMMANDS]);
}

/// One more is refused before its statement is read.
const ONE_MORE: Case = (
    b"",
    1_000_000,
    b"1 flush\n",
    b"1 drop",
    Err(ScriptFault::Bad {
        line: 1_000_001,
        kind: 9,
    }),
);

#[test]
fn a_command_more(rt: HostRuntime) {
    expect(&rt, rt.alloc(), &[ONE_MORE]);
}

/// Commands of eight sessions.
const EIGHT: &[u8] = b"\
1 delete from root.d.s\n2 delete from root.d.s\n30 delete from root.d.s\n4 delete from root.d.s\n\
5 delete from root.d.s\n6 delete from root.d.s\n70 delete from root.d.s\n999 delete from root.d.s\n";

/// Each of the eight sessions may go on, and a ninth is refused before its statement is read.
const SESSIONS: [Case; 7] = [
    (EIGHT, 0, b"", b"", Ok(8)),
    (EIGHT, 0, b"", b"999 delete from root.d.s", Ok(9)),
    (EIGHT, 0, b"", b"1 delete from root.d.s", Ok(9)),
    (
        EIGHT,
        0,
        b"",
        b"9 delete from root.d.s",
        Err(ScriptFault::Bad { line: 9, kind: 9 }),
    ),
    (
        EIGHT,
        0,
        b"",
        b"3 drop",
        Err(ScriptFault::Bad { line: 9, kind: 9 }),
    ),
    (
        EIGHT,
        0,
        b"",
        b"1000 drop",
        Err(ScriptFault::Bad { line: 9, kind: 1 }),
    ),
    (
        EIGHT,
        0,
        b"",
        b"3 drop `",
        Err(ScriptFault::Bad { line: 9, kind: 3 }),
    ),
];

#[test]
fn at_most_eight_sessions(rt: HostRuntime) {
    expect(&rt, rt.alloc(), &SESSIONS);
}
