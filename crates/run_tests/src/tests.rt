//! What no clause says: that runs succeed with ample memory, and worked examples.
mod courses;
mod cut;
mod examples;
mod pages;
mod places;
mod runs;
mod stores;
mod text;

use courses::{Course, expect, expect_each};
use places::NEW;
use runs::{CREATE, EMPTY, NO_CALL, Run, SELECT, SILENT, Script, is_said};
use std::alloc::Global;
use tsdb_run::{Part, Status};

/// The first worked example.
const EXAMPLE: Script = Script {
    lines: &[
        CREATE,
        "1 insert into root.g.d(timestamp,s) values(1,5)
1 select s from root.g.d
",
    ],
    replies: 3,
    printed: "session 1\nok\nok\ntime,s\n1,5\nrows 1\norder 1 1 1\n",
    ..EMPTY
};

static EXAMPLES: [Run; 6] = [
    Run::Script(EXAMPLE),
    Run::Script(EMPTY),
    // Aggregates over an empty range, and over a series whose points are deleted.
    Run::Script(Script {
        lines: &[
            CREATE,
            "1 select count(s),max_value(s),min_time(s) from root.g.d where time>5 and time<5
1 insert into root.g.d(timestamp,s) values(1,5)
1 delete from root.g.d.s
1 select count(s) from root.g.d
",
        ],
        replies: 5,
        printed: "session 1
ok
count(s),max_value(s),min_time(s)
0,null,null
ok
ok
count(s)
0
order 1 1 1 1 1
",
        ..EMPTY
    }),
    // A measurement that is not there refuses the whole row.
    Run::Script(Script {
        lines: &[
            CREATE,
            "1 insert into root.g.d(timestamp,s,x) values(1,5,6)
1 select s from root.g.d
1 select x from root.g.d
1 create timeseries root.g.d.s with datatype=INT64,encoding=PLAIN
",
        ],
        replies: 5,
        printed: "session 1\nok\npath\ntime,s\nrows 0\npath\nexists\norder 1 1 1 1 1\n",
        ..EMPTY
    }),
    // A quote in a text, and columns without a value.
    Run::Script(Script {
        lines: &[
            CREATE,
            "1 create timeseries root.g.d.t with datatype=TEXT,encoding=PLAIN
1 insert into root.g.d(timestamp,t) values(1,'it''s')
1 insert into root.g.d(timestamp,s) values(2,7)
1 select t,s from root.g.d;
",
        ],
        replies: 5,
        printed: "session 1
ok
ok
ok
ok
time,t,s
1,'it''s',null
2,null,7
rows 2
order 1 1 1 1 1
",
        ..EMPTY
    }),
    // Sessions are printed one after another, the order of the lines at the end.
    Run::Script(Script {
        lines: &[
            CREATE,
            "
# the fourth line
7 insert into root.g.d(timestamp,s) values(1,5)
1 insert into root.g.d(timestamp,s) values(1,6)
7 select s from root.g.d
",
        ],
        replies: 4,
        printed: "session 1\nok\nok\nsession 7\nok\ntime,s\n1,6\nrows 1\norder 1 7 1 7\n",
        ..EMPTY
    }),
];

/// A body that always answers out of memory fails here, which no contract can refuse.
#[test]
fn worked_examples(rt: HostRuntime) {
    expect_each(&rt, rt.alloc(), &EXAMPLES);
}

/// A run with words that the program does not know.
const UNKNOWN: Script = Script {
    status: Status::Words,
    ..SILENT
};

static BAD_WORDS: [Run; 2] = [
    Run::Script(Script {
        words: &[],
        ..UNKNOWN
    }),
    Run::Script(Script {
        words: &["run", "d", "--pair", "0"],
        ..UNKNOWN
    }),
];

/// Statuses with their codes and their texts.
static STATUSES: [(Status, u8, &str); 8] = [
    (Status::Done, 0, ""),
    (Status::Memory, 1, "memory\n"),
    (
        Status::Words,
        2,
        "usage: tsdb run DIR [--pair N] [--workers N]\n",
    ),
    (Status::Script { line: 7, kind: 5 }, 3, "line 7 kind 5\n"),
    (Status::Source, 4, "source\n"),
    (Status::Sink, 5, "sink\n"),
    (Status::Device, 6, "device\n"),
    (
        Status::Damaged {
            part: Part::Log,
            at: 20,
        },
        7,
        "damaged log at 20\n",
    ),
];

#[test]
fn unknown_words(rt: HostRuntime) {
    expect_each(&rt, rt.alloc(), &BAD_WORDS);
}

/// Whether the status has this code and this text, says the text on standard error, and returns the code.
fn reports(alloc: Global, status: Status, code: u8, text: &str) -> bool {
    let is_said = is_said(alloc, &status, code, text);
    let mut err = Vec::new(alloc);
    let returned = status.report(alloc, &mut err);
    is_said && returned == code && err.as_slice() == text.as_bytes()
}

#[test]
fn codes_and_their_texts(rt: HostRuntime) {
    for (at, (status, code, text)) in STATUSES.iter().enumerate() {
        assert!(rt; reports(rt.alloc(), *status, *code, text), "status {at}");
    }
}

/// The first bad line is reported by its number and kind, and nothing is written.
static BAD_LINES: [Run; 2] = [
    Run::Script(Script {
        lines: &[
            CREATE,
            "1 insert into root.g.d(timestamp,s) values(1.5,2)\n1 walk\n",
        ],
        status: Status::Script { line: 2, kind: 5 },
        ..SILENT
    }),
    Run::Script(Script {
        lines: &[CREATE, "1 walk\n1 walk\n"],
        status: Status::Script { line: 2, kind: 2 },
        ..SILENT
    }),
];

#[test]
fn bad_scripts(rt: HostRuntime) {
    expect_each(&rt, rt.alloc(), &BAD_LINES);
}

/// A source that fails leaves the store untouched. Where the sink fails, the commands were executed all the same.
static FAULTY: [Course<'static>; 1] = [(
    NEW,
    &[
        Run::Script(Script {
            failing: [1, NO_CALL],
            status: Status::Source,
            replies: 0,
            printed: "",
            ..EXAMPLE
        }),
        Run::Script(Script {
            failing: [NO_CALL, 2],
            status: Status::Sink,
            printed: "session 1\n",
            ..EXAMPLE
        }),
        Run::Script(Script {
            lines: &[SELECT],
            replies: 1,
            printed: "session 1\ntime,s\n1,5\nrows 1\norder 1\n",
            ..EMPTY
        }),
    ],
)];

#[test]
fn faults_of_source_and_sink(rt: HostRuntime) {
    expect(&rt, rt.alloc(), &FAULTY);
}
