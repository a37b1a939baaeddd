//! Scripts as bytes: good ones, and what is a line.
use super::read;
use std::alloc::Global;
use std::process::Abort;
use tsdb_script::ScriptFault;

/// A script, and the number of its commands or its fault.
type Case = (&'static [u8], Result<usize, ScriptFault>);

/// Expects that this is read of each of the scripts.
fn expect(rt: &impl Abort, alloc: Global, cases: &[Case]) {
    for (at, (script, wanted)) in cases.iter().enumerate() {
        assert!(rt; read(alloc, script) == *wanted, "{at}");
    }
}

/// Good scripts, with the number of their commands.
const GOOD: [Case; 7] = [
    (b"", Ok(0)),
    (b"\n \t\r\n# anything ` ' \x80\n\r", Ok(0)),
    (b"#", Ok(0)),
    (
        b"999 CREATE TimeSeries root.g.d.s WITH DataType = text , ENCODING = Dictionary ;\n",
        Ok(1),
    ),
    (b"\t1 insert into root.g.d(time,s)values(1,5)\r\n", Ok(1)),
    (b"1 delete from root.g.d.s\r", Ok(1)),
    (b"1 Compact Inner UNSEQUENCE ;\n# c\n2 compact cross", Ok(2)),
];

#[test]
fn good_scripts(rt: HostRuntime) {
    expect(&rt, rt.alloc(), &GOOD);
}

/// Bad scripts, with the first bad line and its kind.
const BAD: [Case; 7] = [
    (
        b"# c\n\n \t\r\n1 drop",
        Err(ScriptFault::Bad { line: 4, kind: 2 }),
    ),
    (
        b"1 delete from root.g.d.s\r\n#\n0 x\n1 drop",
        Err(ScriptFault::Bad { line: 3, kind: 1 }),
    ),
    (
        b"1 create timeseries root.g.d.s with datatype=INT64,encoding=PLAIN\n1 insert into root.g.d(timestamp,s) values(1.5,2)",
        Err(ScriptFault::Bad { line: 2, kind: 5 }),
    ),
    (b"\n\n`\n'", Err(ScriptFault::Bad { line: 3, kind: 3 })),
    // a comment begins with the first byte of its line
    (b"#\n #\n", Err(ScriptFault::Bad { line: 2, kind: 3 })),
    // one carriage return is dropped, and only at the end
    (
        b"1 delete from root.g.d.s\r\r\n",
        Err(ScriptFault::Bad { line: 1, kind: 3 }),
    ),
    (b"\n \r \n", Err(ScriptFault::Bad { line: 2, kind: 3 })),
];

#[test]
fn lines_are_counted(rt: HostRuntime) {
    expect(&rt, rt.alloc(), &BAD);
}
