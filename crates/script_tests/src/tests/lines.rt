//! Single lines, by the kind of their fault: a table for each pass.
use super::read;
use std::alloc::Global;
use std::process::Abort;
use tsdb_script::ScriptFault;

/// Expects a fault of this kind of each of the lines.
fn expect(rt: &impl Abort, alloc: Global, kind: u8, lines: &[&[u8]]) {
    for (case, line) in lines.iter().enumerate() {
        let found = read(alloc, line);
        assert!(rt; found == Err(ScriptFault::Bad { line: 1, kind }), "{case}");
    }
}

/// A byte begins no token. It comes before what stands behind it.
const STRAY: [&[u8]; 12] = [
    b"\x00",
    b"1 select s` from root.d",
    b"1 select s from root.d`",
    b"1 \x80",
    b"1 flush\x80",
    b"1 select s/2 from root.d",
    b"0 drop\x00",
    b"1 select s\r from root.d",
    b"1 flush\r\r",
    b"1 ! 'a",
    b"1 select ! 'a",
    b"1 'a' ! 'b",
];

#[test]
fn what_begins_no_token(rt: HostRuntime) {
    expect(&rt, rt.alloc(), 3, &STRAY);
}

/// A text is not closed.
const NOT_CLOSED: [&[u8]; 8] = [
    b"1 select 's",
    b"0 'a'' ",
    b"1 insert into root.g.d(time,s) values(1,\"a'",
    b"1 insert into d(time,s) values(1,\"a'",
    b"\"",
    b"1 \"",
    b"1 'a'' `",
    b"1 drop ' !",
];

#[test]
fn texts_that_are_not_closed(rt: HostRuntime) {
    expect(&rt, rt.alloc(), 6, &NOT_CLOSED);
}

/// The first token is no session.
const NO_SESSION: [&[u8]; 9] = [
    b"0 select s from root.d",
    b"01 select s from root.d",
    b"1000 select s from root.d",
    b"+1 select s from root.d",
    b"select s from root.d",
    b"'1' select s from root.d",
    b"1x",
    b"; drop",
    b"1.5 drop",
];

#[test]
fn what_is_no_session(rt: HostRuntime) {
    expect(&rt, rt.alloc(), 1, &NO_SESSION);
}

/// No statement begins with the second token.
const NO_STATEMENT: [&[u8]; 10] = [
    b"1",
    b"1 drop",
    b"999 drop",
    b"1 ( select s from root.d",
    b"1 (flush)",
    b"1 'select' s from root.d",
    b"1 'flush'",
    b"1 backup x",
    b"1 ;",
    b"1 flushed",
];

#[test]
fn what_begins_no_statement(rt: HostRuntime) {
    expect(&rt, rt.alloc(), 2, &NO_STATEMENT);
}

/// The tokens fit no form. Most have a word that is no path either, which comes later.
const NO_FORM: [&[u8]; 27] = [
    b"1 create timeseries p with datatype=INT64",
    b"1 create timeseries p with encoding=PLAIN,datatype=INT64",
    b"1 create timeseries p with datatype=INT64,encoding='PLAIN'",
    b"1 insert into d(time) values(1)",
    b"1 insert into d(time,s) values(1)",
    b"1 insert into d(time,s,) values(1,2)",
    b"1 insert into d(s,time) values(1,2)",
    b"1 insert into d(time,s) values('1',2)",
    b"1 insert into d(time,s) values(1,2",
    b"1 insert into d(time,s) values(1,2));",
    b"1 delete timeseries p",
    b"1 delete from p where timestamp>1",
    b"1 delete from p where",
    b"1 delete from p where time>1 or time<3",
    b"1 delete from p where time=>1",
    b"1 select s from d;;",
    b"1 select s, from d",
    b"1 select from d",
    b"1 select count(s from d",
    b"1 select s from d last",
    b"1 compact",
    b"1 compact inner",
    b"1 compact sequence",
    b"1 compact inner cross",
    b"1 compact cross sequence",
    b"1 show file",
    b"1 flush now",
];

#[test]
fn what_fits_no_form(rt: HostRuntime) {
    expect(&rt, rt.alloc(), 3, &NO_FORM);
}

/// From the left the first bad word is no path and no measurement. The last six fit their forms with odd words.
const NO_PATH: [&[u8]; 15] = [
    b"1 create timeseries root.s with datatype=no,encoding=no",
    b"1 delete from d.s.s where time>x",
    b"1 insert into root(time,s) values(1.5,2)",
    b"1 insert into root.d(time,s,t.u) values(x,2)",
    b"1 insert into root.d(time,7) values(1,2)",
    b"1 select a.b from root.d",
    b"1 select count(1) from root.d",
    b"1 select s from root",
    b"1 select s from root.a.a.a.a.a.a.a.a.a.a.a.a.a.a.a where time>x",
    b"1\tCREATE TimeSeries p WITH DataType = text , ENCODING = Dictionary ;",
    b"1 insert into d(TIME,time,values)values(x,\"a'b\")",
    b"1 delete from where",
    b"1 delete from p where time>=1 and time<=2 AND Time=+2;",
    b"1 select from from from",
    b"1 select count(b),a from d where time<=5",
];

#[test]
fn what_is_no_path(rt: HostRuntime) {
    expect(&rt, rt.alloc(), 4, &NO_PATH);
}

/// From the left the first bad word is no number and no value.
const NO_NUMBER: [&[u8]; 5] = [
    b"1 insert into root.d(time,s) values(1.5,2)",
    b"1 insert into root.d(time,s,s) values(1,yes)",
    b"1 insert into root.d(time,s) values(9223372036854775808,2)",
    b"1 insert into root.d(time,s) values(-9223372036854775808,+)",
    b"1 select s,count(s) from root.d where time=1 and time=true",
];

#[test]
fn what_is_no_number(rt: HostRuntime) {
    expect(&rt, rt.alloc(), 5, &NO_NUMBER);
}

/// From the left the first bad word is no type, encoding or aggregate.
const NO_NAME: [&[u8]; 5] = [
    b"1 create timeseries root.g.d.s with datatype=FLOAT,encoding=PLAIN",
    b"1 create timeseries root.g.d.s with datatype=TEXT,encoding=RLE",
    b"1 create timeseries root.g.d.s with datatype=INT32,encoding=GORILLA",
    b"1 select total(1) from root",
    b"1 select s,avg(s) from root.d where time>x",
];

#[test]
fn what_names_nothing(rt: HostRuntime) {
    expect(&rt, rt.alloc(), 8, &NO_NAME);
}

/// All words are good, and do not go together.
const UNBALANCED: [&[u8]; 5] = [
    b"1 insert into root.d(time,s,s) values(1,2,3)",
    b"1 insert into root.d(time,s) values(1,2,3)",
    b"1 insert into root.d(time,s,t) values(1,2)",
    b"1 select s,count(s) from root.d",
    b"1 select COUNT(s) , max_value ( s ),x from root.g",
];

#[test]
fn words_that_do_not_go_together(rt: HostRuntime) {
    expect(&rt, rt.alloc(), 7, &UNBALANCED);
}
