//! Tests of tsdb_print: that each call succeeds with ample memory, and texts worked out by hand. Depends on tsdb_print,
//! tsdb_model, tsdb_path and tsdb_base.

use std::alloc::Global;
use tsdb_base::{
    Aggregate, Answer, Figure, FileNumber, List, Memory, Range, Space, Stamp, Text, Value,
};
use tsdb_model::{Command, FileLine, Item, Line, Listing, Reply};
use tsdb_path::{Name, Path};
use tsdb_print::{print_order, print_reply, print_session};

/// Whether this is printed.
fn is_text(printed: Result<Vec<u8>, Memory>, text: &[u8]) -> bool {
    match printed {
        Ok(bytes) => bytes.as_slice() == text,
        Err(Memory) => false,
    }
}

const ANSWERS: [(Answer, &str); 7] = [
    (Answer::Done, "ok\n"),
    (Answer::NoPath, "path\n"),
    (Answer::WrongType, "type\n"),
    (Answer::Exists, "exists\n"),
    (Answer::Device, "device\n"),
    (Answer::Memory, "memory\n"),
    (Answer::Full { counter: 7 }, "full\n"),
];

fn is_answer(alloc: Global, answer: Answer, text: &str) -> bool {
    let printed = print_reply(alloc, &Command::Flush, &Reply::Plain(answer));
    is_text(printed, text.as_bytes())
}

#[test]
fn plain_answers(rt: HostRuntime) {
    for (place, (answer, text)) in ANSWERS.iter().enumerate() {
        assert!(rt; is_answer(rt.alloc(), *answer, text), "{place}");
    }
}

type Column = (&'static str, Option<Aggregate>);

// The lists below lack what memory does not suffice for, which the text shows.

fn items_of(alloc: Global, columns: &[Column]) -> List<Item> {
    let mut items = Vec::new(alloc);
    for (name, aggregate) in columns {
        if let Ok(measurement) = Name::read(alloc, name.as_bytes()) {
            let aggregate = *aggregate;
            let _ = items.push(Item {
                measurement,
                aggregate,
            });
        }
    }
    List::of(items)
}

/// Whether a select of these columns from `root.g.d`, over all times, prints this.
fn select_prints(alloc: Global, columns: &[Column], reply: &Reply, text: &[u8]) -> bool {
    match Path::read(alloc, b"root.g.d") {
        Ok(device) => {
            let command = Command::Select {
                device,
                items: items_of(alloc, columns),
                range: Range {
                    from: i64::MIN,
                    to: i64::MAX,
                },
            };
            is_text(print_reply(alloc, &command, reply), text)
        }
        Err(_) => false,
    }
}

/// A value of a table, or a sum.
#[derive(Clone, Copy)]
enum Cell {
    Null,
    Bool(bool),
    I32(i32),
    I64(i64),
    Text(&'static [u8]),
    Sum(i128),
}

fn value_of(alloc: Global, cell: Cell) -> Option<Value> {
    match cell {
        Cell::Null | Cell::Sum(_) => None,
        Cell::Bool(truth) => Some(Value::Bool(truth)),
        Cell::I32(number) => Some(Value::I32(number)),
        Cell::I64(number) => Some(Value::I64(number)),
        Cell::Text(bytes) => match Text::new(alloc, bytes) {
            Ok(text) => Some(Value::Text(text)),
            Err(_) => None,
        },
    }
}

fn values_of(alloc: Global, cells: &[Cell]) -> List<Option<Value>> {
    let mut values = Vec::new(alloc);
    for cell in cells {
        let _ = values.push(value_of(alloc, *cell));
    }
    List::of(values)
}

fn figure_of(alloc: Global, cell: Cell) -> Option<Figure> {
    match cell {
        Cell::Sum(sum) => Some(Figure::Sum(sum)),
        _ => match value_of(alloc, cell) {
            Some(value) => Some(Figure::Value(value)),
            None => None,
        },
    }
}

fn figures_of(alloc: Global, cells: &[Cell]) -> List<Option<Figure>> {
    let mut figures = Vec::new(alloc);
    for cell in cells {
        let _ = figures.push(figure_of(alloc, *cell));
    }
    List::of(figures)
}

type Row = (i64, [Cell; 2]);

fn lines_of(alloc: Global, rows: &[Row]) -> List<Line> {
    let mut lines = Vec::new(alloc);
    for (time, cells) in rows {
        let time = *time;
        let values = values_of(alloc, cells);
        let _ = lines.push(Line { time, values });
    }
    List::of(lines)
}

const TEXT_AND_NUMBER: [Column; 2] = [("t", None), ("s", None)];

/// A text with a quote, an empty one, bytes that are no characters, and the extremes of whole numbers.
const ROWS: [Row; 3] = [
    (i64::MIN, [Cell::Text(b"it's"), Cell::Null]),
    (-1, [Cell::Text(b""), Cell::I64(i64::MAX)]),
    (0, [Cell::Text(b"''\n,\xff"), Cell::I64(-7)]),
];

/// Whether these rows print this.
fn rows_print(alloc: Global, rows: &[Row], text: &[u8]) -> bool {
    let reply = Reply::Lines(lines_of(alloc, rows));
    select_prints(alloc, &TEXT_AND_NUMBER, &reply, text)
}

#[test]
fn rows_of_texts_and_numbers(rt: HostRuntime) {
    let text = b"time,t,s
-9223372036854775808,'it''s',null
-1,'',9223372036854775807
0,'''''\n,\xff',-7
rows 3
";
    assert!(rt; rows_print(rt.alloc(), &ROWS, text));
}

#[test]
fn no_rows(rt: HostRuntime) {
    assert!(rt; rows_print(rt.alloc(), &[], b"time,t,s\nrows 0\n"));
}

const AGGREGATES: [Column; 8] = [
    ("s", Some(Aggregate::Count)),
    ("s", Some(Aggregate::MaxValue)),
    ("s", Some(Aggregate::MinTime)),
    ("b", Some(Aggregate::FirstValue)),
    ("a", Some(Aggregate::LastValue)),
    ("a", Some(Aggregate::MinValue)),
    ("a", Some(Aggregate::MaxTime)),
    ("s", Some(Aggregate::Sum)),
];

const VALUES: [Cell; 8] = [
    Cell::I64(0),
    Cell::Null,
    Cell::Null,
    Cell::Bool(true),
    Cell::Text(b"x"),
    Cell::I32(-1),
    Cell::I64(8),
    Cell::Sum(18_446_744_073_709_551_614),
];

fn values_print(alloc: Global, columns: &[Column], cells: &[Cell], text: &[u8]) -> bool {
    let reply = Reply::Values(figures_of(alloc, cells));
    select_prints(alloc, columns, &reply, text)
}

/// The items stand as they were written, and not in the order of their names.
#[test]
fn aggregates(rt: HostRuntime) {
    let text =
        b"count(s),max_value(s),min_time(s),first_value(b),last_value(a),min_value(a),max_time(a),sum(s)
0,null,null,true,'x',-1,8,18446744073709551614
";
    assert!(rt; values_print(rt.alloc(), &AGGREGATES, &VALUES, text));
}

/// Sums at both ends of 128 bits, of one digit, and none.
#[test]
fn sums(rt: HostRuntime) {
    let columns = [("s", Some(Aggregate::Sum)); 5];
    let cells = [
        Cell::Sum(i128::MIN),
        Cell::Sum(i128::MAX),
        Cell::Sum(0),
        Cell::Sum(-9),
        Cell::Null,
    ];
    let text = b"sum(s),sum(s),sum(s),sum(s),sum(s)
-170141183460469231731687303715884105728,170141183460469231731687303715884105727,0,-9,null
";
    assert!(rt; values_print(rt.alloc(), &columns, &cells, text));
}

/// Files: the space, the number, the stamp, the least and the greatest time, each with one point.
const FILES: [(Space, u64, u64, i64, i64); 3] = [
    (Space::Unsequence, 3, 4, -15, 15),
    (Space::Sequence, 4, 5, 10, 10),
    (Space::Sequence, 1, 2, 11, 12),
];

fn files_of(alloc: Global) -> List<FileLine> {
    let mut files = Vec::new(alloc);
    for (space, number, born, from, to) in FILES {
        let _ = files.push(FileLine {
            space,
            number: FileNumber(number),
            born: Stamp(born),
            points: 1,
            from,
            to,
        });
    }
    List::of(files)
}

/// Whether the listing of the files prints this.
fn listing_prints(alloc: Global, text: &[u8]) -> bool {
    let reply = Reply::Files(Listing {
        files: files_of(alloc),
        frozen: 2,
        working: [0, 7],
        marks: 1,
    });
    is_text(print_reply(alloc, &Command::ShowFiles, &reply), text)
}

#[test]
fn listings(rt: HostRuntime) {
    let text = b"sequence 4 born 5 points 1 from 10 to 10
sequence 1 born 2 points 1 from 11 to 12
unsequence 3 born 4 points 1 from -15 to 15
frozen 2
working 0 7
marks 1
";
    assert!(rt; listing_prints(rt.alloc(), text));
}

#[test]
fn headings_of_sessions(rt: HostRuntime) {
    assert!(rt; is_text(print_session(rt.alloc(), 999), b"session 999\n"));
}

#[test]
fn orders_of_sessions(rt: HostRuntime) {
    let some = print_order(rt.alloc(), &[2, 1, 999, 2]);
    assert!(rt; is_text(some, b"order 2 1 999 2\n"));
    let none = print_order(rt.alloc(), &[]);
    assert!(rt; is_text(none, b"order\n"));
}
