//! Pins of one series over a file, and what they answer.
ghost use Rattle.std.specs.List.{AllByRecursion as Each};
ghost use Rattle.std.specs.Prelude.{◌≡◌, ◌<◌, ◌≤◌, ◌∷◌, ◌++◌, [], vec_capacity, vec_len};
ghost use Rattle.tsdb_path.specs.Nodes.{node_count};
ghost use Rattle.tsdb_pins.specs.Reading.{AreColumnsOf, HaveNodes, IsOfStore};

use crate::files::port_failing;
use crate::queries::{Asked, Query, asked_of, bytes_to};
use crate::streams::{Read, pull_all};
use mem_outside::MemFiles;
use std::alloc::Global;
use std::marker::Brand;
use std::mem::replace;
use std::sync::ledger::{Blank, Ledger};
use std::test::Fail;
use tsdb_base::{Figure, FileNumber, List, Range, Stamp, Steps, Time, Value};
use tsdb_marks::Marks;
use tsdb_model::Line;
use tsdb_outside::{Files, Port, StoreFault};
use tsdb_pin::{Column, Pin, PinnedSource};
use tsdb_pins::{aggregates, open_column, select};

/// What a pin of one column answers.
#[derive(Clone, Copy, Debug, PartialEq, Eq)]
pub enum Answer {
    /// The value of the aggregate.
    Value(i64),
    /// The sum.
    Sum(i128),
    /// How many rows there are, and the first one.
    Rows(usize, Time, i64),
    /// No value, or no row.
    Nothing,
    /// A fault, and no answer.
    Fault(StoreFault),
}

fn value_in(values: &[Option<Figure>]) -> Answer {
    match values {
        [Some(Figure::Value(Value::I64(value)))] => Answer::Value(*value),
        [Some(Figure::Sum(sum))] => Answer::Sum(*sum),
        _ => Answer::Nothing,
    }
}

fn rows_in(lines: &[Line]) -> Answer {
    let Some(line) = lines.first() else {
        return Answer::Nothing;
    };
    match line.values.items() {
        [Some(Value::I64(value))] => Answer::Rows(lines.len(), line.time, *value),
        _ => Answer::Nothing,
    }
}

/// The aggregate of the pin's column.
fn fold<F: Files, L: Ledger>(
    alloc: Global,
    port: &mut F::Port,
    pin: &Pin<F>,
    blank: Blank,
) -> Answer
    requires name { blank.name ≡ L.name }
    requires parts { blank.parts ≡ L.parts }
    requires one { blank.parts ≡ 1 }
    requires nodes { HaveNodes pin.now.columns }
    requires of_store { AreColumnsOf F.Right.file (F.Port.store port.old) pin.now.columns }
    ensures same_store { F.Port.store port.new ≡ F.Port.store port.old }
{
    let mut pages = Steps::<L>::new(blank);
    match aggregates(alloc, pin, port, &mut pages) {
        Ok(values) => value_in(&values),
        Err(fault) => Answer::Fault(fault),
    }
}

/// The rows of the pin.
fn read<F: Files>(alloc: Global, port: &mut F::Port, pin: &Pin<F>) -> Answer
    requires nodes { HaveNodes pin.now.columns }
    requires of_store { AreColumnsOf F.Right.file (F.Port.store port.old) pin.now.columns }
    ensures same_store { F.Port.store port.new ≡ F.Port.store port.old }
{
    match select(alloc, pin, port) {
        Ok(lines) => rows_in(&lines),
        Err(fault) => Answer::Fault(fault),
    }
}

/// Puts the item behind the others. There is room for it.
fn push<T>(items: &mut Vec<T>, item: T)
    requires { vec_len items.old < vec_capacity items.old }
    ensures { items.new.items ≡ items.old.items ++ item ∷ [] }
{
    match items.push(item) {
        Ok(()) => (),
        Err(_full) => unreachable!(),
    }
}

/// The last item, taken out.
fn pop<T>(items: &mut Vec<T>) -> T
    requires { 0 < vec_len items.old }
    ensures { items.old.items ≡ items.new.items ++ result ∷ [] }
{
    match items.pop() {
        Some(item) => item,
        None => unreachable!(),
    }
}

/// The points that a stream gave, as rows.
fn rows_read(read: &Read) -> Answer {
    match (read.fault, read.found.first()) {
        (Some(fault), _) => Answer::Fault(fault),
        (None, Some(first)) => Answer::Rows(read.found.len(), first.0, first.1),
        (None, None) => Answer::Nothing,
    }
}

/// The points that the stream of the pin's column gives, as rows.
fn stream<F: Files>(alloc: Global, port: &mut F::Port, pin: &Pin<F>) -> Answer
    requires nodes { HaveNodes pin.now.columns }
    requires of_store { AreColumnsOf F.Right.file (F.Port.store port.old) pin.now.columns }
    ensures same_store { F.Port.store port.new ≡ F.Port.store port.old }
{
    if pin.columns.items().is_empty() {
        return Answer::Nothing;
    }
    match open_column(alloc, pin, 0, port) {
        Ok(mut stream) => rows_read(&pull_all(alloc, &mut stream, port)),
        Err(fault) => Answer::Fault(fault),
    }
}

/// The aggregate of the pin's column where one is asked for, and else its rows, or its stream.
fn answer_of<F: Files>(alloc: Global, port: &mut F::Port, pin: &Pin<F>, streams: bool) -> Answer
    requires nodes { HaveNodes pin.now.columns }
    requires of_store { AreColumnsOf F.Right.file (F.Port.store port.old) pin.now.columns }
    ensures same_store { F.Port.store port.new ≡ F.Port.store port.old }
{
    let [column] = pin.columns.items() else {
        return Answer::Nothing;
    };
    if column.aggregate.is_some() {
        return fold::<F, Brand>(alloc, port, pin, Blank::new(1));
    }
    if streams {
        return stream::<F>(alloc, port, pin);
    }
    read::<F>(alloc, port, pin)
}

/// Asks a pin of these columns, and hands them back.
fn ask_columns<F: Files>(
    alloc: Global,
    port: &mut F::Port,
    range: Range,
    marks: Marks,
    columns: Vec<Column<F>>,
    streams: bool,
) -> (Answer, Vec<Column<F>>)
    requires nodes { HaveNodes columns.items }
    requires of_store { AreColumnsOf F.Right.file (F.Port.store port.old) columns.items }
    ensures columns { result.1.items ≡ columns.items }
    ensures same_store { F.Port.store port.new ≡ F.Port.store port.old }
{
    let pin = Pin {
        stamp: Stamp(9),
        range,
        marks,
        columns: List::of(columns),
    };
    let answer = answer_of::<F>(alloc, port, &pin, streams);
    let Pin {
        stamp: _,
        range: _,
        marks: _,
        columns,
    } = pin;
    (answer, columns.into_vec())
}

/// The sources of a column, which is let go.
fn sources_of<F: Files>(column: Column<F>) -> Vec<PinnedSource<F>>
    ensures { result.items ≡ column.sources }
{
    let Column {
        schema: _,
        aggregate: _,
        sources,
    } = column;
    sources.into_vec()
}

/// Asks a pin of these sources, and hands them back.
fn ask_sources<F: Files>(
    alloc: Global,
    port: &mut F::Port,
    asked: Asked,
    sources: Vec<PinnedSource<F>>,
) -> (Result<Answer, Fail>, Vec<PinnedSource<F>>)
    requires nodes { 2 ≤ node_count asked.schema.path }
    requires of_store { Each (IsOfStore F.Right.file (F.Port.store port.old)) sources.items }
    ensures sources { result.1.items ≡ sources.items }
    ensures same_store { F.Port.store port.new ≡ F.Port.store port.old }
{
    let mut columns = Vec::new(alloc);
    if columns.reserve(1).is_err() {
        columns.destroy_empty();
        return (Err("memory".into()), sources);
    }
    let Asked {
        schema,
        marks,
        range,
        aggregate,
        part: _,
        streams,
    } = asked;
    let sources = List::of(sources);
    push(
        &mut columns,
        Column::<F> {
            schema,
            aggregate,
            sources,
        },
    );
    let (answer, mut columns) = ask_columns(alloc, port, range, marks, columns, streams);
    let column = pop(&mut columns);
    columns.destroy_empty();
    (Ok(answer), sources_of(column))
}

/// Asks with the part in memory, if there is one, behind the other sources.
fn ask_with_part<F: Files>(
    alloc: Global,
    port: &mut F::Port,
    mut asked: Asked,
    mut sources: Vec<PinnedSource<F>>,
) -> (Result<Answer, Fail>, Vec<PinnedSource<F>>)
    requires nodes { 2 ≤ node_count asked.schema.path }
    requires of_store { Each (IsOfStore F.Right.file (F.Port.store port.old)) sources.items }
    ensures sources { result.1.items ≡ sources.items }
    ensures same_store { F.Port.store port.new ≡ F.Port.store port.old }
{
    if asked.part.is_empty() {
        return ask_sources(alloc, port, asked, sources);
    }
    if sources.reserve(1).is_err() {
        return (Err("memory".into()), sources);
    }
    let points = replace(&mut asked.part, Vec::new(alloc));
    push(
        &mut sources,
        PinnedSource::Part {
            born: Stamp(9),
            points: List::of(points),
        },
    );
    let (answer, mut sources) = ask_sources(alloc, port, asked, sources);
    match pop(&mut sources) {
        PinnedSource::Part { born: _, points: _ } => (),
        PinnedSource::File {
            number: _,
            born: _,
            right: _right,
        } => unreachable!(),
    }
    (answer, sources)
}

/// Asks with a right of the file.
pub fn ask_file<F: Files>(
    alloc: Global,
    port: &mut F::Port,
    asked: Asked,
    sealed: &mut F::Sealed,
) -> Result<Answer, Fail>
    requires nodes { 2 ≤ node_count asked.schema.path }
    requires of_store { (F.Sealed.file sealed.old).store ≡ F.Port.store port.old }
    requires unread { F.Sealed.rights sealed.old ≡ 0 }
    ensures file { F.Sealed.file sealed.new ≡ F.Sealed.file sealed.old }
    ensures unread { F.Sealed.rights sealed.new ≡ 0 }
    ensures same_store { F.Port.store port.new ≡ F.Port.store port.old }
{
    let mut sources = Vec::new(alloc);
    if sources.reserve(1).is_err() {
        sources.destroy_empty();
        return Err("memory".into());
    }
    let Ok(right) = F::Port::share(sealed) else {
        sources.destroy_empty();
        return Err("memory".into());
    };
    push(
        &mut sources,
        PinnedSource::<F>::File {
            number: FileNumber(1),
            born: Stamp(5),
            right,
        },
    );
    let (answer, mut sources) = ask_with_part(alloc, port, asked, sources);
    match pop(&mut sources) {
        PinnedSource::File {
            number: _,
            born: _,
            right,
        } => F::Port::give_back(sealed, right),
        PinnedSource::Part { born: _, points: _ } => unreachable!(),
    }
    sources.destroy_empty();
    answer
}

/// Stores the file, asks, and removes it again.
fn ask_bytes<F: Files>(
    alloc: Global,
    port: &mut F::Port,
    asked: Asked,
    bytes: &[u8],
) -> Result<Answer, Fail>
    requires nodes { 2 ≤ node_count asked.schema.path }
{
    let Ok(mut sealed) = port.put(FileNumber(1), bytes) else {
        return Err("not stored".into());
    };
    let answer = ask_file::<F>(alloc, port, asked, &mut sealed);
    let _ = port.remove(sealed);
    answer
}

/// Asks over a port of which this call fails, counted from 1 with the call that stores the file. Also gives how many
/// bytes the port read.
pub fn ask_stored(alloc: Global, query: &Query, failing: u64) -> Result<(Answer, u64), Fail> {
    let bytes = bytes_to(alloc, query.last)?;
    let asked = asked_of(alloc, query)?;
    let mut port = port_failing(alloc, failing)?;
    let answer = ask_bytes::<MemFiles>(alloc, &mut port, asked, &bytes)?;
    Ok((answer, port.bytes_read()))
}
