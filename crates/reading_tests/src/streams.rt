//! Streams over two files and a part in memory, and what they give.
ghost use Rattle.std.specs.Prelude.{◌≡◌};
ghost use Rattle.tsdb_streams.specs.Streams.{IsStreamOfStore};

use crate::files::{Deletion, Pair, file_of, marks_of, page_of, points_of, port_failing};
use std::alloc::Global;
use std::test::Fail;
use tsdb_base::{FileNumber, Point, Range, Stamp, Value};
use tsdb_marks::Marks;
use tsdb_outside::{Port, StoreFault};
use tsdb_path::Path;
use tsdb_streams::{Stream, StreamSource, open_stream, pull};

/// A file that holds two pages of the series, born so.
#[derive(Clone, Copy)]
pub struct Stored {
    pub born: u64,
    pub pages: [&'static [Pair]; 2],
}

/// An older file, a newer one, and the points of a part in memory.
#[derive(Clone, Copy)]
pub struct Sources {
    pub files: [Stored; 2],
    pub part: &'static [Pair],
    pub part_born: u64,
    pub deletions: &'static [Deletion],
}

/// The bytes of a file.
fn bytes_of(alloc: Global, stored: &Stored) -> Result<Vec<u8>, Fail> {
    let [first, second] = stored.pages;
    file_of(
        alloc,
        vec![in alloc; page_of(alloc, first)?, page_of(alloc, second)?]?,
    )
}

/// What a stream is opened over beside the files.
#[derive(Drop)]
struct Asked {
    series: Path,
    range: Range,
    marks: Marks,
    part: Vec<Point>,
    born: [u64; 3],
}

fn asked_of(alloc: Global, sources: &Sources, times: Pair) -> Result<Asked, Fail> {
    let series = Path::read(alloc, b"root.g.d.s")?;
    let marks = marks_of(alloc, sources.deletions)?;
    let part = points_of(alloc, sources.part)?;
    Ok(Asked {
        series,
        range: Range {
            from: times.0,
            to: times.1,
        },
        marks,
        part,
        born: [
            sources.files[0].born,
            sources.files[1].born,
            sources.part_born,
        ],
    })
}

/// What a stream gave, the most points that it held behind a pull, and the fault that it met.
#[derive(Drop)]
pub struct Read {
    pub found: Vec<Pair>,
    pub held: u64,
    pub fault: Option<StoreFault>,
}

fn nothing_read(alloc: Global, fault: Option<StoreFault>) -> Read {
    Read {
        found: Vec::new(alloc),
        held: 0,
        fault,
    }
}

fn pair_of(point: &Point) -> Pair {
    match &point.value {
        Value::I64(value) => (point.time, *value),
        _ => (point.time, 0),
    }
}

/// Takes the points of a stream. It is pulled behind its end too.
pub fn pull_all<P: Port>(alloc: Global, stream: &mut Stream<'_, P::Right>, port: &mut P) -> Read
    requires of_store { IsStreamOfStore P.Right.file (P.store port.old) stream.old }
    ensures same_store { P.store port.new ≡ P.store port.old }
{
    let mut read = nothing_read(alloc, None);
    for _ in 0..3_000 {
        match pull(stream, port) {
            Ok(Some(point)) => {
                read.held = read.held.max(stream.held());
                if read.found.push(pair_of(&point)).is_err() {
                    read.fault = Some(StoreFault::Memory);
                    return read;
                }
            }
            Ok(None) => (),
            Err(fault) => {
                read.fault = Some(fault);
                return read;
            }
        }
    }
    read
}

/// Reads the series from two files, from the lower to the higher priority, and the part in memory.
fn read_both<P: Port>(
    alloc: Global,
    port: &mut P,
    older: &P::Right,
    newer: &P::Right,
    asked: &Asked,
) -> Result<Read, Fail>
    requires older { (P.Right.file older.now).store ≡ P.store port.old }
    requires newer { (P.Right.file newer.now).store ≡ P.store port.old }
    ensures same_store { P.store port.new ≡ P.store port.old }
{
    if asked.series.nodes() < 2 {
        return Err("no series".into());
    }
    let older = StreamSource::File {
        right: older,
        born: Stamp(asked.born[0]),
    };
    let newer = StreamSource::File {
        right: newer,
        born: Stamp(asked.born[1]),
    };
    let part = StreamSource::Part {
        points: &asked.part,
        born: Stamp(asked.born[2]),
    };
    let list = vec![in alloc; older, newer, part]?;
    match open_stream(alloc, &asked.series, &asked.range, &asked.marks, list, port) {
        Ok(mut stream) => Ok(pull_all(alloc, &mut stream, port)),
        Err(fault) => Ok(nothing_read(alloc, Some(fault))),
    }
}

/// The same with a right of the newer file.
fn read_newer<P: Port>(
    alloc: Global,
    port: &mut P,
    older: &P::Right,
    newer: &mut P::Sealed,
    asked: &Asked,
) -> Result<Read, Fail>
    requires older { (P.Right.file older.now).store ≡ P.store port.old }
    requires newer { (P.Sealed.file newer.old).store ≡ P.store port.old }
    requires unread { P.Sealed.rights newer.old ≡ 0 }
    ensures unread { P.Sealed.rights newer.new ≡ 0 }
    ensures file { P.Sealed.file newer.new ≡ P.Sealed.file newer.old }
    ensures same_store { P.store port.new ≡ P.store port.old }
{
    let Ok(right) = P::share(newer) else {
        return Err("memory".into());
    };
    let read = read_both(alloc, port, older, &right, asked);
    P::give_back(newer, right);
    read
}

/// The same with rights of both files.
fn read_older<P: Port>(
    alloc: Global,
    port: &mut P,
    older: &mut P::Sealed,
    newer: &mut P::Sealed,
    asked: &Asked,
) -> Result<Read, Fail>
    requires older { (P.Sealed.file older.old).store ≡ P.store port.old }
    requires newer { (P.Sealed.file newer.old).store ≡ P.store port.old }
    requires unread { (P.Sealed.rights older.old ≡ 0) × (P.Sealed.rights newer.old ≡ 0) }
    ensures unread { (P.Sealed.rights older.new ≡ 0) × (P.Sealed.rights newer.new ≡ 0) }
    ensures older { P.Sealed.file older.new ≡ P.Sealed.file older.old }
    ensures newer { P.Sealed.file newer.new ≡ P.Sealed.file newer.old }
    ensures same_store { P.store port.new ≡ P.store port.old }
{
    let Ok(right) = P::share(older) else {
        return Err("memory".into());
    };
    let read = read_newer(alloc, port, &right, newer, asked);
    P::give_back(older, right);
    read
}

/// Stores both files, reads the series, and removes them again.
fn read_files<P: Port>(
    alloc: Global,
    port: &mut P,
    bytes: (&[u8], &[u8]),
    asked: &Asked,
) -> Result<Read, Fail> {
    let Ok(mut older) = port.put(FileNumber(1), bytes.0) else {
        return Err("not stored".into());
    };
    let Ok(mut newer) = port.put(FileNumber(2), bytes.1) else {
        let _ = port.remove(older);
        return Err("not stored".into());
    };
    let read = read_older(alloc, port, &mut older, &mut newer, asked);
    let _ = port.remove(newer);
    let _ = port.remove(older);
    read
}

/// Reads the series from the two files and the part in memory, over a port of which this call fails, counted from 1
/// with the two calls that store. Also how many bytes the port read.
pub fn read_stored(
    alloc: Global,
    sources: &Sources,
    times: Pair,
    failing: u64,
) -> Result<(Read, u64), Fail> {
    let older = bytes_of(alloc, &sources.files[0])?;
    let newer = bytes_of(alloc, &sources.files[1])?;
    let asked = asked_of(alloc, sources, times)?;
    let mut port = port_failing(alloc, failing)?;
    let read = read_files(alloc, &mut port, (&older, &newer), &asked)?;
    Ok((read, port.bytes_read()))
}
