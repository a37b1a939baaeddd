//! Records of each kind and their bytes, and bytes that are no record.
ghost use Rattle.tsdb_log.specs.Spelling.{HasFewParts, IsRecord};

use std::alloc::Global;
use tsdb_base::{DataType, Encoding, FileNumber, Space, Value};
use tsdb_log::{CellRecord, LogFault, LogRecord, append_record, read_record, write_record};
use tsdb_path::Path;

/// The record that a payload is.
#[derive(Clone, Copy)]
enum Said {
    Create,
    Insert,
    Row,
    Delete,
    Freeze,
    Flushed,
    Replaced,
    Snapshot,
}

/// What a payload says, and its bytes.
type Payload = (Said, &'static [u8]);

/// A row of one INT64 cell, and one of a BOOLEAN, an INT32 and a TEXT cell. The replacement has two sequence inputs and
/// none of the other space. The snapshot has parts of each kind: a series, a watermark, a mark, a file, a frozen pair
/// with an INT32 point, and a working pair with a BOOLEAN and a TEXT point.
static PAYLOADS: [Payload; 8] = [
    (Said::Create, b"\x01\x00\x0aroot.g.d.s\x02\x00"),
    (
        Said::Insert,
        b"\x02\0\0\0\0\0\0\0\x01\x00\x01\0\0\0\0\0\0\0\0\x02\0\0\0\0\0\0\0\x05",
    ),
    (
        Said::Row,
        b"\x02\xff\xff\xff\xff\xff\xff\xff\xfe\x00\x03\0\0\0\0\0\0\0\x07\x00\x01\
\0\0\0\0\0\0\x01\0\x01\xff\xff\xff\xfe\0\0\0\0\0\0\0\0\x05\x00\x02hi",
    ),
    (
        Said::Delete,
        b"\x03\x00\x04root\xff\xff\xff\xff\xff\xff\xff\xff\0\0\0\0\0\0\0\x02",
    ),
    (Said::Freeze, b"\x04"),
    (Said::Flushed, b"\x05\0\0\0\0\0\0\0\x03\0\0\0\0\0\0\0\0"),
    (
        Said::Replaced,
        b"\x06\0\0\0\0\0\0\0\x09\x01\0\0\0\0\0\0\0\x02\0\0\0\0\0\0\0\x08\
\0\0\0\x02\0\0\0\0\0\0\0\x06\0\0\0\0\0\0\0\x07\0\0\0\0",
    ),
    (
        Said::Snapshot,
        b"\x07\0\0\0\0\0\0\0\x02\0\0\0\0\0\0\0\x09\0\0\0\0\0\0\0\x04\
\0\0\0\0\0\0\0\x01\x00\x0aroot.g.d.s\x02\x00\
\0\0\0\0\0\0\0\x01\x00\x08root.g.d\0\0\0\0\0\0\0\x07\
\0\0\0\0\0\0\0\x01\x00\x0aroot.g.d.s\xff\xff\xff\xff\xff\xff\xff\xff\0\0\0\0\0\0\0\x03\0\0\0\0\0\0\0\x08\
\0\0\0\0\0\0\0\x01\0\0\0\0\0\0\0\x03\0\0\0\0\0\0\0\x05\0\0\0\0\0\0\0\0\
\x01\0\0\0\0\0\0\0\x06\0\0\0\0\0\0\0\x01\0\0\0\0\0\0\0\0\0\0\0\0\0\0\0\x01\
\0\0\0\0\0\0\0\x04\x01\xff\xff\xff\xfe\0\0\0\0\0\0\0\0\
\0\0\0\0\0\0\0\x01\0\0\0\0\0\0\0\0\0\0\0\0\0\0\0\x02\
\0\0\0\0\0\0\0\x01\x00\x01\0\0\0\0\0\0\0\x02\x05\x00\x02hi\0\0\0\0\0\0\0\0",
    ),
];

fn is_series(path: &Path) -> bool {
    path.bytes() == b"root.g.d.s".as_slice()
}

fn is_text(value: &Value) -> bool {
    matches!(value, Value::Text(text) if text.bytes() == b"hi".as_slice())
}

fn is_cell(cells: &[CellRecord]) -> bool {
    match cells {
        [cell] => cell.series.0 == 0 && matches!(cell.value, Value::I64(5)),
        _ => false,
    }
}

fn are_cells(cells: &[CellRecord]) -> bool {
    match cells {
        [first, second, third] => {
            (first.series.0, second.series.0, third.series.0) == (7, 256, 0)
                && matches!(first.value, Value::Bool(true))
                && matches!(second.value, Value::I32(-2))
                && is_text(&third.value)
        }
        _ => false,
    }
}

/// Whether a record of files is the one that a payload is.
fn is_of_files(said: Said, item: &LogRecord) -> bool {
    match (said, item) {
        (
            Said::Flushed,
            LogRecord::Flushed {
                sequence,
                unsequence,
            },
        ) => (sequence.0, unsequence.0) == (3, 0),
        (
            Said::Replaced,
            LogRecord::Replaced {
                born,
                space,
                place,
                output,
                sequence,
                unsequence,
            },
        ) => {
            (born.0, *space, *place, output.0) == (9, Space::Unsequence, 2, 8)
                && sequence.items() == [FileNumber(6), FileNumber(7)].as_slice()
                && unsequence.items().is_empty()
        }
        _ => false,
    }
}

/// Whether a record is the one that a payload is.
fn is_said(said: Said, item: &LogRecord) -> bool {
    match (said, item) {
        (
            Said::Create,
            LogRecord::Create {
                path,
                data_type,
                encoding,
            },
        ) => is_series(path) && (*data_type, *encoding) == (DataType::Int64, Encoding::Plain),
        (Said::Insert, LogRecord::Insert { time, cells }) => *time == 1 && is_cell(cells.items()),
        (Said::Row, LogRecord::Insert { time, cells }) => *time == -2 && are_cells(cells.items()),
        (Said::Delete, LogRecord::Delete { path, range }) => {
            (path.bytes(), range.from, range.to) == (b"root".as_slice(), -1, 2)
        }
        (Said::Freeze, LogRecord::Freeze) => true,
        (Said::Snapshot, LogRecord::Snapshot(snapshot)) => {
            (snapshot.generation, snapshot.stamp.0, snapshot.next_file) == (2, 9, 4)
        }
        _ => is_of_files(said, item),
    }
}

/// Whether a record is written as these bytes.
fn is_written(alloc: Global, item: &LogRecord, bytes: &[u8]) -> bool
    requires { IsRecord item.now }
{
    match write_record(alloc, item) {
        Ok(written) => written.as_slice() == bytes,
        Err(_) => false,
    }
}

/// Whether bytes are bad at this place.
fn is_bad(read: Result<LogRecord, LogFault>, at: u64) -> bool {
    read.err() == Some(LogFault::Bad { at })
}

/// Whether the payload says so, and its record is written as its bytes.
fn is_exact(alloc: Global, (says, bytes): Payload) -> bool {
    let read = read_record(alloc, bytes);
    let is_exact = match &read {
        Ok(item) => is_said(says, item) && is_written(alloc, item, bytes),
        Err(_) => false,
    };
    drop(read);
    is_exact
}

/// The first payload that is not its record's.
fn first_inexact(alloc: Global, payloads: &[Payload]) -> Option<usize> {
    for (index, payload) in payloads.iter().enumerate() {
        if !is_exact(alloc, *payload) {
            return Some(index);
        }
    }
    None
}

#[test]
fn records_of_each_kind(rt: HostRuntime) {
    assert_eq!(rt; first_inexact(rt.alloc(), &PAYLOADS), None);
}

/// Whether a record of 17 bytes is appended behind what stands in room for 22, and the room is no larger then.
fn is_appended(item: &LogRecord, room: &mut Vec<u8>) -> bool
    requires { HasFewParts item.now }
{
    let wanted = b"frame\x05\0\0\0\0\0\0\0\x03\0\0\0\0\0\0\0\0";
    room.extend_from_slice(b"frame").is_ok()
        && append_record(item, room).is_ok()
        && room.capacity() == 22
        && room.as_slice() == wanted.as_slice()
}

fn is_appended_to_room(alloc: Global) -> bool {
    match Vec::with_capacity(alloc, 22) {
        Ok(mut room) => {
            let flush = LogRecord::Flushed {
                sequence: FileNumber(3),
                unsequence: FileNumber(0),
            };
            let is_appended = is_appended(&flush, &mut room);
            drop(flush);
            is_appended
        }
        Err(_) => false,
    }
}

/// A record that is appended to room that was made for it takes no more, and leaves what stood there.
#[test]
fn appended_to_lent_room(rt: HostRuntime) {
    assert!(rt; is_appended_to_room(rt.alloc()));
}

/// Bytes that are no record, and where they are bad: those of the format's table, a type and an encoding that there are
/// not, a BOOLEAN value of 2, a TEXT value, a range and a number of a file that are cut, a space of 2, and numbers of
/// files and of series that no payload could hold.
static BAD: [(&[u8], u64); 16] = [
    (b"", 0),
    (b"\x08", 0),
    (b"\x07", 1),
    (b"\x04\x00", 1),
    (b"\x01\x00\x0aroot", 1),
    (b"\x02\0\0\0\0\0\0\0\x01\xff\xff", 11),
    (b"\x01\x00\x0aroot.g.d.s\xfd\x00", 13),
    (b"\x01\x00\x0aroot.g.d.s\x02\xff", 14),
    (
        b"\x02\0\0\0\0\0\0\0\x01\x00\x01\0\0\0\0\0\0\0\0\x00\x02",
        20,
    ),
    (
        b"\x02\0\0\0\0\0\0\0\x01\x00\x01\0\0\0\0\0\0\0\0\x05\x00\x02h",
        20,
    ),
    (
        b"\x03\x00\x04root\xff\xff\xff\xff\xff\xff\xff\xff\0\0\0\0\0\0\0",
        15,
    ),
    (b"\x05\0\0\0\0\0\0\0\x03\0\0\0\0\0\0\0", 9),
    (
        b"\x06\0\0\0\0\0\0\0\x09\x02\0\0\0\0\0\0\0\0\0\0\0\0\0\0\0\0",
        9,
    ),
    (
        b"\x06\0\0\0\0\0\0\0\x09\0\0\0\0\0\0\0\0\0\0\0\0\0\0\0\0\0\xff\xff\xff\xff",
        30,
    ),
    (
        b"\x07\0\0\0\0\0\0\0\x02\0\0\0\0\0\0\0\x09\0\0\0\0\0\0\0\x04\
\xff\xff\xff\xff\xff\xff\xff\xff",
        33,
    ),
    // An INT32 cell with the type byte of INT64: its value takes four bytes of the next cell, whose type is then `i`.
    (
        b"\x02\xff\xff\xff\xff\xff\xff\xff\xfe\x00\x03\0\0\0\0\0\0\0\x07\x00\x01\
\0\0\0\0\0\0\x01\0\x02\xff\xff\xff\xfe\0\0\0\0\0\0\0\0\x05\x00\x02hi",
        46,
    ),
];

/// The first row that is bad elsewhere or not bad.
fn first_not_bad(alloc: Global, rows: &[(&[u8], u64)]) -> Option<usize> {
    for (index, (bytes, at)) in rows.iter().enumerate() {
        if !is_bad(read_record(alloc, bytes), *at) {
            return Some(index);
        }
    }
    None
}

#[test]
fn bytes_that_are_no_record(rt: HostRuntime) {
    assert_eq!(rt; first_not_bad(rt.alloc(), &BAD), None);
}
