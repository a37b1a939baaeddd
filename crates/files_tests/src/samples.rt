//! What several tests share: tables of rows that are right or wrong, the worked file in both versions, points, and trees
//! that are made of tables. Depends on tsdb_pages, tsdb_path and tsdb_base.

use std::alloc::Global;
use std::test::Fail;
use tsdb_base::{DataType, Encoding, List, Point, Stats, Text, Value};
use tsdb_pages::{Chunk, Group, Page, Tree};
use tsdb_path::{Name, Path};

/// The file of the device `root.g.d` with the INT64 PLAIN measurement `s` and the one point 1, 5. The group stands at
/// 7, the chunk at 18, its page at 24, the leaf at 44, the statistics at 70 and 154, the root at 226 and the tail at 252.
pub static WORKED: [u8; 266] = *b"TsFile\x52\
\x47\x00\x08root.g.d\
\x43\x00\x01s\x02\x00\
\x50\x00\x00\x00\x0f\x00\x00\x00\x02\x01\x02\x01\x00\x00\x00\x00\x00\x00\x00\x05\
\x49\x00\x01\x00\x08root.g.d\x00\x01s\x02\x00\x00\x00\x00\x00\x00\x00\x00\x12\
\x00\x00\x00\x00\x00\x00\x00\x01\x00\x00\x00\x00\x00\x00\x00\x01\x00\x00\x00\x00\x00\x00\x00\x01\
\x00\x00\x00\x00\x00\x00\x00\x05\x00\x00\x00\x00\x00\x00\x00\x05\
\x00\x00\x00\x00\x00\x00\x00\x05\x00\x00\x00\x00\x00\x00\x00\x05\
\x00\x00\x00\x00\x00\x00\x00\x00\x00\x00\x00\x00\x00\x00\x00\x05\
\x00\x00\x00\x01\x00\x00\x00\x00\x00\x00\x00\x18\
\x00\x00\x00\x00\x00\x00\x00\x01\x00\x00\x00\x00\x00\x00\x00\x01\x00\x00\x00\x00\x00\x00\x00\x01\
\x00\x00\x00\x00\x00\x00\x00\x05\x00\x00\x00\x00\x00\x00\x00\x05\
\x00\x00\x00\x00\x00\x00\x00\x05\x00\x00\x00\x00\x00\x00\x00\x05\
\x00\x00\x00\x00\x00\x00\x00\x00\x00\x00\x00\x00\x00\x00\x00\x05\
\x52\x00\x00\x00\x01\x00\x08root.g.d\x00\x01s\x00\x00\x00\x00\x00\x00\x00\x2c\
\x00\x00\x00\x00\x00\x00\x00\xe2TsFile";

/// The same file in the version whose statistics have no sum, with the root at 194 and the tail at 220.
pub static OLD_WORKED: [u8; 234] = *b"TsFile\x51\
\x47\x00\x08root.g.d\
\x43\x00\x01s\x02\x00\
\x50\x00\x00\x00\x0f\x00\x00\x00\x02\x01\x02\x01\x00\x00\x00\x00\x00\x00\x00\x05\
\x49\x00\x01\x00\x08root.g.d\x00\x01s\x02\x00\x00\x00\x00\x00\x00\x00\x00\x12\
\x00\x00\x00\x00\x00\x00\x00\x01\x00\x00\x00\x00\x00\x00\x00\x01\x00\x00\x00\x00\x00\x00\x00\x01\
\x00\x00\x00\x00\x00\x00\x00\x05\x00\x00\x00\x00\x00\x00\x00\x05\
\x00\x00\x00\x00\x00\x00\x00\x05\x00\x00\x00\x00\x00\x00\x00\x05\
\x00\x00\x00\x01\x00\x00\x00\x00\x00\x00\x00\x18\
\x00\x00\x00\x00\x00\x00\x00\x01\x00\x00\x00\x00\x00\x00\x00\x01\x00\x00\x00\x00\x00\x00\x00\x01\
\x00\x00\x00\x00\x00\x00\x00\x05\x00\x00\x00\x00\x00\x00\x00\x05\
\x00\x00\x00\x00\x00\x00\x00\x05\x00\x00\x00\x00\x00\x00\x00\x05\
\x52\x00\x00\x00\x01\x00\x08root.g.d\x00\x01s\x00\x00\x00\x00\x00\x00\x00\x2c\
\x00\x00\x00\x00\x00\x00\x00\xc2TsFile";

/// The worked file with this byte inverted.
pub fn worked_but(place: usize) -> [u8; 266] {
    let mut bytes = WORKED;
    if let Some(byte) = bytes.get_mut(place) {
        *byte ^= 0xff;
    }
    bytes
}

/// The same in the older version.
pub fn old_worked_but(place: usize) -> [u8; 234] {
    let mut bytes = OLD_WORKED;
    if let Some(byte) = bytes.get_mut(place) {
        *byte ^= 0xff;
    }
    bytes
}

/// The statistics of the one point 1, 5 of INT64.
pub fn five() -> Stats {
    Stats {
        count: 1,
        start: 1,
        end: 1,
        first: Value::I64(5),
        last: Value::I64(5),
        least: Some(Value::I64(5)),
        greatest: Some(Value::I64(5)),
        sum: Some(5),
    }
}

/// The same without their sum.
pub fn old_five() -> Stats {
    Stats {
        sum: None,
        ..five()
    }
}

/// A row of a table, which is right or wrong by itself. Where memory ran out, it is wrong.
pub trait Row {
    fn is_right(&self, alloc: Global) -> bool;
}

/// The place of the first row that is wrong.
pub fn first_wrong<R: Row>(alloc: Global, rows: &[R]) -> Option<usize> {
    for place in 0..rows.len() {
        if !rows[place].is_right(alloc) {
            return Some(place);
        }
    }
    None
}

/// Fails where a place is wrong.
pub fn expect_none(wrong: Option<usize>) -> Result<(), Fail> {
    match wrong {
        None => Ok(()),
        Some(place) => Err(Fail::new(format_args!("{place} is wrong"))),
    }
}

/// Appends the item if there is one, and says whether it is there. As it is given away, the caller has nothing to drop.
pub fn push<T: Drop>(list: &mut Vec<T>, item: Option<T>) -> bool {
    match item {
        Some(item) => list.push(item).is_ok(),
        None => false,
    }
}

/// Whether this was found.
pub fn is_same<T: PartialEq + Drop>(found: Option<T>, wanted: &T) -> bool {
    match found {
        Some(found) => found == *wanted,
        None => false,
    }
}

/// The text of these bytes.
pub fn text(alloc: Global, bytes: &[u8]) -> Option<Value> {
    match Text::new(alloc, bytes) {
        Ok(text) => Some(Value::Text(text)),
        Err(_) => None,
    }
}

/// The value of a point at this time, whose number is from 0 to 100. That of type INT64 at 1 is that of the worked
/// file.
fn value_at(alloc: Global, data_type: DataType, time: i64) -> Option<Value> {
    let number = time.wrapping_mul(37) % 101;
    match data_type {
        DataType::Boolean => Some(Value::Bool(number > 50)),
        DataType::Int32 => Some(Value::I32(number as i32)),
        DataType::Int64 if time == 1 => Some(Value::I64(5)),
        DataType::Int64 => Some(Value::I64(number.wrapping_sub(i64::MAX))),
        DataType::Text => text(alloc, &number.to_be_bytes()[6..]),
    }
}

/// So many points at the times from `start` on. There are fewer where memory ran out.
pub fn points(alloc: Global, data_type: DataType, start: i64, count: u16) -> Vec<Point> {
    let mut points = Vec::new(alloc);
    for i in 0..i64::from(count) {
        let time = start.wrapping_add(i);
        if let Some(value) = value_at(alloc, data_type, time) {
            push(&mut points, Some(Point { time, value }));
        }
    }
    points
}

/// The measurement, the type and the encoding of a chunk, and how many points each of its pages has.
pub type ChunkRow<'a> = (&'a [u8], DataType, Encoding, &'a [u16]);

/// A device and its chunks.
pub type Device<'a> = (&'a [u8], &'a [ChunkRow<'a>]);

/// The device of the worked file, with its one chunk.
pub const WORKED_DEVICE: Device<'static> = (
    b"root.g.d",
    &[(b"s", DataType::Int64, Encoding::Plain, &[1])],
);

/// The chunk of a row, with points at the times 1, 2 and on.
fn chunk(alloc: Global, row: ChunkRow<'_>) -> Option<Chunk> {
    let (measurement, data_type, encoding, sizes) = row;
    let mut pages = Vec::new(alloc);
    let mut start = 1i64;
    for size in sizes {
        let points = List::of(points(alloc, data_type, start, *size));
        pages.push(Page { points }).ok()?;
        start = start.wrapping_add(i64::from(*size));
    }
    Some(Chunk {
        measurement: Name::read(alloc, measurement).ok()?,
        data_type,
        encoding,
        pages: List::of(pages),
    })
}

/// The group of a device.
fn group(alloc: Global, device: Device<'_>) -> Option<Group> {
    let (path, rows) = device;
    let mut chunks = Vec::new(alloc);
    for row in rows {
        let chunk = chunk(alloc, *row)?;
        chunks.push(chunk).ok()?;
    }
    Some(Group {
        device: Path::read(alloc, path).ok()?,
        chunks: List::of(chunks),
    })
}

/// The tree of these devices, if there is memory for it.
pub fn tree(alloc: Global, devices: &[Device<'_>]) -> Option<Tree> {
    let mut groups = Vec::new(alloc);
    for device in devices {
        let group = group(alloc, *device)?;
        groups.push(group).ok()?;
    }
    Some(Tree {
        groups: List::of(groups),
    })
}

/// The chunk of one INT64 PLAIN point whose measurement has this number, in three digits or more.
fn numbered_chunk(alloc: Global, number: u64) -> Option<Chunk> {
    let name = format!(in alloc; "s{number:03}").ok()?;
    chunk(
        alloc,
        (name.as_bytes(), DataType::Int64, Encoding::Plain, &[1]),
    )
}

/// The tree of a device with such chunks, of the numbers from the first to before the end.
pub fn numbered_tree(alloc: Global, device: &[u8], first: u64, end: u64) -> Option<Tree> {
    let mut chunks = Vec::new(alloc);
    for number in first..end {
        let chunk = numbered_chunk(alloc, number)?;
        chunks.push(chunk).ok()?;
    }
    let group = Group {
        device: Path::read(alloc, device).ok()?,
        chunks: List::of(chunks),
    };
    Some(Tree {
        groups: List::of(vec![in alloc; group].ok()?),
    })
}
