//! Records that are replayed one behind another, up to the first that has no replay.
use std::alloc::Global;
use std::test::Fail;
use tsdb_base::{DataType, Encoding, FileNumber, List, Range, SeriesId, Space, Stamp, Time, Value};
use tsdb_log::{CellRecord, LogRecord};
use tsdb_path::Path;
use tsdb_redo::{Opening, RedoFault};

/// A record as plain data.
#[derive(Clone, Copy)]
enum Item {
    /// Creates a series of whole numbers with this path.
    Create(&'static [u8]),
    /// Inserts 5 at this time into the series with these numbers.
    Insert(Time, &'static [u64]),
    /// Deletes all points of the series with this path.
    Delete(&'static [u8]),
    Freeze,
    Flushed(u64, u64),
    Replaced(Output, &'static [u64], &'static [u64]),
}

/// What a record says of the output of replaced files.
#[derive(Clone, Copy)]
struct Output {
    born: u64,
    space: Space,
    place: u64,
    number: u64,
}

fn numbers_of(alloc: Global, numbers: &[u64]) -> Result<List<FileNumber>, Fail> {
    let mut list = Vec::new(alloc);
    for number in numbers {
        list.push(FileNumber(*number))?;
    }
    Ok(List::of(list))
}

fn cells_of(alloc: Global, series: &[u64]) -> Result<List<CellRecord>, Fail> {
    let mut cells = Vec::new(alloc);
    for number in series {
        cells.push(CellRecord {
            series: SeriesId(*number),
            value: Value::I64(5),
        })?;
    }
    Ok(List::of(cells))
}

fn record_of(alloc: Global, item: Item) -> Result<LogRecord, Fail> {
    match item {
        Item::Create(path) => Ok(LogRecord::Create {
            path: Path::read(alloc, path)?,
            data_type: DataType::Int64,
            encoding: Encoding::Plain,
        }),
        Item::Insert(time, series) => Ok(LogRecord::Insert {
            time,
            cells: cells_of(alloc, series)?,
        }),
        Item::Delete(path) => Ok(LogRecord::Delete {
            path: Path::read(alloc, path)?,
            range: Range {
                from: i64::MIN,
                to: i64::MAX,
            },
        }),
        Item::Freeze => Ok(LogRecord::Freeze),
        Item::Flushed(sequence, unsequence) => Ok(LogRecord::Flushed {
            sequence: FileNumber(sequence),
            unsequence: FileNumber(unsequence),
        }),
        Item::Replaced(output, sequence, unsequence) => Ok(LogRecord::Replaced {
            born: Stamp(output.born),
            space: output.space,
            place: output.place,
            output: FileNumber(output.number),
            sequence: numbers_of(alloc, sequence)?,
            unsequence: numbers_of(alloc, unsequence)?,
        }),
    }
}

/// How many of the records are replayed, before the first that has no replay.
fn count_replayed(alloc: Global, opening: &mut Opening, items: &[Item]) -> Result<usize, Fail> {
    for (at, item) in items.iter().enumerate() {
        match opening.redo(record_of(alloc, *item)?) {
            Ok(()) => {}
            Err(RedoFault::NoReplay) => return Ok(at),
            Err(RedoFault::Memory) => return Err(Fail::from("out of memory")),
        }
    }
    Ok(items.len())
}

const CREATE: Item = Item::Create(b"root.g.d.s");

const INSERT: Item = Item::Insert(5, &[0]);

/// The sequence file 1, born at 2, and the unsequence file 2, born at 3, become the sequence file 9.
const MERGED: Item = Item::Replaced(
    Output {
        born: 3,
        space: Space::Sequence,
        place: 0,
        number: 9,
    },
    &[1],
    &[2],
);

/// The unsequence file 2, born at 3, becomes the sequence file 9, which stands behind file 1.
const MOVED: Item = Item::Replaced(
    Output {
        born: 3,
        space: Space::Sequence,
        place: 1,
        number: 9,
    },
    &[],
    &[2],
);

/// Files that are not there.
const LOST: Item = Item::Replaced(
    Output {
        born: 3,
        space: Space::Unsequence,
        place: 0,
        number: 9,
    },
    &[],
    &[3, 2],
);

/// The sequence file 1 and the unsequence file 2.
const LATE: [Item; 7] = [
    CREATE,
    INSERT,
    Item::Freeze,
    Item::Flushed(1, 0),
    Item::Insert(3, &[0]),
    Item::Freeze,
    Item::Flushed(0, 2),
];

/// Records, and how many of them are replayed.
const ROWS: [(&[Item], usize); 14] = [
    (&[CREATE, CREATE], 1),
    (&[CREATE, Item::Create(b"root.g.d.t")], 2),
    // a series that is not there, and one twice
    (&[CREATE, INSERT, Item::Insert(5, &[1])], 2),
    (&[CREATE, Item::Insert(5, &[0, 0])], 1),
    (&[Item::Insert(5, &[])], 1),
    (&[CREATE, Item::Delete(b"root.g.d.s")], 2),
    (&[CREATE, Item::Delete(b"root.g.d.t")], 1),
    // a working pair without points, and a third frozen pair
    (&[CREATE, Item::Freeze], 1),
    (
        &[
            CREATE,
            INSERT,
            Item::Freeze,
            INSERT,
            Item::Freeze,
            INSERT,
            Item::Freeze,
        ],
        6,
    ),
    // no frozen pair, a file for an empty part, and the greatest number of a file
    (&[CREATE, INSERT, Item::Flushed(1, 0)], 2),
    (&[CREATE, INSERT, Item::Freeze, Item::Flushed(1, 2)], 3),
    (
        &[
            CREATE,
            INSERT,
            Item::Freeze,
            Item::Flushed(9_223_372_036_854_775_807, 0),
        ],
        4,
    ),
    (
        &[
            CREATE,
            INSERT,
            Item::Freeze,
            Item::Flushed(9_223_372_036_854_775_808, 0),
        ],
        3,
    ),
    (&LATE, 7),
];

/// The first row of which another number of records is replayed.
fn first_wrong(alloc: Global, rows: &[(&[Item], usize)]) -> Result<Option<usize>, Fail> {
    for (row, (items, wanted)) in rows.iter().enumerate() {
        let mut opening = Opening::new(alloc);
        let replayed = count_replayed(alloc, &mut opening, items);
        drop(opening);
        if replayed? != *wanted {
            return Ok(Some(row));
        }
    }
    Ok(None)
}

#[test]
fn each_kind_of_record(rt: HostRuntime) -> Result<(), Fail> {
    assert_eq!(rt; first_wrong(rt.alloc(), &ROWS)?, None);
    Ok(())
}

/// Whether the sequence files are 1 and 9, there is no other, and no number above 9 is named.
fn has_two_files(opening: &Opening) -> bool {
    let sequence = opening.files(Space::Sequence);
    if sequence.len() != 2 || !opening.files(Space::Unsequence).is_empty() {
        return false;
    }
    opening.memory().stamp() == 3
        && sequence[1].number == FileNumber(9)
        && sequence[1].born.0 == 3
        && opening.next_file(None) == FileNumber(10)
        && opening.next_file(Some(FileNumber(30))) == FileNumber(31)
}

/// The lists, the next number, and what is in memory after a file was replaced. A record without a replay changes
/// nothing.
#[test]
fn what_a_log_gives(rt: HostRuntime) -> Result<(), Fail> {
    let alloc = rt.alloc();
    let mut opening = Opening::new(alloc);
    let replayed = (
        count_replayed(alloc, &mut opening, &LATE)?,
        count_replayed(alloc, &mut opening, &[LOST])?,
        count_replayed(alloc, &mut opening, &[MOVED])?,
        count_replayed(alloc, &mut opening, &[MERGED])?,
    );
    assert_eq!(rt; replayed, (7, 0, 1, 0));
    assert!(rt; has_two_files(&opening));
    Ok(())
}
