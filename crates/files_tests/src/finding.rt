//! Tests of `find_entry`: how much of a large index is read, and calls of the port that fail. Depends on tsfile_reader,
//! tsdb_index, tsdb_outside, tsdb_path and tsdb_base.

use super::built::file_of;
use super::reader::{Call, NO_CALL, meta_of, port_failing_at, read_bytes};
use super::samples::{expect_none, numbered_tree};
use std::alloc::Global;
use std::test::Fail;
use tsdb_base::FileNumber;
use tsdb_index::IndexEntry;
use tsdb_outside::Port;
use tsdb_path::{Name, Path};
use tsfile_reader::{ReadFault, find_entry};

/// The most bytes of a file that a look-up may read.
const MOST_READ: u64 = 100_000;

/// What is asked of a file, and what has to come of it.
#[derive(Clone, Copy)]
enum Row {
    /// More bytes than these are read for the index.
    Index(u64),
    /// The series of this device and measurement has the entry with this number in the index, or none, and less than
    /// 100 kB of the file is read to find it.
    Series(&'static str, &'static str, Option<usize>),
    /// Looking `s300` of `root.g.d` up fails where this call of the port does, or not.
    Calls(u64, bool),
}

/// The index of 10,000 series has over 2 MB. The first of them, one in the middle, the last, and a name between.
static FEW_OF_MANY: [Row; 5] = [
    Row::Index(2_000_000),
    Row::Series(LONG_DEVICE, "s10000", Some(0)),
    Row::Series(LONG_DEVICE, "s15000", Some(5_000)),
    Row::Series(LONG_DEVICE, "s19999", Some(9_999)),
    Row::Series(LONG_DEVICE, "s150000", None),
];

/// The port makes a call for the file, its length, the tail, the head, the root and the leaf.
static FAILING: [Row; 7] = [
    Row::Calls(1, true),
    Row::Calls(2, true),
    Row::Calls(3, true),
    Row::Calls(4, true),
    Row::Calls(5, true),
    Row::Calls(6, true),
    Row::Calls(7, false),
];

/// Stores these bytes through the port, looks a series up in them, and removes them.
fn find_in<P: Port>(
    alloc: Global,
    port: &mut P,
    bytes: &[u8],
    device: &Path,
    measurement: &Name,
) -> Result<Option<IndexEntry>, ReadFault> {
    let Ok(mut sealed) = port.put(FileNumber(1), bytes) else {
        return Err(ReadFault::Failed);
    };
    let outcome = match P::share(&mut sealed) {
        Ok(right) => {
            let outcome = find_entry(alloc, port, &right, device, measurement);
            P::give_back(&mut sealed, right);
            outcome
        }
        Err(_) => Err(ReadFault::Memory),
    };
    let _ = port.remove(sealed);
    outcome
}

/// What a look-up gives, and how many bytes of the file are read for it.
type LookUp = (Result<Option<IndexEntry>, ReadFault>, u64);

/// Looks a series up through a port of which this call fails.
fn look_up(alloc: Global, bytes: &[u8], device: &Path, measurement: &Name, number: u64) -> LookUp {
    match port_failing_at(alloc, number) {
        Some(mut port) => {
            let found = find_in(alloc, &mut port, bytes, device, measurement);
            (found, port.bytes_read())
        }
        None => (Err(ReadFault::Memory), 0),
    }
}

/// Looks a series up by the text of its device and its measurement.
fn look_up_named(
    alloc: Global,
    bytes: &[u8],
    device: &str,
    measurement: &str,
    number: u64,
) -> LookUp {
    let device = Path::read(alloc, device.as_bytes());
    let measurement = Name::read(alloc, measurement.as_bytes());
    match (device, measurement) {
        (Ok(device), Ok(measurement)) => look_up(alloc, bytes, &device, &measurement, number),
        _ => (Err(ReadFault::Memory), 0),
    }
}

/// The fault of looking this measurement of `root.g.d` up, if there is one.
fn fault_of(alloc: Global, bytes: &[u8], measurement: &str, number: u64) -> Option<ReadFault> {
    let (found, _) = look_up_named(alloc, bytes, "root.g.d", measurement, number);
    found.err()
}

/// How many bytes of the file are read for its index.
fn read_for_index(alloc: Global, bytes: &[u8]) -> u64 {
    match port_failing_at(alloc, NO_CALL) {
        Some(mut port) => {
            let meta = read_bytes(alloc, &mut port, bytes, Call::Meta);
            if meta.is_ok() { port.bytes_read() } else { 0 }
        }
        None => 0,
    }
}

/// Whether the entry with this number is found, or none, and less than 100 kB of the file is read for it.
fn is_found(look_up: &LookUp, entries: &[IndexEntry], number: Option<usize>) -> bool {
    let is_entry = match (&look_up.0, number) {
        (Ok(Some(entry)), Some(number)) => match entries.get(number) {
            Some(wanted) => entry == wanted,
            None => false,
        },
        (Ok(None), None) => true,
        _ => false,
    };
    is_entry && look_up.1 < MOST_READ
}

/// Whether the series of this device and measurement has the entry with this number, or none.
fn is_series(
    alloc: Global,
    bytes: &[u8],
    entries: &[IndexEntry],
    names: (&str, &str),
    number: Option<usize>,
) -> bool {
    let look_up = look_up_named(alloc, bytes, names.0, names.1, NO_CALL);
    is_found(&look_up, entries, number)
}

/// Whether what comes of it is as the row says, in a file with these entries in its index.
fn is_right(alloc: Global, bytes: &[u8], entries: &[IndexEntry], row: Row) -> bool {
    match row {
        Row::Index(least) => read_for_index(alloc, bytes) > least,
        Row::Series(device, measurement, number) => {
            is_series(alloc, bytes, entries, (device, measurement), number)
        }
        Row::Calls(number, fails) => {
            let fault = fault_of(alloc, bytes, "s300", number);
            (fault == Some(ReadFault::Failed)) == fails
        }
    }
}

/// The place of the first row that is not right.
fn first_wrong(alloc: Global, bytes: &[u8], entries: &[IndexEntry], rows: &[Row]) -> Option<usize> {
    for place in 0..rows.len() {
        if !is_right(alloc, bytes, entries, rows[place]) {
            return Some(place);
        }
    }
    None
}

/// A device, and the numbers of its measurements, from the first to before the end.
type Numbered = (&'static str, u64, u64);

/// Two full leaves, and one of 88 entries.
const SMALL: Numbered = ("root.g.d", 0, 600);

/// With this name of 60 bytes each of 10,000 entries has 204 bytes, and the index 2 MB.
const LONG_DEVICE: &str = "root.plant_on_the_river.hall_of_presses.press_042.sensors_01";

const LARGE: Numbered = (LONG_DEVICE, 10_000, 20_000);

/// The file of the device with these measurements, each of one point.
fn file_from(alloc: Global, numbered: Numbered) -> Option<Vec<u8>> {
    let (device, first, end) = numbered;
    let tree = numbered_tree(alloc, device.as_bytes(), first, end)?;
    file_of(alloc, &tree)
}

/// The place of the first row that is not right in this file, or the first of all where its index is not read.
fn wrong_in(alloc: Global, bytes: &[u8], rows: &[Row]) -> Option<usize> {
    match meta_of(alloc, bytes, Call::Meta, NO_CALL) {
        Ok(meta) => first_wrong(alloc, bytes, meta.index.entries.items(), rows),
        Err(_) => Some(0),
    }
}

/// The place of the first row that is not right in the file of these series.
fn wrong_row(alloc: Global, numbered: Numbered, rows: &[Row]) -> Option<usize> {
    match file_from(alloc, numbered) {
        Some(bytes) => wrong_in(alloc, &bytes, rows),
        None => Some(0),
    }
}

/// Looking up one of 10,000 series reads under 100 kB.
#[test]
fn one_of_many_series(rt: HostRuntime) -> Result<(), Fail> {
    expect_none(wrong_row(rt.alloc(), LARGE, &FEW_OF_MANY))
}

#[test]
fn calls_that_fail(rt: HostRuntime) -> Result<(), Fail> {
    expect_none(wrong_row(rt.alloc(), SMALL, &FAILING))
}
