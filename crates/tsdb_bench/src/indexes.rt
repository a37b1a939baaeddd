//! The speed of the index of a file. It depends on `tsdb_index`.

use crate::bench::{Bench, Unit};
use crate::fault::Fault;
use crate::names;
use tsdb_base::{DataType, Encoding, List, Stats, Value};
use tsdb_index::marks::VERSION;
use tsdb_index::{Index, IndexEntry, PageEntry, read_index, write_leaves_and_root};

/// The place of the first leaf.
const PLACE: u64 = 7;

/// More bytes than any of these indexes has.
const LIMIT: usize = 1_000_000_000;

/// The statistics of one point.
fn stats(number: u64) -> Stats {
    let value = number.cast_signed();
    Stats {
        count: 1,
        start: value,
        end: value,
        first: Value::I64(value),
        last: Value::I64(value),
        least: Some(Value::I64(value)),
        greatest: Some(Value::I64(value)),
        sum: Some(i128::from(value)),
    }
}

/// The entry of a chunk of one page. A device has 1,000 chunks.
fn entry(bench: &mut Bench, number: u64) -> Option<IndexEntry> {
    let alloc = bench.alloc();
    let device = format!(in alloc; "root.bench.d{:04}", number / 1000);
    let device = names::path(bench, device)?;
    let measurement = format!(in alloc; "s{:03}", number % 1000);
    let measurement = names::name(bench, measurement)?;
    let mut pages = Vec::new(alloc);
    let page = PageEntry {
        place: number,
        stats: stats(number),
    };
    bench.push(&mut pages, page);
    Some(IndexEntry {
        device,
        measurement,
        data_type: DataType::Int64,
        encoding: Encoding::Plain,
        place: number,
        stats: stats(number),
        pages: List::of(pages),
    })
}

/// The entries of so many chunks.
fn entries(bench: &mut Bench, chunks: u64) -> Vec<IndexEntry> {
    let mut entries = Vec::new(bench.alloc());
    for number in 0..chunks {
        let entry = entry(bench, number);
        bench.put(&mut entries, entry);
    }
    entries
}

/// How the table calls the index.
const NAME: &str = "an index of 100,000 chunks of one page";

/// The row of writing an index of so many chunks. Gives its bytes and the place of its root.
fn write(bench: &mut Bench, index: &Index, chunks: u64) -> Option<(Vec<u8>, u64)> {
    if index.entries.items().is_empty() {
        return None;
    }
    let alloc = bench.alloc();
    bench.start();
    let written = bench.ok(write_leaves_and_root(alloc, index, PLACE));
    bench.row(NAME, "write", chunks, Unit::Millions);
    written
}

/// The row of reading these bytes.
fn read(bench: &mut Bench, bytes: &[u8], root: u64, chunks: u64) {
    if bytes.len() > LIMIT || root < PLACE || root - PLACE > bytes.len() as u64 {
        bench.fail(Fault::Unread);
        return;
    }
    let alloc = bench.alloc();
    bench.start();
    if let Some(index) = bench.ok(read_index(alloc, bytes, PLACE, root, VERSION)) {
        bench.row(NAME, "read", chunks, Unit::Millions);
        bench.require(index.entries.items().len() as u64 == chunks);
    }
}

/// The rows of an index.
pub fn indexes(bench: &mut Bench) {
    let chunks = bench.rounds(100_000);
    let index = Index {
        entries: List::of(entries(bench, chunks)),
    };
    let written = write(bench, &index, chunks);
    drop(index);
    if let Some((bytes, root)) = written {
        read(bench, &bytes, root, chunks);
    }
}
