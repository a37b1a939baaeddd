//! Tests of tsdb_index. Depends on `samples`.

use super::samples::{Row, WORKED, expect_none, first_wrong, five, is_same, push};
use std::alloc::Global;
use std::test::Fail;
use tsdb_base::{DataType, Encoding, List};
use tsdb_index::marks::VERSION;
use tsdb_index::{
    Index, IndexEntry, IndexFault, PageEntry, read_index, write_index, write_leaves_and_root,
};
use tsdb_path::{Name, Path};

/// The entry of the chunk at 18, whose page stands at 24.
fn entry(alloc: Global, device: &[u8], measurement: &[u8]) -> Option<IndexEntry> {
    let device = Path::read(alloc, device).ok()?;
    let measurement = Name::read(alloc, measurement).ok()?;
    let mut pages = Vec::new(alloc);
    let page = PageEntry {
        place: 24,
        stats: five(),
    };
    let has_page = push(&mut pages, Some(page));
    let entry = IndexEntry {
        device,
        measurement,
        data_type: DataType::Int64,
        encoding: Encoding::Plain,
        place: 18,
        stats: five(),
        pages: List::of(pages),
    };
    has_page.then_some(entry)
}

/// The last digit.
fn digit(number: u16) -> u8 {
    b'0' + (number % 10) as u8
}

/// `m0000`, `m0001` and on.
fn name_of(number: u16) -> [u8; 5] {
    [
        b'm',
        digit(number / 1000),
        digit(number / 100),
        digit(number / 10),
        digit(number),
    ]
}

/// The entries of an index.
#[derive(Clone, Copy)]
enum Entries {
    /// With these devices and measurements.
    Named(&'static [(&'static [u8], &'static [u8])]),
    /// So many of one device, with the measurements `m0000`, `m0001` and on.
    Numbered(u16),
}

/// The index of these entries.
fn index_of(alloc: Global, entries: Entries) -> Option<Index> {
    let mut list = Vec::new(alloc);
    let mut is_whole = true;
    match entries {
        Entries::Named(names) => {
            for (device, measurement) in names {
                is_whole &= push(&mut list, entry(alloc, device, measurement));
            }
        }
        Entries::Numbered(count) => {
            for number in 0..count {
                is_whole &= push(&mut list, entry(alloc, b"root.g.d", &name_of(number)));
            }
        }
    }
    let entries = List::of(list);
    is_whole.then_some(Index { entries })
}

/// The bytes of the index with the first leaf at `place`, and the place of the root.
fn written(alloc: Global, index: &Index, place: u64) -> Option<(Vec<u8>, u64)> {
    if index.entries.items().is_empty() {
        None
    } else {
        write_leaves_and_root(alloc, index, place).ok()
    }
}

/// The bytes of the index without the place of its root.
fn whole(alloc: Global, index: &Index, place: u64) -> Option<Vec<u8>> {
    if index.entries.items().is_empty() {
        None
    } else {
        write_index(alloc, index, place).ok()
    }
}

/// Reads the index, if the places are such as a reader may be given; else it is out of memory.
fn read(alloc: Global, bytes: &[u8], place: u64, root: u64) -> Result<Index, IndexFault> {
    if place > 10_000 || root < place || root - place > bytes.len() as u64 {
        return Err(IndexFault::Memory);
    }
    read_index(alloc, bytes, place, root, VERSION)
}

/// What is asked of an index.
#[derive(Clone, Copy)]
enum Asked {
    /// It is written as that of the worked file, with the root at 226.
    IsWorked,
    /// Its last byte would stand at 2^64, so it is out of memory.
    IsTooFar,
    /// So many entries take so many leaves, and are read as they were written.
    HasLeaves(u16, u8),
}

/// Whether these are the bytes of so many entries in so many leaves: a leaf takes 3 bytes and 183 for each entry, the
/// root 5 bytes and 25 for each leaf.
fn have_leaves(bytes: &[u8], root: u64, count: u16, leaves: u8) -> bool {
    let size = 3 * u64::from(leaves) + 183 * u64::from(count);
    let at = size as usize;
    let root_start: [u8; 5] = [0x52, 0, 0, 0, leaves];
    root == 1000 + size
        && bytes.len() as u64 == size + 5 + 25 * u64::from(leaves)
        && bytes.get(at..at + 5) == Some(root_start.as_slice())
}

/// Whether the bytes of the index, with the first leaf and the root at these places, are as asked.
fn are_right(
    alloc: Global,
    bytes: &[u8],
    (place, root): (u64, u64),
    index: &Index,
    asked: Asked,
) -> bool {
    match asked {
        Asked::IsWorked => bytes == &WORKED[44..252] && root == 226,
        Asked::IsTooFar => false,
        Asked::HasLeaves(count, leaves) => {
            have_leaves(bytes, root, count, leaves)
                && is_same(read(alloc, bytes, place, root).ok(), index)
        }
    }
}

/// Entries, the place of their first leaf, and what is asked of their index.
type Case = (Entries, u64, Asked);

impl Row for Case {
    /// Whether it is as asked, and the bytes are the same without the place of the root.
    fn is_right(&self, alloc: Global) -> bool {
        let (entries, place, asked) = *self;
        let Some(index) = index_of(alloc, entries) else {
            return false;
        };
        match written(alloc, &index, place) {
            Some((bytes, root)) => {
                are_right(alloc, &bytes, (place, root), &index, asked)
                    && is_same(whole(alloc, &index, place), &bytes)
            }
            None => matches!(asked, Asked::IsTooFar) && whole(alloc, &index, place).is_none(),
        }
    }
}

/// The index of the worked file, one too far, and up to three leaves.
const CASES: &[Case] = &[
    (Entries::Named(&[(b"root.g.d", b"s")]), 44, Asked::IsWorked),
    (Entries::Numbered(1), u64::MAX, Asked::IsTooFar),
    (Entries::Numbered(1), 1000, Asked::HasLeaves(1, 1)),
    (Entries::Numbered(256), 1000, Asked::HasLeaves(256, 1)),
    (Entries::Numbered(257), 1000, Asked::HasLeaves(257, 2)),
    (Entries::Numbered(513), 1000, Asked::HasLeaves(513, 3)),
];

#[test]
fn indexes(rt: HostRuntime) -> Result<(), Fail> {
    expect_none(first_wrong(rt.alloc(), CASES))
}
