//! Tests of tsfile_reader on the worked file: whole, cut, with inverted bytes, and through ports that fail.

use super::reader::{Call, NO_CALL, fault_of, is_worked_point, meta_of, page_of};
use super::samples::{OLD_WORKED, WORKED, expect_none, old_worked_but, worked_but};
use std::alloc::Global;
use std::test::Fail;
use tsdb_index::marks::{OLD_VERSION, VERSION};
use tsfile_reader::ReadFault;

/// The worked file in a version, where its parts stand that differ, and what its statistics have.
#[derive(Clone, Copy)]
struct Worked {
    bytes: &'static [u8],
    version: u8,
    /// The place behind the statistics of the chunk, of the root and of the tail.
    behind_stats: usize,
    root: usize,
    tail: usize,
    sum: Option<i128>,
}

fn newer() -> Worked {
    Worked {
        bytes: &WORKED,
        version: VERSION,
        behind_stats: 142,
        root: 226,
        tail: 252,
        sum: Some(5),
    }
}

fn older() -> Worked {
    Worked {
        bytes: &OLD_WORKED,
        version: OLD_VERSION,
        behind_stats: 126,
        root: 194,
        tail: 220,
        sum: None,
    }
}

/// Whether the index of the worked file is read, and the point of its page.
fn is_worked_read(alloc: Global, worked: Worked) -> bool {
    match meta_of(alloc, worked.bytes, Call::Meta, NO_CALL) {
        Ok(meta) => match meta.index.entries.items() {
            [entry] => {
                meta.size == worked.bytes.len() as u64
                    && meta.version == worked.version
                    && entry.place == 18
                    && entry.stats.sum == worked.sum
                    && is_worked_point(page_of(alloc, worked.bytes, entry, 0, NO_CALL))
            }
            _ => false,
        },
        Err(_) => false,
    }
}

#[test]
fn worked_file(rt: HostRuntime) {
    let alloc = rt.alloc();
    assert!(rt; is_worked_read(alloc, newer()));
    assert!(rt; fault_of(alloc, &WORKED, Call::Check).is_none());
}

#[test]
fn old_worked_file(rt: HostRuntime) {
    let alloc = rt.alloc();
    assert!(rt; is_worked_read(alloc, older()));
    assert!(rt; fault_of(alloc, &OLD_WORKED, Call::Check).is_none());
}

/// Whether these are the faults of the check of these bytes and of reading their index.
fn has_faults(
    alloc: Global,
    bytes: &[u8],
    check: Option<ReadFault>,
    index: Option<ReadFault>,
) -> bool {
    fault_of(alloc, bytes, Call::Check) == check && fault_of(alloc, bytes, Call::Meta) == index
}

/// With the version byte of the other version the leaf is not as defined: its statistics have a sum too many, or none.
#[test]
fn version_of_the_other_file(rt: HostRuntime) {
    let alloc = rt.alloc();
    let damage = Some(ReadFault::Damaged { at: 44 });
    let (mut new, mut old) = (WORKED, OLD_WORKED);
    new[6] = OLD_VERSION;
    old[6] = VERSION;
    assert!(rt; has_faults(alloc, &new, damage, damage));
    assert!(rt; has_faults(alloc, &old, damage, damage));
}

/// Whether damage is found as it has to be in the worked file that is cut to this size: it has no tail at its end, or
/// no room for one.
fn is_cut_found(alloc: Global, worked: Worked, size: usize) -> bool {
    let bytes = worked.bytes.get(..size).unwrap_or(&[]);
    let at = if size < 21 { 0 } else { (size - 14) as u64 };
    let damage = Some(ReadFault::Damaged { at });
    has_faults(alloc, bytes, damage, damage)
}

/// The place of the part that is blamed where this byte of the worked file is inverted.
fn blamed_place(worked: Worked, place: usize) -> u64 {
    // the root's place is inverted in its last byte, and beyond the file in the others
    if place == worked.tail.saturating_add(7) {
        return (worked.root as u64) ^ 0xff;
    }
    if place >= worked.tail {
        return worked.tail as u64;
    }
    // the leaf's place, inverted in its last byte, is that of no leaf, be it before the root or behind it
    let leaf = 44 ^ 0xff;
    if place.saturating_add(1) == worked.tail && leaf < worked.root {
        return leaf as u64;
    }
    if place >= worked.root {
        return worked.root as u64;
    }
    match place {
        // the head, the group, the chunk, and the page up to its value
        0..7 => 0,
        7..18 => 7,
        18..24 => 18,
        24..36 => 24,
        // a page of another value is good by itself, but not what the leaf says
        _ => 44,
    }
}

/// Whether the index does not show that this byte is inverted: places and statistics in the leaf may have any bits, and
/// what stands before the leaf is not looked at.
fn is_free(worked: Worked, place: usize) -> bool {
    let (stats, pages) = (worked.behind_stats, worked.behind_stats.saturating_add(4));
    (7..44).contains(&place)
        || (62..stats).contains(&place)
        || (pages..worked.root).contains(&place)
}

/// Whether this byte, inverted, is blamed as it has to be.
fn is_inverted_found(alloc: Global, worked: Worked, place: usize) -> bool {
    let at = blamed_place(worked, place);
    let damage = Some(ReadFault::Damaged { at });
    let of_index = if is_free(worked, place) { None } else { damage };
    if worked.version == VERSION {
        has_faults(alloc, &worked_but(place), damage, of_index)
    } else {
        has_faults(alloc, &old_worked_but(place), damage, of_index)
    }
}

/// The fault of reading the page of the worked file's entry of these bytes, through a port of which this call fails.
fn page_fault(alloc: Global, bytes: &[u8], number: u64) -> Option<ReadFault> {
    match meta_of(alloc, &WORKED, Call::Meta, NO_CALL) {
        Ok(meta) => match meta.index.entries.items() {
            [entry] => page_of(alloc, bytes, entry, 0, number).err(),
            _ => Some(ReadFault::Memory),
        },
        Err(fault) => Some(fault),
    }
}

/// How often the port is called up to the last call that matters: for the file, its length, the tail, the head, the
/// root and the leaves, for the check also for the groups, and for a page, besides the file and its length, once.
const CALLS_OF_INDEX: u64 = 6;

const CALLS_OF_CHECK: u64 = 7;

const CALLS_OF_PAGE: u64 = 3;

/// Whether this is the fault where this call of the port fails, and this is the last that matters.
fn is_fault_of_call(fault: Option<ReadFault>, number: u64, last: u64) -> bool {
    if number <= last {
        fault == Some(ReadFault::Failed)
    } else {
        fault.is_none()
    }
}

/// What is done with the worked file, in each case for one number.
#[derive(Clone, Copy)]
enum Trial {
    /// It is cut to this size.
    Cut(Worked),
    /// This byte is inverted.
    Inverted(Worked),
    /// This call of the port fails: the index, the whole file or the page is read.
    IndexFails,
    CheckFails,
    PageFails,
}

/// Whether what is read is as it has to be.
fn is_right(alloc: Global, trial: Trial, number: usize) -> bool {
    let call = number as u64;
    match trial {
        Trial::Cut(worked) => is_cut_found(alloc, worked, number),
        Trial::Inverted(worked) => is_inverted_found(alloc, worked, number),
        Trial::IndexFails => {
            let fault = meta_of(alloc, &WORKED, Call::Meta, call).err();
            is_fault_of_call(fault, call, CALLS_OF_INDEX)
        }
        Trial::CheckFails => {
            let fault = meta_of(alloc, &WORKED, Call::Check, call).err();
            is_fault_of_call(fault, call, CALLS_OF_CHECK)
        }
        Trial::PageFails => is_fault_of_call(page_fault(alloc, &WORKED, call), call, CALLS_OF_PAGE),
    }
}

/// The first of the numbers from `first` to before `end` for which it is not.
fn first_wrong(alloc: Global, trial: Trial, first: usize, end: usize) -> Option<usize> {
    for number in first..end {
        if !is_right(alloc, trial, number) {
            return Some(number);
        }
    }
    None
}

#[test]
fn cut_files(rt: HostRuntime) -> Result<(), Fail> {
    expect_none(first_wrong(rt.alloc(), Trial::Cut(newer()), 0, 266))
}

#[test]
fn cut_old_files(rt: HostRuntime) -> Result<(), Fail> {
    expect_none(first_wrong(rt.alloc(), Trial::Cut(older()), 0, 234))
}

#[test]
fn inverted_bytes(rt: HostRuntime) -> Result<(), Fail> {
    expect_none(first_wrong(rt.alloc(), Trial::Inverted(newer()), 0, 266))
}

#[test]
fn inverted_bytes_of_old_files(rt: HostRuntime) -> Result<(), Fail> {
    expect_none(first_wrong(rt.alloc(), Trial::Inverted(older()), 0, 234))
}

#[test]
fn calls_that_fail(rt: HostRuntime) {
    let alloc = rt.alloc();
    assert_eq!(rt; first_wrong(alloc, Trial::IndexFails, 1, 9), None);
    assert_eq!(rt; first_wrong(alloc, Trial::CheckFails, 1, 9), None);
    assert_eq!(rt; first_wrong(alloc, Trial::PageFails, 1, 6), None);
}
