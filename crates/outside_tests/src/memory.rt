//! Places in memory as their callers meet them, and what stops leave of them.
use crate::copying::{FileBytes, copy_file};
use crate::looks::{Look, new_place_has};
use crate::steps::{FileStep, SlotStep, has_file, put_and_keep, put_read_remove};
use crate::stops::{Call, FIRST, Left, one_fails_in};
use mem_outside::StopKind::{Scrambled, Unwritten, Written};
use mem_outside::{Fails, MemFiles, MemPlace, SteadyPlace};
use std::alloc::{AllocError, Global};
use std::thread::{Threads, join_mut};
use tsdb_base::{FileNumber, Memory};
use tsdb_outside::{Files, Place, Slot, StoreFault};

fn first_slots(alloc: Global) -> Result<[Vec<u8>; 2], AllocError> {
    Ok([FIRST[0].to_vec(alloc)?, FIRST[1].to_vec(alloc)?])
}

fn first_file(alloc: Global) -> Result<Vec<(FileNumber, Vec<u8>)>, AllocError> {
    let bytes = b"abc".to_vec(alloc)?;
    Ok(vec![in alloc; (FileNumber(7), bytes)]?)
}

fn fails_of(alloc: Global, failing: [u64; 2]) -> Result<Fails, AllocError> {
    let [journal, files] = failing;
    Ok(Fails {
        journal: vec![in alloc; journal]?,
        files: vec![in alloc; files]?,
    })
}

// A place with the file 7, of whose writes and syncs, and of whose calls on files, one fails, or none at 0.
fn new_place(alloc: Global, failing: [u64; 2]) -> Result<MemPlace, Memory> {
    let slots = first_slots(alloc)?;
    let files = first_file(alloc)?;
    let fails = fails_of(alloc, failing)?;
    MemPlace::new(alloc, slots, files, fails)
}

fn new_steady_place(alloc: Global) -> Result<SteadyPlace, Memory> {
    let slots = first_slots(alloc)?;
    let files = first_file(alloc)?;
    SteadyPlace::new(alloc, slots, files)
}

// Calls of which the one with this index fails, as it has these numbers among those on slots and those on files, how
// many moments the place has then, one before the first call and one behind each up to the last that changed something,
// and what stops leave.
type Run = (
    &'static [Call],
    Option<usize>,
    [u64; 2],
    u64,
    &'static [Left],
);

const ON_SLOTS: [Call; 6] = [
    Call::Write(Slot::A, 1, [5, 6]),
    Call::Sync(Slot::A),
    Call::Write(Slot::B, 0, [7, 8]),
    Call::Write(Slot::A, 0, [3, 4]),
    Call::Sync(Slot::A),
    Call::Sync(Slot::B),
];

const NO_FAULT: &[Left] = &[
    (Written, 0, &[1, 2], &[9], b"--w"),
    (Written, 1, &[1, 5, 6], &[9], b"--w"),
    (Written, 3, &[1, 5, 6], &[7, 8], b"--w"),
    (Written, 4, &[3, 4, 6], &[7, 8], b"--w"),
    (Written, 6, &[3, 4, 6], &[7, 8], b"--w"),
    (Unwritten, 0, &[1, 2], &[9], b"--w"),
    (Unwritten, 1, &[1, 2], &[9], b"--w"),
    (Unwritten, 2, &[1, 5, 6], &[9], b"--w"),
    (Unwritten, 4, &[1, 5, 6], &[9], b"--w"),
    (Unwritten, 5, &[3, 4, 6], &[9], b"--w"),
    (Unwritten, 6, &[3, 4, 6], &[7, 8], b"--w"),
    (Scrambled, 0, &[1, 2], &[9], b"--w"),
    (Scrambled, 1, &[1, 250, 249], &[9], b"--w"),
    (Scrambled, 2, &[1, 5, 6], &[9], b"--w"),
    (Scrambled, 3, &[1, 5, 6], &[248, 247], b"--w"),
    (Scrambled, 4, &[252, 251, 6], &[248, 247], b"--w"),
    (Scrambled, 5, &[3, 4, 6], &[248, 247], b"--w"),
    (Scrambled, 6, &[3, 4, 6], &[7, 8], b"--w"),
];

// A write that failed is pending until the next sync of its slot, which leaves what reads give.
const FIRST_WRITE_FAILED: &[Left] = &[
    (Written, 1, &[1, 5, 6], &[9], b"--w"),
    (Written, 2, &[1, 2], &[9], b"--w"),
    (Unwritten, 1, &[1, 2], &[9], b"--w"),
    (Scrambled, 1, &[1, 250, 249], &[9], b"--w"),
    (Scrambled, 2, &[1, 2], &[9], b"--w"),
    (Scrambled, 6, &[3, 4], &[7, 8], b"--w"),
];

const FIRST_SYNC_FAILED: &[Left] = &[
    (Written, 2, &[1, 5, 6], &[9], b"--w"),
    (Unwritten, 4, &[1, 2], &[9], b"--w"),
    (Unwritten, 5, &[3, 4, 6], &[9], b"--w"),
    (Scrambled, 2, &[1, 250, 249], &[9], b"--w"),
    (Scrambled, 4, &[252, 251, 249], &[248, 247], b"--w"),
    (Scrambled, 5, &[3, 4, 6], &[248, 247], b"--w"),
];

const LAST_SYNC_FAILED: &[Left] = &[
    (Written, 6, &[3, 4, 6], &[7, 8], b"--w"),
    (Unwritten, 6, &[3, 4, 6], &[9], b"--w"),
    (Scrambled, 6, &[3, 4, 6], &[248, 247], b"--w"),
];

static SLOT_RUNS: [Run; 7] = [
    (&ON_SLOTS, None, [0, 0], 7, NO_FAULT),
    (&ON_SLOTS, Some(0), [1, 0], 7, FIRST_WRITE_FAILED),
    (&ON_SLOTS, Some(1), [2, 0], 7, FIRST_SYNC_FAILED),
    (
        &ON_SLOTS,
        Some(2),
        [3, 0],
        7,
        &[(Unwritten, 6, &[3, 4, 6], &[9], b"--w")],
    ),
    (
        &ON_SLOTS,
        Some(3),
        [4, 0],
        7,
        &[(Scrambled, 4, &[252, 251, 6], &[248, 247], b"--w")],
    ),
    (
        &ON_SLOTS,
        Some(4),
        [5, 0],
        7,
        &[(Unwritten, 6, &[1, 5, 6], &[7, 8], b"--w")],
    ),
    (&ON_SLOTS, Some(5), [6, 0], 7, LAST_SYNC_FAILED),
];

const BOTH_REMOVED: [Call; 8] = [
    Call::Write(Slot::A, 0, [5, 6]),
    Call::Put(1),
    Call::Sync(Slot::A),
    Call::Put(2),
    Call::Fetch,
    Call::Remove(1),
    Call::Fetch,
    Call::Remove(2),
];

const SECOND_REMOVED: [Call; 7] = [
    Call::Write(Slot::A, 0, [5, 6]),
    Call::Put(1),
    Call::Sync(Slot::A),
    Call::Put(2),
    Call::FetchAlone(1),
    Call::Fetch,
    Call::Remove(2),
];

const FIRST_REMOVED: [Call; 7] = [
    Call::Write(Slot::A, 0, [5, 6]),
    Call::Put(1),
    Call::Sync(Slot::A),
    Call::Put(2),
    Call::Fetch,
    Call::Remove(1),
    Call::FetchAlone(2),
];

// While a file is put, a stop may leave half of it. One that was handed to `remove` is left by an `Unwritten` stop.
const PUT_AND_REMOVED: &[Left] = &[
    (Written, 1, &[5, 6], &[9], b"--w"),
    (Written, 2, &[5, 6], &[9], b"w-w"),
    (Written, 4, &[5, 6], &[9], b"www"),
    (Written, 6, &[5, 6], &[9], b"-ww"),
    (Written, 8, &[5, 6], &[9], b"--w"),
    (Unwritten, 1, &[1, 2], &[9], b"--w"),
    (Unwritten, 2, &[1, 2], &[9], b"w-w"),
    (Unwritten, 3, &[5, 6], &[9], b"w-w"),
    (Unwritten, 8, &[5, 6], &[9], b"www"),
    (Scrambled, 0, &[1, 2], &[9], b"--w"),
    (Scrambled, 1, &[250, 249], &[9], b"h-w"),
    (Scrambled, 2, &[250, 249], &[9], b"w-w"),
    (Scrambled, 3, &[5, 6], &[9], b"whw"),
    (Scrambled, 4, &[5, 6], &[9], b"www"),
    (Scrambled, 6, &[5, 6], &[9], b"-ww"),
    (Scrambled, 8, &[5, 6], &[9], b"--w"),
];

const FIRST_PUT_FAILED: &[Left] = &[
    (Written, 2, &[5, 6], &[9], b"--w"),
    (Unwritten, 2, &[1, 2], &[9], b"w-w"),
    (Scrambled, 2, &[250, 249], &[9], b"h-w"),
    (Written, 7, &[5, 6], &[9], b"--w"),
    (Unwritten, 7, &[5, 6], &[9], b"www"),
    (Scrambled, 7, &[5, 6], &[9], b"h-w"),
];

const SECOND_PUT_FAILED: &[Left] = &[
    (Written, 6, &[5, 6], &[9], b"--w"),
    (Unwritten, 6, &[5, 6], &[9], b"www"),
    (Scrambled, 6, &[5, 6], &[9], b"-hw"),
];

const FIRST_STAYS: &[Left] = &[
    (Written, 7, &[5, 6], &[9], b"w-w"),
    (Unwritten, 7, &[5, 6], &[9], b"www"),
    (Scrambled, 7, &[5, 6], &[9], b"w-w"),
];

const SECOND_STAYS: &[Left] = &[
    (Written, 6, &[5, 6], &[9], b"-ww"),
    (Unwritten, 6, &[5, 6], &[9], b"www"),
];

static FILE_RUNS: [Run; 7] = [
    (&BOTH_REMOVED, None, [0, 0], 9, PUT_AND_REMOVED),
    // A file whose put failed is not found.
    (&SECOND_REMOVED, Some(1), [0, 1], 8, FIRST_PUT_FAILED),
    (&FIRST_REMOVED, Some(3), [0, 2], 7, SECOND_PUT_FAILED),
    // One whose fetch failed stays. One whose removal failed is gone.
    (&SECOND_REMOVED, Some(4), [0, 3], 8, FIRST_STAYS),
    (&BOTH_REMOVED, Some(5), [0, 4], 9, PUT_AND_REMOVED),
    (&FIRST_REMOVED, Some(6), [0, 5], 7, SECOND_STAYS),
    (&BOTH_REMOVED, Some(7), [0, 6], 9, PUT_AND_REMOVED),
];

// Whether a stop leaves what it should.
fn stop_holds(place: &MemPlace, left: &Left) -> bool {
    place.moments() > 0 && new_place_has(place.after_stop(left.1, left.0), &[Look::Left(left)])
}

// Whether a run is as it should be, and what stops leave of it.
fn run_holds(place: &mut MemPlace, run: &Run) -> bool {
    let (calls, failed, _, moments, stops) = *run;
    let mut holds = one_fails_in(place, calls, failed) && place.moments() == moments;
    for left in stops {
        holds = holds && stop_holds(place, left);
    }
    holds
}

fn new_run_holds(alloc: Global, run: &Run) -> bool {
    match new_place(alloc, run.2) {
        Ok(mut place) => run_holds(&mut place, run),
        Err(_) => false,
    }
}

fn first_wrong(alloc: Global, runs: &[Run]) -> Option<usize> {
    for (index, run) in runs.iter().enumerate() {
        if !new_run_holds(alloc, run) {
            return Some(index);
        }
    }
    None
}

#[test]
fn stops_leave_what_the_disk_model_says(rt: HostRuntime) {
    assert_eq!(rt; first_wrong(rt.alloc(), &SLOT_RUNS), None);
}

#[test]
fn stops_leave_the_files_that_they_may(rt: HostRuntime) {
    assert_eq!(rt; first_wrong(rt.alloc(), &FILE_RUNS), None);
}

static WRITTEN: [SlotStep; 1] = [SlotStep::Write(Slot::B, 1, &[2, 3], Ok(()))];

static FOUND: [SlotStep; 2] = [
    SlotStep::Read(Slot::A, ([1, 2, 0, 0], 2)),
    SlotStep::Read(Slot::B, ([9, 2, 3, 0], 3)),
];

#[test]
fn steady_place_is_taken_up_again_as_it_was_put_down(rt: HostRuntime) {
    let place = new_steady_place(rt.alloc());
    assert!(rt; new_place_has(place, &[Look::Slots(&WRITTEN), Look::Slots(&FOUND)]));
}

static PUT: [FileStep; 5] = [
    FileStep::Remove(7, Ok(true)),
    FileStep::List(&[]),
    FileStep::Put(1, b"abc", Ok(())),
    FileStep::Read(1, 0, Ok(Some((*b"abc\0", 3)))),
    FileStep::Read(2, 0, Ok(None)),
];

static NOT_PUT: [FileStep; 5] = [
    FileStep::Remove(7, Ok(true)),
    FileStep::List(&[]),
    FileStep::Put(1, b"abc", Err(StoreFault::Failed)),
    FileStep::Read(1, 0, Ok(None)),
    FileStep::Read(2, 0, Ok(None)),
];

#[test]
fn first_file_is_put_and_fetched(rt: HostRuntime) {
    assert!(rt; new_place_has(new_place(rt.alloc(), [0, 0]), &[Look::Files(&PUT)]));
    assert!(rt; new_place_has(new_place(rt.alloc(), [0, 4]), &[Look::Files(&NOT_PUT)]));
    assert!(rt; new_place_has(new_steady_place(rt.alloc()), &[Look::Files(&PUT)]));
}

#[test]
fn right_reads_the_file(rt: HostRuntime) {
    assert!(rt; new_place_has(new_steady_place(rt.alloc()), &[Look::Rights]));
}

// Whether a port counts the bytes that its reads give.
fn counts_bytes(files: &mut MemFiles) -> bool {
    match files.port() {
        Ok(mut port) => {
            let before = port.bytes_read();
            let read = put_read_remove(&mut port, 1, 2);
            let after = port.bytes_read();
            files.end_port(port);
            before == 0 && after == 3 && read == Ok((*b"cde\0", 5))
        }
        Err(_) => false,
    }
}

// Whether two ports serve two threads.
fn serves_two_threads(rt: &impl Threads, files: &mut MemFiles) -> bool {
    match files.port() {
        Ok(mut one) => match files.port() {
            Ok(mut two) => {
                let (first, second) = join_mut(
                    rt,
                    &mut || put_read_remove(&mut one, 1, 0),
                    &mut || put_read_remove(&mut two, 2, 1),
                );
                files.end_port(one);
                files.end_port(two);
                first == Ok((*b"abcd", 5)) && second == Ok((*b"bcde", 5))
            }
            Err(_) => {
                files.end_port(one);
                false
            }
        },
        Err(_) => false,
    }
}

// Whether so many ports of a place serve. It has no moments while its parts are out, and then one behind each of the
// four calls that a port makes.
fn ports_serve(rt: &impl Threads, place: &mut MemPlace, ports: u64) -> bool {
    match place.take_up(b"d") {
        Ok((journal, mut files)) => {
            let none = place.moments() == 0;
            let served = if ports == 1 {
                counts_bytes(&mut files)
            } else {
                serves_two_threads(rt, &mut files)
            };
            place.put_down(journal, files);
            none && served && place.moments() == ports.saturating_mul(4).saturating_add(1)
        }
        Err(_) => false,
    }
}

fn new_ports_serve(alloc: Global, rt: &impl Threads, ports: u64) -> bool {
    match new_place(alloc, [0, 0]) {
        Ok(mut place) => ports_serve(rt, &mut place, ports),
        Err(_) => false,
    }
}

#[test]
fn port_counts_the_bytes_that_it_reads(rt: HostRuntime) {
    assert!(rt; new_ports_serve(rt.alloc(), &rt, 1));
}

#[test]
fn two_ports_serve_two_threads(rt: HostRuntime) {
    assert!(rt; new_ports_serve(rt.alloc(), &rt, 2));
}

const COPIED: Option<FileBytes> = Some((*b"abc\0", 3));

// Whether a file is copied from one store into another. One that is missing is not.
fn copies_file<F: Files>(from: &mut F, to: &mut F) -> bool {
    matches!(put_and_keep(from, 1, b"abc"), Ok(()))
        && matches!(copy_file(from, to, 1), Ok(true))
        && matches!(copy_file(from, to, 2), Ok(false))
        && has_file(from, 1, COPIED)
        && has_file(to, 1, COPIED)
}

// The same of the stores of two places.
fn copies_between<P: Place>(one: &mut P, two: &mut P) -> bool {
    match one.take_up(b"one") {
        Ok((journal, mut from)) => {
            let copies = match two.take_up(b"two") {
                Ok((other, mut to)) => {
                    let copies = copies_file(&mut from, &mut to);
                    two.put_down(other, to);
                    copies
                }
                Err(_) => false,
            };
            one.put_down(journal, from);
            copies
        }
        Err(_) => false,
    }
}

// The same of places that are just made.
fn new_copy<P: Place + Drop>(one: Result<P, Memory>, two: Result<P, Memory>) -> bool {
    let (Ok(mut one), Ok(mut two)) = (one, two) else {
        return false;
    };
    copies_between(&mut one, &mut two)
}

#[test]
fn file_is_copied_into_another_store(rt: HostRuntime) {
    assert!(rt; new_copy(new_steady_place(rt.alloc()), new_steady_place(rt.alloc())));
}
