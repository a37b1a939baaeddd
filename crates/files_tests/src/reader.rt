//! How the tests of tsfile_reader call it: the bytes of a file are stored through a port, read, and removed. Depends on
//! tsfile_reader, tsdb_index, mem_outside, tsdb_outside and tsdb_base.
ghost use Rattle.std.specs.Prelude.{◌≡◌};

use mem_outside::{Fails, MemPlace, MemPort};
use std::alloc::Global;
use tsdb_base::{FileNumber, Point, Value};
use tsdb_index::{FileMeta, IndexEntry};
use tsdb_outside::{Files, Place, Port};
use tsfile_reader::{ReadFault, check_file, read_meta, read_points};

/// How a file is read.
#[derive(Clone, Copy)]
pub enum Call {
    Meta,
    Check,
}

/// Stores these bytes through the port, reads them, and removes them.
pub fn read_bytes<P: Port>(
    alloc: Global,
    port: &mut P,
    bytes: &[u8],
    call: Call,
) -> Result<FileMeta, ReadFault>
    ensures { P.store port.new ≡ P.store port.old }
{
    let Ok(mut sealed) = port.put(FileNumber(1), bytes) else {
        return Err(ReadFault::Failed);
    };
    let outcome = match P::share(&mut sealed) {
        Ok(right) => {
            let outcome = match call {
                Call::Meta => read_meta(alloc, port, &right),
                Call::Check => check_file(alloc, port, &right),
            };
            P::give_back(&mut sealed, right);
            outcome
        }
        Err(_) => Err(ReadFault::Memory),
    };
    let _ = port.remove(sealed);
    outcome
}

/// Stores these bytes through the port, reads the page of which the entry says this, and removes them.
pub fn read_page_in<P: Port>(
    alloc: Global,
    port: &mut P,
    bytes: &[u8],
    entry: &IndexEntry,
    page: usize,
) -> Result<Vec<Point>, ReadFault>
    ensures { P.store port.new ≡ P.store port.old }
{
    if page >= entry.pages.items().len() {
        return Err(ReadFault::Memory);
    }
    let Ok(mut sealed) = port.put(FileNumber(1), bytes) else {
        return Err(ReadFault::Failed);
    };
    let outcome = match P::share(&mut sealed) {
        Ok(right) => {
            let outcome = read_points(alloc, port, &right, entry, page);
            P::give_back(&mut sealed, right);
            outcome
        }
        Err(_) => Err(ReadFault::Memory),
    };
    let _ = port.remove(sealed);
    outcome
}

/// The port of a place.
fn port_in(place: &mut MemPlace) -> Option<MemPort> {
    let (_journal, mut files) = place.take_up(b"store").ok()?;
    files.port().ok()
}

/// A port of which this call fails, counted from 1.
pub fn port_failing_at(alloc: Global, number: u64) -> Option<MemPort> {
    let files = vec![in alloc; number].ok()?;
    let journal = Vec::new(alloc);
    let slots = [Vec::new(alloc), Vec::new(alloc)];
    match MemPlace::new(alloc, slots, Vec::new(alloc), Fails { journal, files }) {
        Ok(mut place) => port_in(&mut place),
        Err(_) => None,
    }
}

/// The number of a call that no port makes.
pub const NO_CALL: u64 = u64::MAX;

/// The index of these bytes, read through a port of which this call fails.
pub fn meta_of(
    alloc: Global,
    bytes: &[u8],
    call: Call,
    number: u64,
) -> Result<FileMeta, ReadFault> {
    match port_failing_at(alloc, number) {
        Some(mut port) => read_bytes(alloc, &mut port, bytes, call),
        None => Err(ReadFault::Memory),
    }
}

/// The points of the page with this number of an entry, read through a port of which this call fails.
pub fn page_of(
    alloc: Global,
    bytes: &[u8],
    entry: &IndexEntry,
    page: usize,
    number: u64,
) -> Result<Vec<Point>, ReadFault> {
    match port_failing_at(alloc, number) {
        Some(mut port) => read_page_in(alloc, &mut port, bytes, entry, page),
        None => Err(ReadFault::Memory),
    }
}

/// The fault of reading these bytes, if there is one.
pub fn fault_of(alloc: Global, bytes: &[u8], call: Call) -> Option<ReadFault> {
    meta_of(alloc, bytes, call, NO_CALL).err()
}

/// Whether these are the one point 1, 5 of the worked file.
pub fn is_worked_point(found: Result<Vec<Point>, ReadFault>) -> bool {
    match found {
        Ok(points) => match points.as_slice() {
            [point] => point.time == 1 && matches!(point.value, Value::I64(5)),
            _ => false,
        },
        Err(_) => false,
    }
}
