//! Tests of tsfile_reader on a file in a store on a real disk.
ghost use Rattle.std.specs.Prelude.{◌≡◌};

use super::reader::{Call, is_worked_point, read_bytes, read_page_in};
use super::samples::{WORKED, worked_but};
use fs_outside::FsPlace;
use std::alloc::Global;
use tsdb_base::Point;
use tsdb_outside::{Files, Place, Port};
use tsfile_reader::ReadFault;

/// The first page of a file that is stored through the port, once all of its parts are tested.
fn first_page<P: Port>(alloc: Global, port: &mut P, bytes: &[u8]) -> Result<Vec<Point>, ReadFault>
    ensures { P.store port.new ≡ P.store port.old }
{
    read_bytes(alloc, port, bytes, Call::Check)?;
    let meta = read_bytes(alloc, port, bytes, Call::Meta)?;
    match meta.index.entries.items() {
        [entry, ..] => read_page_in(alloc, port, bytes, entry, 0),
        [] => Err(ReadFault::Memory),
    }
}

/// The first page of a file in the store of a place.
fn first_page_in<P: Place>(
    alloc: Global,
    place: &mut P,
    bytes: &[u8],
) -> Result<Vec<Point>, ReadFault> {
    let Ok((journal, mut files)) = place.take_up(b"store") else {
        return Err(ReadFault::Failed);
    };
    let outcome = match files.port() {
        Ok(mut port) => {
            let outcome = first_page(alloc, &mut port, bytes);
            files.end_port(port);
            outcome
        }
        Err(_) => Err(ReadFault::Memory),
    };
    place.put_down(journal, files);
    outcome
}

/// The first page of a file in a store on the disk.
fn first_page_on_disk(rt: &HostRuntime, bytes: &[u8]) -> Result<Vec<Point>, ReadFault> {
    match rt.clone() {
        Ok(handle) => first_page_in(rt.alloc(), &mut FsPlace::new(handle), bytes),
        Err(_) => Err(ReadFault::Memory),
    }
}

#[test]
fn file_on_a_disk(rt: HostRuntime) {
    assert!(rt; is_worked_point(first_page_on_disk(&rt, &WORKED)));
}

#[test]
fn damage_on_a_disk(rt: HostRuntime) {
    let fault = first_page_on_disk(&rt, &worked_but(24)).err();
    assert!(rt; fault == Some(ReadFault::Damaged { at: 24 }));
}
