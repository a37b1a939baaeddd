//! A use of `tsfile_writer` and `tsfile_reader`, as a caller writes it: the points of a series become a TsFile, which is
//! put into a store, looked up by the name of the series, and read back. The program prints what came back. Its store
//! lies in a folder of its own, which it removes. Depends on tsdb_base, tsdb_path, tsdb_index, tsdb_outside, fs_outside,
//! tsfile_writer and tsfile_reader.
#![tactic(auto)]

mod fault;
mod reading;
mod writing;

ghost use Rattle.std.specs.Prelude.{◌≡◌, ◌≤◌};
ghost use Rattle.tsdb_path.specs.Nodes.{node_count};

use fault::Fault;
use fs_outside::FsPlace;
use reading::read_series;
use std::alloc::Global;
use std::process::ExitCode;
use std::{fs, io};
use tsdb_base::{FileNumber, Memory, Point, Value};
use tsdb_outside::{Files, Place, Port, StoreFault};
use tsdb_path::Path;
use tsfile_reader::ReadFault;
use writing::build;

/// The folder of the store.
const FOLDER: &str = "use_tsfile_store";

/// The series.
const SERIES: &str = "root.plant.pump.pressure";

/// Puts the file into the store of the port, reads the series back, and removes the file.
fn through_port<P: Port>(
    alloc: Global,
    port: &mut P,
    bytes: &[u8],
    path: &Path,
) -> Result<Vec<Point>, Fault>
    requires { 2 ≤ node_count path.now }
    ensures { P.store port.new ≡ P.store port.old }
{
    let mut sealed = port.put(FileNumber(1), bytes)?;
    let points = match P::share(&mut sealed) {
        Ok(right) => {
            let points = read_series(alloc, port, &right, path);
            P::give_back(&mut sealed, right);
            points
        }
        Err(memory) => Err(ReadFault::from(memory)),
    };
    match port.remove(sealed) {
        Ok(()) => Ok(points?),
        Err(_failed) => Err(Fault::Store(StoreFault::Failed)),
    }
}

/// The same in the store of a place.
fn at_place<P: Place>(
    alloc: Global,
    place: &mut P,
    bytes: &[u8],
    path: &Path,
) -> Result<Vec<Point>, Fault>
    requires { 2 ≤ node_count path.now }
{
    let (journal, mut files) = place.take_up(FOLDER.as_bytes())?;
    let points = match files.port() {
        Ok(mut port) => {
            let points = through_port(alloc, &mut port, bytes, path);
            files.end_port(port);
            points
        }
        Err(_memory) => Err(Fault::Store(StoreFault::Memory)),
    };
    place.put_down(journal, files);
    points
}

/// A point.
fn point(time: i64, value: i64) -> Point {
    Point {
        time,
        value: Value::I64(value),
    }
}

/// The points that are written, a minute apart.
fn pressures(alloc: Global) -> Result<Vec<Point>, Memory> {
    Ok(vec![in alloc; point(60, 42), point(120, 40), point(180, 43)]?)
}

/// Writes the points, and returns what is read of the file.
fn write_and_read(rt: HostRuntime) -> Result<Vec<Point>, Fault> {
    let alloc = rt.alloc();
    let Ok(path) = Path::read(alloc, SERIES.as_bytes()) else {
        return Err(Fault::Points);
    };
    let Ok(points) = pressures(alloc) else {
        return Err(Fault::Store(StoreFault::Memory));
    };
    if path.nodes() < 2 {
        return Err(Fault::Points);
    }
    let bytes = build(alloc, &path, points)?;
    at_place(alloc, &mut FsPlace::new(rt), &bytes, &path)
}

/// Prints the points, a line each.
fn print(rt: &HostRuntime, points: &[Point]) -> io::Result<()> {
    for point in points {
        if let Value::I64(value) = &point.value {
            println!(rt; "{} {value}", point.time)?;
        }
    }
    Ok(())
}

fn main(rt: HostRuntime) -> ExitCode {
    let points = write_and_read(rt);
    let removed = fs::remove_dir_all(&rt, FOLDER);
    match points {
        Ok(points) if removed.is_ok() && print(&rt, &points).is_ok() => ExitCode::SUCCESS,
        _ => ExitCode::FAILURE,
    }
}
