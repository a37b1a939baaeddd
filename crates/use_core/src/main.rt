//! A use of the core, as a caller writes it: a store is opened, a series is made, two rows are written, and a pin is taken
//! and read. Then the store is closed. The program prints what was read. Its store lies in a folder of its own, which it
//! removes. Depends on tsdb_base, tsdb_path, tsdb_model, tsdb_outside, fs_outside, tsdb_pins, tsdb_recover and
//! tsdb_querying.
#![tactic(auto)]

mod fault;
mod reading;
mod writing;

ghost use Rattle.std.specs.Prelude.{◌≡◌, ◌≤◌};
ghost use Rattle.tsdb_path.specs.Nodes.{node_count};
ghost use Rattle.tsdb_querying.specs.Flushing.{IsReady};

use fault::Fault;
use fs_outside::FsPlace;
use reading::read;
use std::alloc::Global;
use std::process::ExitCode;
use std::{fs, io};
use tsdb_base::{Range, Value};
use tsdb_model::{Item, Line};
use tsdb_outside::{Files, Journal, Place, StoreFault};
use tsdb_path::Path;
use tsdb_recover::{Core, OpenRefused, Options, recover};
use writing::write;

/// The folder of the store.
const FOLDER: &str = "use_core_store";

/// The series.
const SERIES: &str = "root.plant.pump.pressure";

/// All times.
const ALWAYS: Range = Range {
    from: i64::MIN,
    to: i64::MAX,
};

/// The most points of a pair in memory.
const OPTIONS: Options = Options {
    pair_points: 10_000,
};

/// Writes to the core, and returns all that is read of the series then.
fn write_and_read<J: Journal, F: Files>(
    alloc: Global,
    core: &mut Core<J, F>,
    port: &mut F::Port,
    series: &Path,
) -> Result<Vec<Line>, Fault>
    requires nodes { 3 ≤ node_count series.now }
    requires ready { IsReady (F.Port.store port.old) core.old }
    ensures ready { IsReady (F.Port.store port.old) core.new }
    ensures same_store { F.Port.store port.new ≡ F.Port.store port.old }
{
    write(alloc, core, port, series)?;
    let device = series.device()?;
    let item = Item {
        measurement: series.measurement_name()?,
        aggregate: None,
    };
    read(alloc, core, port, &device, &[item], &ALWAYS)
}

/// Opens the store of a journal and its files, uses its core, and closes it. The journal comes back in any case.
fn use_core<J: Journal, F: Files>(
    alloc: Global,
    journal: J,
    files: &mut F,
    series: &Path,
) -> (J, Result<Vec<Line>, Fault>)
    requires { 3 ≤ node_count series.now }
{
    let Ok(port) = files.port() else {
        return (journal, Err(Fault::Store(StoreFault::Memory)));
    };
    let mut port = port;
    match recover(alloc, journal, files, OPTIONS) {
        Ok(core) => {
            let mut core = core;
            let lines = write_and_read(alloc, &mut core, &mut port, series);
            files.end_port(port);
            (core.close(files), lines)
        }
        Err(OpenRefused { journal, fault: _ }) => {
            files.end_port(port);
            (journal, Err(Fault::Closed))
        }
    }
}

/// The same with the store in the folder.
fn at_place<P: Place>(alloc: Global, place: &mut P) -> Result<Vec<Line>, Fault> {
    let Ok(series) = Path::read(alloc, SERIES.as_bytes()) else {
        return Err(Fault::Refused);
    };
    if series.nodes() < 3 {
        return Err(Fault::Refused);
    }
    let (journal, files) = place.take_up(FOLDER.as_bytes())?;
    let mut files = files;
    let (journal, lines) = use_core(alloc, journal, &mut files, &series);
    place.put_down(journal, files);
    lines
}

/// Prints the rows, a line each.
fn print(rt: &HostRuntime, lines: &[Line]) -> io::Result<()> {
    for line in lines {
        if let [Some(Value::I64(value))] = line.values.items() {
            println!(rt; "{} {value}", line.time)?;
        }
    }
    Ok(())
}

fn main(rt: HostRuntime) -> ExitCode {
    let lines = at_place(rt.alloc(), &mut FsPlace::new(rt));
    let removed = fs::remove_dir_all(&rt, FOLDER);
    match lines {
        Ok(lines) if removed.is_ok() && print(&rt, &lines).is_ok() => ExitCode::SUCCESS,
        _ => ExitCode::FAILURE,
    }
}
