//! Rows of a device whose path can have no child.
ghost use Rattle.tsdb_model.specs.Commands.{IsWellFormed};

use std::alloc::Global;
use std::test::Fail;
use tests_support::command_of;
use tsdb_base::Answer;
use tsdb_memory::{MemoryStore, cells_of};
use tsdb_model::Command;
use tsdb_path::Path;

/// A part of a device's path, and how often it stands behind `root`: 254 bytes, and 16 nodes. No path has their child.
const CHILDLESS: [(&str, usize); 2] = [(".xxxxxxxxxxxxxxxxxxxxxxxx", 10), (".x", 15)];

/// The device of so many parts.
fn device_of(alloc: Global, part: &str, times: usize) -> Result<String, Fail> {
    let parts = part.repeat(alloc, times)?;
    Ok(format!(in alloc; "root{parts}")?)
}

/// Whether the row of a command names no series of the device.
fn has_no_path(
    alloc: Global,
    memory: &MemoryStore,
    device: &Path,
    command: &Command,
) -> Result<bool, Fail>
    requires { IsWellFormed command.now }
{
    match command {
        Command::Insert { row, .. } => {
            let read = cells_of(alloc, memory, device, row)?;
            Ok(matches!(read, Err(Answer::NoPath)))
        }
        _ => Err(Fail::from("a row")),
    }
}

/// Whether the row has no path for each such device.
fn have_no_path(alloc: Global) -> Result<bool, Fail> {
    let memory = MemoryStore::new(alloc);
    for (part, times) in &CHILDLESS {
        let command = command_of(alloc, "insert into root.d(timestamp,b) values(1,true)")?;
        let device = device_of(alloc, part, *times)?;
        let device = Path::read(alloc, device.as_bytes())?;
        if !has_no_path(alloc, &memory, &device, &command)? {
            return Ok(false);
        }
    }
    Ok(true)
}

#[test]
fn rows_of_a_device_without_children(rt: HostRuntime) -> Result<(), Fail> {
    assert!(rt; have_no_path(rt.alloc())?);
    Ok(())
}
