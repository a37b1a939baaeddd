//! The replay of an inserted row. Depends on `opening`.
ghost use Rattle.std.specs.Prelude.{◌≡◌, ◌↔◌, ◌≤◌, ◌<◌, ◌⊎◌, IfOk, IsErrOf, IsTrue, OnOk, true};
ghost use Rattle.std.specs.List.{AllByRecursion as Each};
ghost use Rattle.tsdb_log.specs.declared.record.LogRecord.{LogRecord};
ghost use Rattle.tsdb_redo.specs.Redone.{IsRedone};
ghost use Rattle.tsdb_redo.specs.Rows.{DifferInSeries, HasNoInsert, TellsRoomFor, IsCellOf, IsDeviceOf, IsRowOf};
ghost use Rattle.tsdb_redo.specs.Rows.{LacksItsSeries};
ghost use Rattle.tsdb_redo.specs.Rows.{new_points as new_points_of};
ghost use Rattle.tsdb_redo.specs.declared.fault.RedoFault.TheVariants as fault;
ghost use Rattle.tsdb_memory.specs.Model.{IsSoundMemory};
ghost use Rattle.tsdb_memory.specs.StateOfMemory.{point_value_at};
ghost use Rattle.tsdb_memtable.specs.Pairs.{points_of};
ghost use Rattle.tsdb_path.specs.Nodes.{device_of, node_count};
ghost use Rattle.std.specs.Prelude.{None};

use crate::fault::RedoFault;
use crate::opening::Opening;
use std::alloc::Global;
use std::collections::HashSet;
use tsdb_base::{List, Memory, Range, SeriesId, Space, Time, limits};
use tsdb_log::CellRecord;
use tsdb_memory::MemoryStore;
use tsdb_memtable::{Pair, space_of};
use tsdb_path::Path;

/// The most points of a working pair of more than one row, whatever an engine's options say.
const MAX_PAIR_POINTS: u128 = limits::MAX_PAIR_POINTS as u128;

impl Opening {
    /// A row is inserted.
    pub(crate) fn redo_insert(
        &mut self,
        time: Time,
        cells: List<CellRecord>,
    ) -> Result<(), RedoFault>
        ensures { IsRedone self.old self.new (LogRecord.Insert time cells) result }
    {
        let device = self.fitting_device(time, cells.items())?;
        self.memory.prepare_insert(cells.items())?;
        self.memory.finish_insert(&device, time, cells);
        Ok(())
    }

    /// The device of a row that has a replay.
    fn fitting_device(&self, time: Time, cells: &[CellRecord]) -> Result<Path, RedoFault>
        ensures row { IfOk result (λ device. IsRowOf self.now.memory device cells.now) }
        ensures room { OnOk result (TellsRoomFor self.now.memory time cells.now true) }
        ensures no_replay { IsErrOf result fault.NoReplay → HasNoInsert self.now.memory time cells.now }
    {
        let device = self.device_of_row(cells)?;
        if !self.is_row(&device, cells)? {
            return Err(RedoFault::NoReplay);
        }
        if !self.has_room(&device, time, cells) {
            return Err(RedoFault::NoReplay);
        }
        Ok(device)
    }

    /// The device of the first cell of a row. A row without cells may be of any.
    fn device_of_row(&self, cells: &[CellRecord]) -> Result<Path, RedoFault>
        ensures device { IfOk result (IsDeviceOf self.now.memory.series cells.now) }
        ensures no_replay { IsErrOf result fault.NoReplay → LacksItsSeries self.now.memory.series cells.now }
    {
        let Some(first) = cells.first() else {
            return any_device(self.alloc);
        };
        self.memory.sound();
        match self.memory.schema(first.series) {
            Some((path, _, _)) => device_of(path),
            None => Err(RedoFault::NoReplay),
        }
    }

    /// Whether the cells are of different series of the device, with values of their types, and can be counted.
    fn is_row(&self, device: &Path, cells: &[CellRecord]) -> Result<bool, Memory>
        ensures { IfOk result (λ yes. IsTrue yes ↔ IsRowOf self.now.memory device.now cells.now) }
    {
        if !self.has_stamp() {
            return Ok(false);
        }
        if !are_of_device(&self.memory, device, cells) {
            return Ok(false);
        }
        differ_in_series(self.alloc, cells)
    }

    /// Whether the working pair is empty, or keeps to its points with the cells of a row.
    fn has_room(&self, device: &Path, time: Time, cells: &[CellRecord]) -> bool
        requires { IsRowOf self.now.memory device.now cells.now }
        ensures { TellsRoomFor self.now.memory time cells.now result }
    {
        if self.memory.is_idle() {
            return true;
        }
        self.memory.sound();
        let points = u128::from(self.memory.points(Space::Sequence))
            + u128::from(self.memory.points(Space::Unsequence));
        if points + cells.len() as u128 <= MAX_PAIR_POINTS {
            return true;
        }
        let space = space_of(self.memory.watermarks().get(device), time);
        points + new_points(self.memory.working(), space, time, cells) as u128 <= MAX_PAIR_POINTS
    }
}

/// A device, which has no series.
fn any_device(alloc: Global) -> Result<Path, RedoFault>
    ensures { ¬ IsErrOf result fault.NoReplay }
{
    match Path::read(alloc, b"root") {
        Ok(device) => Ok(device),
        Err(_) => Err(RedoFault::Memory),
    }
}

/// The device of a series.
fn device_of(series: &Path) -> Result<Path, RedoFault>
    requires { 2 ≤ node_count series.now }
    ensures value { IfOk result (λ device. device ≡ device_of series.now) }
    ensures memory { ¬ IsErrOf result fault.NoReplay }
{
    match series.device() {
        Ok(device) => Ok(device),
        Err(_) => Err(RedoFault::Memory),
    }
}

/// Whether each cell is of a series of the device, with a value of its type.
fn are_of_device(memory: &MemoryStore, device: &Path, cells: &[CellRecord]) -> bool
    ensures { IsTrue result ↔ Each (IsCellOf memory.now.series device.now) cells.now }
{
    for cell in cells {
        if !is_of_device(memory, device, cell) {
            return false;
        }
    }
    true
}

/// Whether the cell is of a series of the device, with a value of its type.
fn is_of_device(memory: &MemoryStore, device: &Path, cell: &CellRecord) -> bool
    ensures { IsTrue result ↔ IsCellOf memory.now.series device.now cell.now }
{
    memory.sound();
    let Some((path, data_type, _)) = memory.schema(cell.series) else {
        return false;
    };
    if cell.value.data_type() != data_type {
        return false;
    }
    has_device(path, device)
}

/// Whether a series is of the device.
fn has_device(series: &Path, device: &Path) -> bool
    requires { 2 ≤ node_count series.now }
    ensures { IsTrue result ↔ (device_of series.now ≡ device.now) }
{
    let bytes = series.bytes();
    let end = bytes.len() - series.measurement().len() - 1;
    &bytes[..end] == device.bytes()
}

/// Whether no series stands in two cells.
fn differ_in_series(alloc: Global, cells: &[CellRecord]) -> Result<bool, Memory>
    ensures { IfOk result (λ yes. IsTrue yes ↔ DifferInSeries cells.now) }
{
    if cells.len() < 2 {
        return Ok(true);
    }
    let mut seen = HashSet::new(alloc);
    for cell in cells {
        if !seen.insert(cell.series.0)? {
            return Ok(false);
        }
    }
    Ok(true)
}

/// How many of the cells have no point at the time in the space yet.
fn new_points(pair: &Pair, space: Space, time: Time, cells: &[CellRecord]) -> usize
    ensures { result ≡ new_points_of space time pair.now cells.now }
{
    let mut count = 0;
    for cell in cells {
        if is_new(pair, space, time, cell.series) {
            count += 1;
        }
    }
    count
}

/// Whether the series has no point at the time in the space.
fn is_new(pair: &Pair, space: Space, time: Time, series: SeriesId) -> bool
    ensures { IsTrue result ↔ (point_value_at time (points_of space series.0 pair.now) ≡ None) }
{
    let at = Range {
        from: time,
        to: time,
    };
    pair.slice(space, series, &at).is_empty()
}
