//! The cells of a row as its record has them. Depends on nothing here.
ghost use Rattle.std.specs.Prelude.{◌≤◌, IfOk, length, map};
ghost use Rattle.tsdb_model.specs.Commands.{IsRow};
ghost use Rattle.tsdb_base.specs.Limits.{max_names};
ghost use Rattle.tsdb_memory.specs.StateOfMemory.{series_entry};
ghost use Rattle.tsdb_memory.specs.Model.{IsSoundMemory};
ghost use Rattle.tsdb_memory.specs.RowReading.{AreOfDifferentSeries, AreOfDevice, IfRead, IsRowRead};
ghost use Rattle.tsdb_memory.specs.RowSteps.{IsCellFound};

use crate::store::MemoryStore;
use std::alloc::Global;
use tsdb_base::{Answer, List, Memory};
use tsdb_log::CellRecord;
use tsdb_model::{Cell, Row, value_of};
use tsdb_path::{Path, PathFault};

/// What a cell is in a store.
pub(crate) enum CellFound {
    /// Its series is not there.
    Missing,
    /// The literal does not fit the type of its series.
    Unfit,
    /// The cell as a record has it.
    Item(CellRecord),
}

/// The cells of a row of the device as its record has them, in their order. Each is looked up once.
///
/// Refuses, as the plain map does, a row with a cell whose series is not there as `NoPath`, and else one with a literal
/// that is no value of its series' type as `WrongType`.
pub fn cells_of(
    alloc: Global,
    memory: &MemoryStore,
    device: &Path,
    row: &Row,
) -> Result<Result<List<CellRecord>, Answer>, Memory>
    requires { IsRow row.now }
    ensures read { IfOk result (IsRowRead (map series_entry memory.now.series) device.now row.now.cells) }
    ensures few { IfRead result (λ cells. length cells ≤ max_names) }
    ensures differ { IfRead result AreOfDifferentSeries }
    ensures there { IfRead result (AreOfDevice memory.now.series device.now) }
{
    // (it tells that the paths of all series are such, so that one which is too long is of none)
    memory.sound();
    let cells = row.cells.items();
    let mut items = Vec::with_capacity(alloc, cells.len())?;
    let mut fit = true;
    for cell in cells {
        match cell_of(memory, device, cell)? {
            CellFound::Item(item) => items.push(item)?,
            CellFound::Unfit => fit = false,
            CellFound::Missing => return Ok(Err(Answer::NoPath)),
        }
    }
    if fit {
        Ok(Ok(List::of(items)))
    } else {
        Ok(Err(Answer::WrongType))
    }
}

/// The cell as a record has it, if its series is there and its literal fits.
fn cell_of(memory: &MemoryStore, device: &Path, cell: &Cell) -> Result<CellFound, Memory>
    requires { IsSoundMemory memory.now }
    ensures { IfOk result (IsCellFound memory.now.series device.now cell.now) }
{
    cell.measurement.sound();
    let path = match device.child(&cell.measurement) {
        Ok(path) => path,
        Err(fault) => {
            return match fault {
                PathFault::Memory => Err(Memory),
                _ => Ok(CellFound::Missing),
            };
        }
    };
    let Some(series) = memory.series(&path) else {
        return Ok(CellFound::Missing);
    };
    match value_of(&cell.value, series.data_type)? {
        Some(value) => Ok(CellFound::Item(CellRecord {
            series: series.id,
            value,
        })),
        None => Ok(CellFound::Unfit),
    }
}
