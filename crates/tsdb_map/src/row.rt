//! The cells of a row: whether they fit, how they are written, and how they are taken back. Depends on `catalog` and
//! `literal`.
ghost use Rattle.std.specs.Prelude.{◌≡◌, ◌+◌, ◌≤◌, ◌++◌, length, IfOk, OnOk, OnErr, IsSome, true};
ghost use Rattle.std.specs.Vec.{vec_len, vec_capacity};
ghost use Rattle.tsdb_model.specs.Apply as apply;
ghost use Rattle.tsdb_map.specs.Pending.{old_values};
ghost use Rattle.tsdb_model.specs.World.{World, change, value_at};
ghost use Rattle.tsdb_map.specs.Model.{set_at};
ghost use Rattle.tsdb_path.specs.Nodes.{child_of};

use crate::catalog::Catalog;
use tsdb_base::{Answer, Memory, Time, Value};
use tsdb_model::{Cell, fits, value_of};
use tsdb_path::Path;

/// What an insert answers: all names are looked up before any literal is judged.
pub fn insert_answer(catalog: &Catalog, device: &Path, cells: &[Cell]) -> Answer
    ensures { result ≡ apply.insert_answer catalog.now device.now cells.now }
{
    let mut fit = true;
    for cell in cells {
        let Some(series) = catalog.get(device, &cell.measurement) else {
            return Answer::NoPath;
        };
        if !fits(&cell.value, series.data_type()) {
            fit = false;
        }
    }
    if fit { Answer::Done } else { Answer::WrongType }
}

/// Writes the values of a row, all of which fit, and adds those that stood there before to a list that has room, the
/// last cell's first. Where memory is refused behind a cell, that cell's write is taken back.
pub fn put_cells(
    catalog: &mut Catalog,
    device: &Path,
    time: Time,
    cells: &[Cell],
    olds: &mut Vec<Option<Value>>,
) -> Result<(), Memory>
    requires fit { apply.all_fit catalog.old device.now cells.now ≡ true }
    requires room { vec_len olds.old + length cells.now ≤ vec_capacity olds.old }
    ensures put { OnOk result (catalog.new ≡ apply.put_cells catalog.old device.now time cells.now) }
    ensures olds { OnOk result (olds.new.items ≡ olds.old.items ++ old_values catalog.old device.now time cells.now) }
    ensures len { OnOk result (vec_len olds.new ≡ vec_len olds.old + length cells.now) }
    ensures capacity { vec_capacity olds.old ≤ vec_capacity olds.new }
    ensures memory { OnErr result (catalog.new ≡ catalog.old) }
{
    let [cell, rest @ ..] = cells else {
        return Ok(());
    };
    let old = put_cell(catalog, device, time, cell)?;
    if put_cells(catalog, device, time, rest, olds).is_err() {
        take_back(catalog, device, time, cell, old);
        return Err(Memory);
    }
    let _ = olds.push(old);
    Ok(())
}

/// Takes back the cells of a row that was written, from the last to the first.
pub fn take_back_cells(
    catalog: &mut Catalog,
    device: &Path,
    time: Time,
    cells: &[Cell],
    olds: &mut Vec<Option<Value>>,
)
    ensures { (before : World) → apply.all_fit before device.now cells.now ≡ true
        → catalog.old ≡ apply.put_cells before device.now time cells.now
        → olds.old.items ≡ old_values before device.now time cells.now → catalog.new ≡ before }
{
    let [cell, rest @ ..] = cells else {
        return;
    };
    let Some(old) = olds.pop() else {
        return;
    };
    take_back_cells(catalog, device, time, rest, olds);
    take_back(catalog, device, time, cell, old);
}

/// Writes the value of a cell, which fits, and returns the one that was there.
fn put_cell(
    catalog: &mut Catalog,
    device: &Path,
    time: Time,
    cell: &Cell,
) -> Result<Option<Value>, Memory>
    requires { apply.fits_series cell.now.value (apply.series_of catalog.old device.now cell.now.measurement) ≡ true }
    ensures put { OnOk result (catalog.new
        ≡ change catalog.old (child_of device.now cell.now.measurement) (apply.put_literal time cell.now.value)) }
    ensures old { IfOk result (λ old. old ≡ value_at catalog.old (child_of device.now cell.now.measurement) time) }
    ensures memory { OnErr result (catalog.new ≡ catalog.old) }
{
    let Some(series) = catalog.get(device, &cell.measurement) else {
        return Ok(None);
    };
    let Some(value) = value_of(&cell.value, series.data_type())? else {
        return Ok(None);
    };
    catalog.set(device, &cell.measurement, time, Some(value))
}

/// Puts back what stood at a time before a cell was written there. It takes no memory, since the time is there.
fn take_back(catalog: &mut Catalog, device: &Path, time: Time, cell: &Cell, old: Option<Value>)
    ensures { IsSome (value_at catalog.old (child_of device.now cell.now.measurement) time)
        → catalog.new ≡ change catalog.old (child_of device.now cell.now.measurement) (set_at time old) }
{
    if catalog.get(device, &cell.measurement).is_some() {
        let _ = catalog.set(device, &cell.measurement, time, old);
    }
}
