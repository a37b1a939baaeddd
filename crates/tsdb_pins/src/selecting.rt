//! The rows of a pin. Depends on `column` and `rows`.
ghost use Rattle.std.specs.List.{AllZip};
ghost use Rattle.std.specs.Prelude.{◌≡◌, ◌≤◌, IfOk};
ghost use Rattle.tsdb_streams.specs.Files.{HasReason};
ghost use Rattle.tsdb_model.specs.Folds.{rows};
ghost use Rattle.tsdb_model.specs.World.{World};
ghost use Rattle.tsdb_pins.specs.Worlds.{columns_in};
ghost use Rattle.tsdb_pin.specs.StateOfPin.{IsPinOf};
ghost use Rattle.tsdb_pins.specs.Reading.{AreColumnsOf, AreColumnsTold, AreColumnsTrue, HaveNodes, IsColumnRead};
ghost use Rattle.tsdb_pins.specs.Reading.{SeriesPages, TellPoints};
ghost use Rattle.tsdb_state.specs.State as state;
ghost use Rattle.tsdb_state.specs.Steps.{PinStandsFor};

use crate::column::read_column;
use crate::rows::rows_of;
use std::alloc::Global;
use tsdb_base::Point;
use tsdb_model::Line;
use tsdb_outside::{Files, StoreFault};
use tsdb_pin::Pin;

/// The points of each column, in their order.
fn read_columns<F: Files>(
    alloc: Global,
    pin: &Pin<F>,
    port: &mut F::Port,
) -> Result<Vec<Vec<Point>>, StoreFault>
    requires nodes { HaveNodes pin.now.columns }
    requires of_store { AreColumnsOf F.Right.file (F.Port.store port.old) pin.now.columns }
    ensures read { (pages : SeriesPages) → AreColumnsTrue F.Right.file pages pin.now.columns
        → IfOk result (λ columns.
        AllZip (IsColumnRead F.Right.file pages pin.now.range pin.now.marks.marks) pin.now.columns columns.items) }
    ensures reason { (pages : SeriesPages) → AreColumnsTrue F.Right.file pages pin.now.columns
        → HasReason (AreColumnsTold F.Right.file pages pin.now.columns)
        (F.Port.faults port.old) (F.Port.faults port.new) result }
    ensures later { F.Port.faults port.old ≤ F.Port.faults port.new }
    ensures same_store { F.Port.store port.new ≡ F.Port.store port.old }
{
    let mut columns = Vec::new(alloc);
    for column in pin.columns.items() {
        columns.push(read_column(alloc, pin, column, port)?)?;
    }
    Ok(columns)
}

/// The rows of a pin: a line for each time in its range at which a column has a value. Where it is told what the pin's
/// files have, these are the rows of the plain map in each world that the pin stands for, whatever was written,
/// deleted, flushed or compacted since.
pub fn select<F: Files>(
    alloc: Global,
    pin: &Pin<F>,
    port: &mut F::Port,
) -> Result<Vec<Line>, StoreFault>
    requires nodes { HaveNodes pin.now.columns }
    requires of_store { AreColumnsOf F.Right.file (F.Port.store port.old) pin.now.columns }
    ensures rows { (pages : SeriesPages) → AreColumnsTrue F.Right.file pages pin.now.columns
        → IfOk result (λ lines. (told : state.ToldContents) (shown : state.PinState) (world : World)
        → TellPoints F.Right.file pages told pin.now.columns → IsPinOf pin.now shown → PinStandsFor told shown world
        → lines.items ≡ rows (columns_in world pin.now.range pin.now.columns)) }
    ensures reason { (pages : SeriesPages) → AreColumnsTrue F.Right.file pages pin.now.columns
        → HasReason (AreColumnsTold F.Right.file pages pin.now.columns)
        (F.Port.faults port.old) (F.Port.faults port.new) result }
    ensures later { F.Port.faults port.old ≤ F.Port.faults port.new }
    ensures same_store { F.Port.store port.new ≡ F.Port.store port.old }
{
    let columns = read_columns(alloc, pin, port)?;
    Ok(rows_of(alloc, columns)?)
}
