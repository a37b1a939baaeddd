//! The aggregates of a pin. Depends on `folding` and tsdb_aggregate.
ghost use Rattle.std.specs.Prelude.{◌≡◌, ◌+◌, ◌≤◌, IfOk};
ghost use Rattle.tsdb_streams.specs.Files.{HasReason};
ghost use Rattle.tsdb_model.specs.World.{World};
ghost use Rattle.tsdb_pins.specs.Worlds.{values_in};
ghost use Rattle.tsdb_pin.specs.StateOfPin.{IsPinOf};
ghost use Rattle.tsdb_pins.specs.Clean.{TellPages, columns_read};
ghost use Rattle.tsdb_pins.specs.Reading.{AreColumnsOf, AreColumnsTold, AreColumnsTrue, HaveNodes, SeriesPages};
ghost use Rattle.tsdb_pins.specs.Reading.{TellPoints};
ghost use Rattle.tsdb_state.specs.State as state;
ghost use Rattle.tsdb_state.specs.Steps.{PinStandsFor};

use crate::folding::read_value;
use std::alloc::Global;
use std::sync::ledger::Ledger;
use tsdb_base::{Figure, Steps};
use tsdb_outside::{Files, StoreFault};
use tsdb_pin::Pin;

/// The aggregates of a pin, one for each column. Where it is told what the pin's files have, these are the values of
/// the plain map in each world that the pin stands for. A page that lies in the range, and that no newer mark and nothing
/// of another source meets, is answered from its statistics, where these have what is asked. Each page that is read is
/// a step.
pub fn aggregates<F: Files, L: Ledger>(
    alloc: Global,
    pin: &Pin<F>,
    port: &mut F::Port,
    pages: &mut Steps<L>,
) -> Result<Vec<Option<Figure>>, StoreFault>
    requires nodes { HaveNodes pin.now.columns }
    requires of_store { AreColumnsOf F.Right.file (F.Port.store port.old) pin.now.columns }
    ensures values { (told_pages : SeriesPages) → AreColumnsTrue F.Right.file told_pages pin.now.columns
        → IfOk result (λ values. (told : state.ToldContents) (shown : state.PinState) (world : World)
        → TellPoints F.Right.file told_pages told pin.now.columns → IsPinOf pin.now shown → PinStandsFor told shown world
        → values.items ≡ values_in world pin.now.range pin.now.columns) }
    ensures counted { pages.old ≤ pages.new }
    ensures most { (told_pages : SeriesPages) → AreColumnsTrue F.Right.file told_pages pin.now.columns
        → TellPages F.Right.file told_pages pin.now.columns → pages.new
        ≤ pages.old + columns_read F.Right.file told_pages pin.now.range pin.now.marks.marks pin.now.columns }
    ensures reason { (told_pages : SeriesPages) → AreColumnsTrue F.Right.file told_pages pin.now.columns
        → HasReason (AreColumnsTold F.Right.file told_pages pin.now.columns)
        (F.Port.faults port.old) (F.Port.faults port.new) result }
    ensures later { F.Port.faults port.old ≤ F.Port.faults port.new }
    ensures same_store { F.Port.store port.new ≡ F.Port.store port.old }
{
    let mut values = Vec::new(alloc);
    for column in pin.columns.items() {
        values.push(read_value(alloc, pin, column, port, pages)?)?;
    }
    Ok(values)
}
