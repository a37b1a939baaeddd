//! The stream of one column of a pin. Depends on `lending` and tsdb_streams.
ghost use Rattle.std.specs.List.{AllByRecursion as Each};
ghost use Rattle.std.specs.Prelude.{◌≡◌, ◌<◌, ◌≤◌, IfOk, None, length};
ghost use Rattle.tsdb_streams.specs.Files.{HasReason};
ghost use Rattle.tsdb_streams.specs.Streams.{IsStreamOfStore, IsToldStream, IsTrueStream, stream_held};
ghost use Rattle.tsdb_model.specs.World.{World};
ghost use Rattle.tsdb_path.specs.Nodes.{node_count};
ghost use Rattle.tsdb_pin.specs.StateOfPin.{IsPinOf};
ghost use Rattle.tsdb_pins.specs.Reading.{AreColumnsOf, AreColumnsTold, AreColumnsTrue, HaveNodes, IsOfStore};
ghost use Rattle.tsdb_pins.specs.Reading.{IsToldIn, IsTrueIn, SeriesPages, TellPoints};
ghost use Rattle.tsdb_pins.specs.Streams.{HasColumnLeft, IsColumnOpened, IsToldColumn, IsTrueColumn};
ghost use Rattle.tsdb_state.specs.State as state;
ghost use Rattle.tsdb_state.specs.Steps.{PinStandsFor};

use crate::lending::lend;
use std::alloc::Global;
use tsdb_outside::{Files, Port, StoreFault};
use tsdb_pin::{Column, Pin};
use tsdb_streams::Stream;

/// Opens the stream of a column.
fn open_one<'a, F: Files>(
    alloc: Global,
    pin: &'a Pin<F>,
    column: &'a Column<F>,
    port: &mut F::Port,
) -> Result<Stream<'a, F::Right>, StoreFault>
    requires nodes { 2 ≤ node_count column.now.schema.path }
    requires of_store { Each (IsOfStore F.Right.file (F.Port.store port.old)) column.now.sources }
    ensures opened { (pages : SeriesPages)
        → Each (IsTrueIn F.Right.file pages column.now.schema.path) column.now.sources
        → IfOk result (IsColumnOpened F.Right.file pages pin.now.range pin.now.marks.marks column.now) }
    ensures truth { (pages : SeriesPages)
        → Each (IsTrueIn F.Right.file pages column.now.schema.path) column.now.sources
        → IfOk result (IsTrueStream F.Right.file (pages column.now.schema.path)) }
    ensures told { (pages : SeriesPages)
        → Each (IsToldIn F.Right.file pages column.now.schema.path) column.now.sources
        → IfOk result (IsToldStream F.Right.file (pages column.now.schema.path)) }
    ensures of_store { IfOk result (IsStreamOfStore F.Right.file (F.Port.store port.new)) }
    ensures held { IfOk result (λ stream. stream_held stream ≡ 0) }
    ensures works { IfOk result (λ stream. stream.fault ≡ None) }
    ensures reason { (pages : SeriesPages)
        → Each (IsTrueIn F.Right.file pages column.now.schema.path) column.now.sources
        → HasReason (Each (IsToldIn F.Right.file pages column.now.schema.path) column.now.sources)
        (F.Port.faults port.old) (F.Port.faults port.new) result }
    ensures later { F.Port.faults port.old ≤ F.Port.faults port.new }
    ensures same_store { F.Port.store port.new ≡ F.Port.store port.old }
{
    let sources = lend(alloc, column.sources.items())?;
    tsdb_streams::open_stream(
        alloc,
        &column.schema.path,
        &pin.range,
        &pin.marks,
        sources,
        port,
    )
}

/// Opens the stream of the column at a place. It reads the index of each of the column's files, and no page. Where it
/// is told what these files have, `pull` takes the points one after another that the column's series has in the range
/// of the pin, in order of time, in each world that the pin stands for, whatever was written, deleted, flushed or
/// compacted since.
pub fn open_column<'a, F: Files>(
    alloc: Global,
    pin: &'a Pin<F>,
    column: usize,
    port: &mut F::Port,
) -> Result<Stream<'a, F::Right>, StoreFault>
    requires column { column < length pin.now.columns }
    requires nodes { HaveNodes pin.now.columns }
    requires of_store { AreColumnsOf F.Right.file (F.Port.store port.old) pin.now.columns }
    ensures points { (pages : SeriesPages) → AreColumnsTrue F.Right.file pages pin.now.columns
        → IfOk result (λ stream. (told : state.ToldContents) (shown : state.PinState) (world : World)
        → TellPoints F.Right.file pages told pin.now.columns → IsPinOf pin.now shown → PinStandsFor told shown world
        → HasColumnLeft F.Right.file pages world pin.now.range pin.now.columns column stream) }
    ensures truth { (pages : SeriesPages) → AreColumnsTrue F.Right.file pages pin.now.columns
        → IfOk result (IsTrueColumn F.Right.file pages pin.now.columns column) }
    ensures told { (pages : SeriesPages) → AreColumnsTold F.Right.file pages pin.now.columns
        → IfOk result (IsToldColumn F.Right.file pages pin.now.columns column) }
    ensures of_store { IfOk result (IsStreamOfStore F.Right.file (F.Port.store port.new)) }
    ensures held { IfOk result (λ stream. stream_held stream ≡ 0) }
    ensures works { IfOk result (λ stream. stream.fault ≡ None) }
    ensures reason { (pages : SeriesPages) → AreColumnsTrue F.Right.file pages pin.now.columns
        → HasReason (AreColumnsTold F.Right.file pages pin.now.columns)
        (F.Port.faults port.old) (F.Port.faults port.new) result }
    ensures later { F.Port.faults port.old ≤ F.Port.faults port.new }
    ensures same_store { F.Port.store port.new ≡ F.Port.store port.old }
{
    open_one(alloc, pin, &pin.columns.items()[column], port)
}
