//! What is written: a series, and two rows of it. Each change is in the log before it takes effect. Depends on
//! tsdb_querying.
ghost use Rattle.std.specs.Prelude.{◌≡◌, ◌≤◌, IfOk};
ghost use Rattle.tsdb_model.specs.Commands.{IsRow, IsSchema};
ghost use Rattle.tsdb_path.specs.Nodes.{node_count};
ghost use Rattle.tsdb_querying.specs.Flushing.{IsReady};

use crate::fault::Fault;
use std::alloc::Global;
use tsdb_base::{Answer, DataType, Encoding, List};
use tsdb_model::{Cell, Literal, Row, Schema};
use tsdb_outside::{Files, Journal};
use tsdb_path::Path;
use tsdb_querying::{Core, create, insert};

/// Passes on what was done, and nothing else.
fn done(answer: Answer) -> Result<(), Fault> {
    match answer {
        Answer::Done => Ok(()),
        _ => Err(Fault::Refused),
    }
}

/// A series of INT64.
fn schema(series: &Path) -> Result<Schema, Fault>
    requires { 3 ≤ node_count series.now }
    ensures { IfOk result IsSchema }
{
    Ok(Schema {
        path: series.copy()?,
        data_type: DataType::Int64,
        encoding: Encoding::Ts2diff,
    })
}

/// A row with one value.
fn row(alloc: Global, series: &Path, time: i64, value: i64) -> Result<Row, Fault>
    requires { 2 ≤ node_count series.now }
    ensures { IfOk result IsRow }
{
    let cell = Cell {
        measurement: series.measurement_name()?,
        value: Literal::Int(value),
    };
    let cells = vec![in alloc; cell]?;
    Ok(Row {
        time,
        cells: List::of(cells),
    })
}

/// Writes a row of the device.
fn put<J: Journal, F: Files>(
    alloc: Global,
    core: &mut Core<J, F>,
    port: &mut F::Port,
    device: &Path,
    row: &Row,
) -> Result<(), Fault>
    requires row { IsRow row.now }
    requires ready { IsReady (F.Port.store port.old) core.old }
    ensures ready { IsReady (F.Port.store port.old) core.new }
    ensures same_store { F.Port.store port.new ≡ F.Port.store port.old }
{
    done(insert(alloc, core, port, device, row))
}

/// Makes the series, and writes a value at two times.
pub fn write<J: Journal, F: Files>(
    alloc: Global,
    core: &mut Core<J, F>,
    port: &mut F::Port,
    series: &Path,
) -> Result<(), Fault>
    requires nodes { 3 ≤ node_count series.now }
    requires ready { IsReady (F.Port.store port.old) core.old }
    ensures ready { IsReady (F.Port.store port.old) core.new }
    ensures same_store { F.Port.store port.new ≡ F.Port.store port.old }
{
    let device = series.device()?;
    let (first, second) = (row(alloc, series, 60, 42)?, row(alloc, series, 120, 40)?);
    done(create(core, &schema(series)?))?;
    put(alloc, core, port, &device, &first)?;
    put(alloc, core, port, &device, &second)
}
