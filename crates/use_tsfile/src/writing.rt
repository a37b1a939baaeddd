//! Building the file: a series is begun, and gets its points in order of time. Depends on tsfile_writer.
ghost use Rattle.std.specs.Prelude.{◌≡◌, ◌<◌, ◌≤◌, ◌↔◌, All, IsTrue, OnOk, length};
ghost use Rattle.tsdb_base.specs.Points.{IsRising};
ghost use Rattle.tsdb_base.specs.Values.{type_of};
ghost use Rattle.tsdb_path.specs.Nodes.{node_count};
ghost use Rattle.tsfile_writer.specs.Driving.{HasLast, IsBare};

use crate::fault::Fault;
use std::alloc::Global;
use tsdb_base::{DataType, Encoding, Point, is_rising};
use tsdb_path::Path;
use tsfile_writer::Builder;

/// Whether these are points of INT64, in order of time.
fn are_numbers(points: &[Point]) -> bool
    ensures { IsTrue result ↔ (0 < length points.now) × All (λ point. type_of point.value ≡ DataType.Int64) points.now
        × IsRising points.now }
{
    !points.is_empty()
        && points
            .iter()
            .all(|point| point.value.data_type() == DataType::Int64)
        && is_rising(points)
}

/// Gives the points to the last series, which has none so far.
fn fill(builder: &mut Builder, path: &Path, points: Vec<Point>) -> Result<(), Fault>
    requires { IsBare path.now DataType.Int64 Encoding.Ts2diff builder.old }
    ensures { OnOk result (HasLast path.now builder.new) }
{
    if !are_numbers(&points) {
        return Err(Fault::Points);
    }
    for point in points {
        builder.point(point)?;
    }
    Ok(())
}

/// The bytes of the file with these points of one series.
pub fn build(alloc: Global, path: &Path, points: Vec<Point>) -> Result<Vec<u8>, Fault>
    requires { 2 ≤ node_count path.now }
{
    let mut builder = Builder::new(alloc);
    builder.series(path, DataType::Int64, Encoding::Ts2diff)?;
    fill(&mut builder, path, points)?;
    Ok(builder.finish()?)
}
