//! The hulls of a part in the making. Depends on tsdb_base, tsdb_path and tsdb_plan.
ghost use Rattle.std.specs.Prelude.{◌<◌, List, length, OnOk};
ghost use Rattle.tsdb_base.specs.declared.point.Point.{Point as PointOf};
ghost use Rattle.tsdb_flush.specs.Hulls.{EndsIn, IsWidened};
ghost use Rattle.tsdb_flush.specs.MakingSteps.{AddsTimes, AreFrom};
ghost use Rattle.tsdb_base.specs.Points.{IsRising};
ghost use Rattle.tsdb_path.specs.Nodes.{device_of as device_in};
ghost use Rattle.std.specs.Prelude.{◌≡◌};

use tsdb_base::{Memory, Point, Time};
use tsdb_path::Path;
use tsdb_plan::Hull;

/// Widens the hull over the times from the one to the other.
pub fn widen(hull: &mut Hull, from: Time, to: Time)
    ensures { IsWidened hull.old from to hull.new }
{
    hull.from = hull.from.min(from);
    hull.to = hull.to.max(to);
}

/// Whether the last hull is of the device.
pub fn ends_in(hulls: &[Hull], device: &Path) -> bool
    ensures { EndsIn hulls.now device.now result }
{
    match hulls.last() {
        Some(hull) => hull.device.covers(device),
        None => false,
    }
}

/// Adds the times of a series from its first to its last, which comes behind those before: to the last hull, where that
/// is of its device, or in a hull of its own.
pub(crate) fn add_span(
    hulls: &mut Vec<Hull>,
    device: Path,
    from: Time,
    to: Time,
) -> Result<(), Memory>
    ensures ok { OnOk result ((points : List PointOf) → AreFrom points from to
        → AddsTimes device points hulls.old.items hulls.new.items) }
{
    if ends_in(hulls, &device) {
        let last = hulls.len() - 1;
        widen(&mut hulls[last], from, to);
    } else {
        hulls.push(Hull { device, from, to })?;
    }
    Ok(())
}

/// The same of these points.
pub(crate) fn add_times(hulls: &mut Vec<Hull>, device: Path, points: &[Point]) -> Result<(), Memory>
    requires some { 0 < length points.now }
    requires rising { IsRising points.now }
    ensures ok { OnOk result (AddsTimes device points.now hulls.old.items hulls.new.items) }
{
    add_span(hulls, device, points[0].time, points[points.len() - 1].time)
}
