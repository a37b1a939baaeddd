//! Whether points stand in order of time. Depends on `point`.
ghost use Rattle.std.specs.Prelude.{IsTrue, ◌↔◌};
ghost use Rattle.tsdb_base.specs.Points.{IsRising};

use crate::Point;

/// Whether times rise from point to point.
pub fn is_rising(points: &[Point]) -> bool
    ensures { IsTrue result ↔ IsRising points.now }
{
    for i in 1..points.len() {
        if points[i].time <= points[i - 1].time {
            return false;
        }
    }
    true
}
