//! The sources of a stream side by side. Depends on `filling`.
ghost use Rattle.std.specs.Prelude.{◌≡◌, ◌+◌, ◌<◌, ◌≤◌, [], IfOk, length};
ghost use Rattle.tsdb_merge.specs.Supplies.{IsFilled, KeepsOthers, Moves, left_at};
ghost use Rattle.tsdb_streams.specs.Files.{FilePages};
ghost use Rattle.tsdb_streams.specs.Walking.{AreLanesOfStore, AreTrueLanes, LeavesLanes, lanes_left, lanes_most};

use crate::filling::fill_lane;
use crate::lane::Lane;
use crate::survival::Kept;
use std::alloc::Global;
use tsdb_base::Point;
use tsdb_outside::{Port, StoreFault};

/// Takes the next points of the source at a place.
pub(crate) fn fill_one<P: Port>(
    alloc: Global,
    kept: &Kept<'_>,
    list: &mut Vec<Lane<'_, P::Right>>,
    source: usize,
    into: &mut Vec<Point>,
    port: &mut P,
) -> Result<bool, StoreFault>
    requires source { source < length list.old.items }
    requires empty { into.old.items ≡ [] }
    requires of { AreLanesOfStore P.Right.file (P.store port.old) list.old.items }
    ensures moved { (pages : FilePages) → AreTrueLanes P.Right.file pages list.old.items
        → IfOk result (λ more.
        Moves (left_at (lanes_left P.Right.file pages kept.now list.old.items) source) more into.new.items
        (left_at (lanes_left P.Right.file pages kept.now list.new.items) source)) }
    ensures filled { IfOk result (λ more. IsFilled more into.new.items) }
    ensures most { IfOk result (λ _.
        length into.new.items + lanes_most list.new.items ≤ lanes_most list.old.items) }
    ensures others { (pages : FilePages)
        → KeepsOthers source (lanes_left P.Right.file pages kept.now list.old.items)
        (lanes_left P.Right.file pages kept.now list.new.items) }
    ensures sources { length list.new.items ≡ length list.old.items }
    ensures leaves { LeavesLanes P.Right.file (P.store port.old) (P.store port.new)
        (P.faults port.old) (P.faults port.new) list.old.items list.new.items result }
{
    fill_lane(alloc, kept, &mut list[source], into, port)
}
