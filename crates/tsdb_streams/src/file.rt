//! Reading a page of a file, with damage as a fault of the port. Depends on tsfile_reader and tsdb_outside.
ghost use Rattle.std.specs.Prelude.{◌≡◌, ◌≤◌, ◌<◌, IfOk, IfSome, Some, length, slice_get};
ghost use Rattle.tsdb_streams.specs.Files.{FilePages, HasReason, IsCountedFault, IsTold};
ghost use Rattle.tsdb_streams.specs.Lanes.{ArePagesOf};

use crate::lane::PageLane;
use std::alloc::Global;
use tsdb_base::Point;
use tsdb_outside::{Port, StoreFault};
use tsfile_reader::{ReadFault, read_points};

/// The fault of a call that could not read a file. Damage is counted by the port.
pub(crate) fn fault_of<P: Port>(port: &mut P, right: &P::Right, fault: ReadFault) -> StoreFault
    ensures counted { IsCountedFault (P.Right.file right.now).bytes (P.faults port.old)
        (P.faults port.new) fault result }
    ensures same_store { P.store port.new ≡ P.store port.old }
    ensures later { P.faults port.old ≤ P.faults port.new }
{
    match fault {
        ReadFault::Failed => StoreFault::Failed,
        ReadFault::Damaged { at } => {
            port.spoiled(right, at);
            StoreFault::Failed
        }
        ReadFault::Memory => StoreFault::Memory,
    }
}

/// Reads the points of a page.
pub(crate) fn load_page<P: Port>(
    alloc: Global,
    port: &mut P,
    lane: &PageLane<'_, P::Right>,
    page: usize,
) -> Result<Vec<Point>, StoreFault>
    requires page { page < length lane.now.entry.pages }
    requires store { (P.Right.file lane.now.right.now).store ≡ P.store port.old }
    ensures points { (pages : FilePages) → ArePagesOf P.Right.file pages lane.now
        → IfOk result (λ points. IfSome (pages (P.Right.file lane.now.right.now).number)
        (λ list. slice_get list page ≡ Some points.items)) }
    ensures few { IfOk result (λ points. length points.items ≤ 1000) }
    ensures reason { (pages : FilePages) → ArePagesOf P.Right.file pages lane.now
        → HasReason (IsTold pages (P.Right.file lane.now.right.now)) (P.faults port.old) (P.faults port.new) result }
    ensures later { P.faults port.old ≤ P.faults port.new }
    ensures same_store { P.store port.new ≡ P.store port.old }
{
    match read_points(alloc, port, lane.right, &lane.entry, page) {
        Ok(points) => Ok(points),
        Err(fault) => Err(fault_of(port, lane.right, fault)),
    }
}
