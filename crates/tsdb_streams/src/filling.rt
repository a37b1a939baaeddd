//! Taking points of a source, as far as they are kept. Depends on `file`, `survival` and `lane`.
ghost use Rattle.std.specs.Prelude.{◌≡◌, ◌+◌, ◌≤◌, ◌<◌, [], ◌++◌, IfErr, IfOk, OnOk, Some, length};
ghost use Rattle.tsdb_outside.specs.declared.faults.StoreFault.TheVariants as fault;
ghost use Rattle.tsdb_merge.specs.Supplies.{IsFilled, Moves};
ghost use Rattle.tsdb_streams.specs.Files.{FilePages, HasReason, IsTold};
ghost use Rattle.tsdb_streams.specs.Lanes.{ArePagesOf, Gives, IsLaneOfStore, IsSameFile, IsToldLane, IsTrueLane};
ghost use Rattle.tsdb_base.specs.declared.point.Range.{Range as RangeModel};
ghost use Rattle.tsdb_streams.specs.Lanes.{is_due, is_passed, keep_of, lane_due, lane_points_left, lane_points_most};
ghost use Rattle.tsdb_streams.specs.Lanes.{pages_left, part_left};

use crate::file::load_page;
use crate::lane::{Lane, PageLane, PartLane};
use crate::survival::{Kept, times_of};
use std::alloc::Global;
use tsdb_aggregate::overlap;
use tsdb_base::{Memory, Point, Range};
use tsdb_index::PageEntry;
use tsdb_outside::{Port, StoreFault};

/// The most points that are taken at once.
const MOST_TAKEN: usize = 1000;

/// Whether the page with this number is passed over, where the flags are those of the first pages.
pub(crate) fn is_passed(flags: &[bool], number: usize) -> bool
    ensures { result ≡ is_passed flags.now number }
{
    match flags.get(number) {
        Some(passed) => *passed,
        None => false,
    }
}

/// Whether a page is read: it is not passed over, and its times meet the range.
pub(crate) fn is_due(range: &Range, passed: &[bool], number: usize, page: &PageEntry) -> bool
    ensures { result ≡ is_due range.now (is_passed passed.now number) page.now }
{
    !is_passed(passed, number) && overlap(range, &times_of(&page.stats))
}

/// Takes the points of the next page that are kept. The page is read only where it is due.
fn take_page<P: Port>(
    alloc: Global,
    kept: &Kept<'_>,
    lane: &mut PageLane<'_, P::Right>,
    into: &mut Vec<Point>,
    port: &mut P,
) -> Result<(), StoreFault>
    requires page { lane.old.next < length lane.old.entry.pages }
    requires empty { into.old.items ≡ [] }
    requires store { (P.Right.file lane.old.right.now).store ≡ P.store port.old }
    ensures gives { (pages : FilePages) → ArePagesOf P.Right.file pages lane.old
        → OnOk result (Gives (pages_left P.Right.file pages (keep_of kept.now) lane.old) into.new.items
        (pages_left P.Right.file pages (keep_of kept.now) lane.new)) }
    ensures few { OnOk result (length into.new.items ≤ 1000) }
    ensures next { lane.new.next ≡ lane.old.next + 1 }
    ensures same_file { IsSameFile lane.old lane.new }
    ensures reason { (pages : FilePages) → ArePagesOf P.Right.file pages lane.old
        → HasReason (IsTold pages (P.Right.file lane.old.right.now)) (P.faults port.old) (P.faults port.new) result }
    ensures later { P.faults port.old ≤ P.faults port.new }
    ensures same_store { P.store port.new ≡ P.store port.old }
{
    let page = lane.next;
    let due = is_due(
        &kept.range,
        &lane.passed,
        page,
        &lane.entry.pages.items()[page],
    );
    lane.next += 1;
    if !due {
        return Ok(());
    }
    let mut points = load_page(alloc, port, lane, page)?;
    kept.retain(lane.born, &mut points);
    *into = points;
    Ok(())
}

/// Takes the points of the next page that has one which is kept.
fn fill_pages<P: Port>(
    alloc: Global,
    kept: &Kept<'_>,
    lane: &mut PageLane<'_, P::Right>,
    into: &mut Vec<Point>,
    port: &mut P,
) -> Result<bool, StoreFault>
    requires empty { into.old.items ≡ [] }
    requires store { (P.Right.file lane.old.right.now).store ≡ P.store port.old }
    ensures moved { (pages : FilePages) → ArePagesOf P.Right.file pages lane.old
        → IfOk result (λ more. Moves (pages_left P.Right.file pages (keep_of kept.now) lane.old) more
        into.new.items (pages_left P.Right.file pages (keep_of kept.now) lane.new)) }
    ensures filled { IfOk result (λ more. IsFilled more into.new.items) }
    ensures most { IfOk result (λ _. length into.new.items + lane_points_most (Lane.Pages lane.new)
        ≤ lane_points_most (Lane.Pages lane.old)) }
    ensures same_file { IsSameFile lane.old lane.new }
    ensures reason { (pages : FilePages) → ArePagesOf P.Right.file pages lane.old
        → HasReason (IsTold pages (P.Right.file lane.old.right.now)) (P.faults port.old) (P.faults port.new) result }
    ensures later { P.faults port.old ≤ P.faults port.new }
    ensures same_store { P.store port.new ≡ P.store port.old }
{
    while lane.next < lane.entry.pages.items().len() {
        take_page(alloc, kept, lane, into, port)?;
        if !into.is_empty() {
            return Ok(true);
        }
    }
    Ok(false)
}

/// Takes those of the next points of a part that are kept. It looks at 1,000 points at most.
fn take_part(kept: &Kept<'_>, lane: &mut PartLane<'_>, into: &mut Vec<Point>) -> Result<(), Memory>
    requires empty { into.old.items ≡ [] }
    ensures gives { OnOk result (part_left (keep_of kept.now) lane.old
        ≡ into.new.items ++ part_left (keep_of kept.now) lane.new) }
    ensures few { OnOk result (length into.new.items ≤ 1000) }
    ensures most { OnOk result (length into.new.items + length lane.new.rest.now ≤ length lane.old.rest.now) }
    ensures less { 0 < length lane.old.rest.now → length lane.new.rest.now < length lane.old.rest.now }
{
    let (next, behind) = lane.rest.split_at(lane.rest.len().min(MOST_TAKEN));
    lane.rest = behind;
    kept.copy(lane.born, next, into)
}

/// Takes the next points of a part that are kept.
fn fill_part(
    kept: &Kept<'_>,
    lane: &mut PartLane<'_>,
    into: &mut Vec<Point>,
) -> Result<bool, StoreFault>
    requires empty { into.old.items ≡ [] }
    ensures moved { IfOk result (λ more. Moves (Some (part_left (keep_of kept.now) lane.old)) more
        into.new.items (Some (part_left (keep_of kept.now) lane.new))) }
    ensures filled { IfOk result (λ more. IsFilled more into.new.items) }
    ensures most { IfOk result (λ _. length into.new.items + length lane.new.rest.now ≤ length lane.old.rest.now) }
    ensures memory { IfErr result (λ cause. cause ≡ fault.Memory) }
{
    while !lane.rest.is_empty() {
        take_part(kept, lane, into)?;
        if !into.is_empty() {
            return Ok(true);
        }
    }
    Ok(false)
}

/// Takes the next points of a source that are kept.
pub(crate) fn fill_lane<P: Port>(
    alloc: Global,
    kept: &Kept<'_>,
    lane: &mut Lane<'_, P::Right>,
    into: &mut Vec<Point>,
    port: &mut P,
) -> Result<bool, StoreFault>
    requires empty { into.old.items ≡ [] }
    requires store { IsLaneOfStore P.Right.file (P.store port.old) lane.old }
    ensures moved { (pages : FilePages) → IsTrueLane P.Right.file pages lane.old
        → IfOk result (λ more. Moves (lane_points_left P.Right.file pages (keep_of kept.now) lane.old) more
        into.new.items (lane_points_left P.Right.file pages (keep_of kept.now) lane.new)) }
    ensures filled { IfOk result (λ more. IsFilled more into.new.items) }
    ensures most { IfOk result (λ _. length into.new.items + lane_points_most lane.new ≤ lane_points_most lane.old) }
    ensures store { IsLaneOfStore P.Right.file (P.store port.old) lane.new }
    ensures truth { (pages : FilePages) → IsTrueLane P.Right.file pages lane.old
        → IsTrueLane P.Right.file pages lane.new }
    ensures told { (pages : FilePages) → IsToldLane P.Right.file pages lane.old
        → IsToldLane P.Right.file pages lane.new }
    ensures due { (range : RangeModel) → lane_due range lane.new ≡ lane_due range lane.old }
    ensures reason { (pages : FilePages) → IsTrueLane P.Right.file pages lane.old
        → HasReason (IsToldLane P.Right.file pages lane.old) (P.faults port.old) (P.faults port.new) result }
    ensures later { P.faults port.old ≤ P.faults port.new }
    ensures same_store { P.store port.new ≡ P.store port.old }
{
    match lane {
        Lane::Pages(pages) => fill_pages(alloc, kept, pages, into, port),
        Lane::Part(part) => fill_part(kept, part, into),
    }
}
