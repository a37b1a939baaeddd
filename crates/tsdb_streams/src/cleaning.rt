//! The pages of a column that are clean for an aggregate. Depends on `survival`, `lane`, `ordering` and tsdb_aggregate.
ghost use Rattle.std.specs.List.{list_any};
ghost use Rattle.std.specs.List.Sorted.{IsPermutation};
ghost use Rattle.std.specs.Prelude.{◌≡◌, ◌<◌, ◌≤ℤ◌, ◌++◌, AllPairs, IfOk, OnOk, flat_map, length, map};
ghost use Rattle.tsdb_streams.specs.Clean.{any_meets, hull_of, is_apart as apart, others};
ghost use Rattle.tsdb_streams.specs.Cleaning.{AreCleaned, IsFlagged, all_set, flags_of, is_clean_page, lane_hulls};
ghost use Rattle.tsdb_streams.specs.Cleaning.{lane_passed, picked, whole_of};

use crate::filling::is_passed;
use crate::lane::Lane;
use crate::ordering::page_meets;
use crate::survival::{Kept, contains, times_of};
use std::alloc::Global;
use tsdb_aggregate::{has_asked, overlap};
use tsdb_base::{Aggregate, Memory, Point, Range, Stamp, Stats};
use tsdb_index::PageEntry;

/// Whether the times from the first of these points to the last one meet the times.
fn points_meet(points: &[Point], times: &Range) -> bool
    ensures { result ≡ any_meets times.now (hull_of points.now) }
{
    if points.is_empty() {
        return false;
    }
    let hull = Range {
        from: points[0].time,
        to: points[points.len() - 1].time,
    };
    overlap(&hull, times)
}

/// Whether a page of the source, or the part, meets the times.
fn lane_meets<R>(lane: &Lane<'_, R>, times: &Range) -> bool
    ensures { result ≡ any_meets times.now (lane_hulls lane.now) }
{
    match lane {
        Lane::Pages(pages) => page_meets(pages.entry.pages.items(), pages.in_order, times),
        Lane::Part(part) => points_meet(part.rest, times),
    }
}

/// Whether one of these sources meets the times.
fn source_meets<R>(lanes: &[Lane<'_, R>], times: &Range) -> bool
    ensures { result ≡ list_any (any_meets times.now) (map lane_hulls lanes.now) }
{
    for lane in lanes {
        if lane_meets(lane, times) {
            return true;
        }
    }
    false
}

/// Whether the times lie in the range, and neither a mark nor a source beside the one at a place meets them.
fn is_apart<R>(
    kept: &Kept<'_>,
    lanes: &[Lane<'_, R>],
    place: usize,
    born: Stamp,
    times: &Range,
) -> bool
    requires { place < length lanes.now }
    ensures { result ≡ apart kept.now.series.now kept.now.range kept.now.marks.now.marks
        (others place (map lane_hulls lanes.now)) born.0 times.now }
{
    let (before, rest) = lanes.split_at(place);
    let (_, behind) = rest.split_at(1);
    if !contains(&kept.range, times.from)
        || !contains(&kept.range, times.to)
        || kept.marks.meets(kept.series, times, born)
        || source_meets(before, times)
    {
        return false;
    }
    !source_meets(behind, times)
}

/// Whether a page of the source at a place is clean for the aggregate.
fn is_clean<R>(
    name: Aggregate,
    kept: &Kept<'_>,
    lanes: &[Lane<'_, R>],
    place: usize,
    born: Stamp,
    page: &PageEntry,
) -> bool
    requires { place < length lanes.now }
    ensures { result ≡ is_clean_page name kept.now (others place (map lane_hulls lanes.now)) born.0 page.now }
{
    if !has_asked(name, &page.stats) {
        return false;
    }
    is_apart(kept, lanes, place, born, &times_of(&page.stats))
}

/// Which pages of a source, which stands at this place, are clean for the aggregate.
fn clean_pages<R>(
    alloc: Global,
    name: Aggregate,
    kept: &Kept<'_>,
    lanes: &[Lane<'_, R>],
    place: usize,
    lane: &Lane<'_, R>,
) -> Result<Vec<bool>, Memory>
    requires { place < length lanes.now }
    ensures { IfOk result (λ flags. flags.items
        ≡ flags_of name kept.now (others place (map lane_hulls lanes.now)) lane.now) }
{
    let mut flags = Vec::new(alloc);
    let Lane::Pages(pages) = lane else {
        return Ok(flags);
    };
    for page in pages.entry.pages.items() {
        flags.push(is_clean(name, kept, lanes, place, pages.born, page))?;
    }
    Ok(flags)
}

/// Whether a page or part of a source meets the times, of those beside the one at a place.
fn others_meet<R>(lanes: &[Lane<'_, R>], place: usize, times: &Range) -> bool
    requires { place < length lanes.now }
    ensures { result ≡ list_any (any_meets times.now) (others place (map lane_hulls lanes.now)) }
{
    let (before, rest) = lanes.split_at(place);
    let (_, behind) = rest.split_at(1);
    if source_meets(before, times) {
        return true;
    }
    source_meets(behind, times)
}

/// Whether all of these are set.
fn are_set(flags: &[bool]) -> bool
    ensures { result ≡ all_set flags.now }
{
    for place in 0..flags.len() {
        if !is_passed(flags, place) {
            return false;
        }
    }
    true
}

/// Whether the pages of a source with these flags, which stands at this place, are passed over as one piece.
fn is_whole<R>(
    name: Aggregate,
    lanes: &[Lane<'_, R>],
    place: usize,
    lane: &Lane<'_, R>,
    flags: &[bool],
) -> bool
    requires { place < length lanes.now }
    ensures { result ≡ whole_of name (others place (map lane_hulls lanes.now)) flags.now lane.now }
{
    let Lane::Pages(pages) = lane else {
        return false;
    };
    if !are_set(flags) {
        return false;
    }
    if !has_asked(name, &pages.entry.stats) {
        return false;
    }
    !others_meet(lanes, place, &times_of(&pages.entry.stats))
}

/// Which pages of a source, which stands at this place, are clean for the aggregate, and whether they are passed over as
/// one piece.
fn clean_lane<R>(
    alloc: Global,
    name: Aggregate,
    kept: &Kept<'_>,
    lanes: &[Lane<'_, R>],
    place: usize,
    lane: &Lane<'_, R>,
) -> Result<(Vec<bool>, bool), Memory>
    requires { place < length lanes.now }
    ensures flags { IfOk result (λ clean. clean.0.items
        ≡ flags_of name kept.now (others place (map lane_hulls lanes.now)) lane.now) }
    ensures whole { IfOk result (λ clean. clean.1
        ≡ whole_of name (others place (map lane_hulls lanes.now)) clean.0.items lane.now) }
{
    let flags = clean_pages(alloc, name, kept, lanes, place, lane)?;
    let whole = is_whole(name, lanes, place, lane, &flags);
    Ok((flags, whole))
}

/// Lets a source pass over these pages, as one piece or one by one.
fn pass<R>(lane: &mut Lane<'_, R>, flags: Vec<bool>, whole: bool)
    ensures { IsFlagged flags.items whole lane.old lane.new }
{
    if let Lane::Pages(pages) = lane {
        pages.passed = flags;
        pages.whole = whole;
    }
}

/// Lets all sources pass over the pages that are clean for the aggregate.
pub(crate) fn pass_clean<R>(
    alloc: Global,
    name: Aggregate,
    kept: &Kept<'_>,
    lanes: &mut Vec<Lane<'_, R>>,
) -> Result<(), Memory>
    ensures { OnOk result (AreCleaned name kept.now lanes.old.items lanes.new.items) }
{
    for place in 0..lanes.len() {
        let (flags, whole) = clean_lane(alloc, name, kept, lanes, place, &lanes[place])?;
        pass(&mut lanes[place], flags, whole);
    }
    Ok(())
}

/// Adds the statistics of the pages that are passed over.
fn add_passed(flags: &[bool], pages: &[PageEntry], into: &mut Vec<Stats>) -> Result<(), Memory>
    ensures { OnOk result (into.new.items ≡ into.old.items ++ picked flags.now pages.now) }
{
    for place in 0..pages.len() {
        if is_passed(flags, place) {
            into.push(pages[place].stats.copy()?)?;
        }
    }
    Ok(())
}

/// Adds the statistics of the pages that a source passes over, or of their chunk.
fn add_lane<R>(lane: &Lane<'_, R>, into: &mut Vec<Stats>) -> Result<(), Memory>
    ensures { OnOk result (into.new.items ≡ into.old.items ++ lane_passed lane.now) }
{
    let Lane::Pages(pages) = lane else {
        return Ok(());
    };
    if pages.whole {
        into.push(pages.entry.stats.copy()?)?;
        return Ok(());
    }
    add_passed(&pages.passed, pages.entry.pages.items(), into)
}

/// The statistics of the pages that sources pass over, in order of time.
pub(crate) fn passed_stats<R>(alloc: Global, lanes: &[Lane<'_, R>]) -> Result<Vec<Stats>, Memory>
    ensures all { IfOk result (λ list. IsPermutation (flat_map lane_passed lanes.now) list.items) }
    ensures order { IfOk result (λ list. AllPairs (λ a b. a.start ≤ℤ b.start) list.items) }
{
    let mut list = Vec::new(alloc);
    for lane in lanes {
        add_lane(lane, &mut list)?;
    }
    list.sort_by_key(|stats| stats.start)?;
    Ok(list)
}
