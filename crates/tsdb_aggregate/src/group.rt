//! The winners of pieces whose hulls meet. It depends on `entry`, `lanes` and `tally`, and on `tsdb_merge`.
ghost use Rattle.std.specs.Prelude.{◌≡◌, ◌<◌, ◌≤◌, ◌<ℤ◌, List, All, AllPairs, IfOk, IsTrue, OnOk, None, Some};
ghost use Rattle.std.specs.Prelude.{length, map, sum_by, take};
ghost use Rattle.std.specs.List.Sorted.{IsPermutation};
ghost use Rattle.tsdb_merge.specs.Causes.{HasSomeCause};
ghost use Rattle.tsdb_merge.specs.Merging.{lazy_left};
ghost use Rattle.tsdb_base.specs.Points.{IsRising};
ghost use Rattle.tsdb_base.specs.declared.point.Point.{Point};
ghost use Rattle.tsdb_aggregate.specs.Lanes.{AreLanesOf, IsLaneOf, IsRowOfPieces, lane_cost, lefts};
ghost use Rattle.tsdb_aggregate.specs.Loads.{Spends};
ghost use Rattle.tsdb_aggregate.specs.Pieces.{ArePiecesApart, HasOrder};
ghost use Rattle.tsdb_aggregate.specs.Steps.{AddsMerge, AddsPoint, AddsWinners, AddsWithin, IsSettledTally, held_parts};

use crate::entry::{PieceEntry, begins_after, later_end};
use crate::lanes::{Lane, Lanes};
use crate::loader::Loader;
use crate::piece::{Piece, contains};
use crate::tally::Tally;
use std::alloc::Global;
use std::sync::ledger::Ledger;
use tsdb_base::{Aggregate, Memory, Point, Range, Steps, Time};
use tsdb_merge::{LazyMerge, PullFault, Supply};

/// The entries in the order of their sources, and of one source in order of time.
fn by_source<'a>(alloc: Global, group: &[PieceEntry<'a>]) -> Result<Vec<PieceEntry<'a>>, Memory>
    ensures all { IfOk result (λ entries. IsPermutation group.now entries.items) }
    ensures order { IfOk result (λ entries.
        AllPairs (λ a b. a.piece.now.source ≤ b.piece.now.source) entries.items) }
{
    let mut entries = group.to_vec(alloc)?;
    entries.sort_by_key(|entry| entry.piece.source)?;
    Ok(entries)
}

/// Whether a piece is of the same source as another, and begins after a time.
fn goes_on(first: &Piece, end: Time, piece: &Piece) -> bool
    ensures { IsTrue result → (piece.now.source ≡ first.now.source) × (end <ℤ piece.now.stats.start) }
{
    piece.source == first.source && begins_after(piece, end)
}

/// How many of the entries, which are in the order of their sources, make up the first lane: pieces of one source, of
/// which each ends before the next one begins.
fn lane_length(entries: &[PieceEntry<'_>]) -> usize
    requires some { 0 < length entries.now }
    ensures some { 0 < result }
    ensures within { result ≤ length entries.now }
    ensures row { IsRowOfPieces (take result entries.now) }
{
    let first = entries[0].piece;
    let mut end = first.stats.end;
    for place in 1..entries.len() {
        let piece = entries[place].piece;
        if !goes_on(first, end, piece) {
            return place;
        }
        end = later_end(end, piece);
    }
    entries.len()
}

/// A lane of which nothing is loaded yet.
fn lane_of(alloc: Global, entries: &[PieceEntry<'_>]) -> Result<Lane, Memory>
    ensures { IfOk result (λ lane. IsLaneOf entries.now lane) }
{
    let mut places = Vec::new(alloc);
    for i in 0..entries.len() {
        places.push(entries[i].place)?;
    }
    Ok(Lane {
        waiting: places.into_iter(),
        rest: Vec::new(alloc).into_iter(),
    })
}

/// The lanes of a group, in the order of their sources.
fn lanes_of(alloc: Global, group: &[PieceEntry<'_>]) -> Result<Vec<Lane>, Memory>
    ensures { IfOk result (λ lanes. AreLanesOf group.now lanes.items) }
{
    let entries = by_source(alloc, group)?;
    let mut lanes = Vec::new(alloc);
    let mut start = 0;
    while start < entries.len() {
        let (_, rest) = entries.split_at(start);
        let (row, _) = rest.split_at(lane_length(rest));
        lanes.push(lane_of(alloc, row)?)?;
        start += row.len();
    }
    Ok(lanes)
}

/// Adds a point to a tally, where it is in the range. It answers whether no later point changes the tally.
fn add_point(
    name: Aggregate,
    range: &Range,
    point: Point,
    tally: &mut Tally<'_>,
) -> Result<bool, Memory>
    ensures added { IfOk result (λ _. AddsPoint range.now name point tally.old tally.new) }
    ensures settled { IfOk result (λ last. IsTrue last → IsSettledTally name tally.new) }
{
    if contains(range, point.time) {
        tally.join(name, Tally::of_point(name, point))?;
    }
    Ok(tally.is_settled(name))
}

/// Adds what a merge has left in the range to a tally. It stops where no later point changes the tally.
fn add_merged<Q: Supply>(
    merge: &mut LazyMerge,
    supply: &mut Q,
    name: Aggregate,
    range: &Range,
    tally: &mut Tally<'_>,
) -> Result<(), PullFault>
    requires fault { merge.old.fault ≡ None }
    requires sources { merge.old.sources ≤ length (Q.left supply.old) }
    ensures added { OnOk result
        (AddsWithin range.now name (lazy_left merge.old (Q.left supply.old)) tally.old tally.new) }
    ensures kept { Q.keeps supply.old supply.new }
    ensures cause { HasSomeCause (Q.failures supply.old) (Q.failures supply.new)
        (Q.damages supply.old) (Q.damages supply.new) result }
{
    if tally.is_settled(name) {
        return Ok(());
    }
    while let Some(point) = merge.pull(supply)? {
        if add_point(name, range, point, tally)? {
            return Ok(());
        }
    }
    Ok(())
}

/// Adds the merge of so many sources of a supply, as far as it is in the range, to a tally.
fn add_supply<Q: Supply>(
    alloc: Global,
    sources: usize,
    supply: &mut Q,
    name: Aggregate,
    range: &Range,
    tally: &mut Tally<'_>,
) -> Result<(), PullFault>
    requires sources { sources ≡ length (Q.left supply.old) }
    ensures added { OnOk result ((lists : List (List Point)) → Q.left supply.old ≡ map Some lists →
        All IsRising lists → AddsMerge range.now name lists tally.old tally.new) }
    ensures kept { Q.keeps supply.old supply.new }
    ensures cause { HasSomeCause (Q.failures supply.old) (Q.failures supply.new)
        (Q.damages supply.old) (Q.damages supply.new) result }
{
    let mut merge = LazyMerge::new(alloc, sources)?;
    add_merged(&mut merge, supply, name, range, tally)
}

/// Adds the merge of lanes, as far as it is in the range, to a tally.
fn add_lanes<D: Loader, L: Ledger>(
    lanes: &mut Lanes<'_, '_, '_, D, L>,
    name: Aggregate,
    range: &Range,
    tally: &mut Tally<'_>,
) -> Result<(), PullFault>
    ensures same_list { lanes.new.list.ghost_name ≡ lanes.old.list.ghost_name }
    ensures same_loader { lanes.new.loader.ghost_name ≡ lanes.old.loader.ghost_name }
    ensures same_pages { lanes.new.pages.ghost_name ≡ lanes.old.pages.ghost_name }
    ensures added { OnOk result ((lists : List (List Point)) →
        lefts (D.state lanes.old.loader.now).held lanes.old.list.now.items ≡ map Some lists →
        All IsRising lists → AddsMerge range.now name lists tally.old tally.new) }
    ensures spends { Spends (sum_by (lane_cost (D.state lanes.old.loader.now).held) lanes.old.list.now.items)
        (D.state lanes.old.loader.now) (D.state lanes.new.loader.now) lanes.old.pages.now lanes.new.pages.now result }
{
    add_supply(lanes.alloc, lanes.list.len(), lanes, name, range, tally)
}

/// Adds the winners of a group in the range to a tally. Each of its pieces is loaded when the merge comes to it, and
/// let go at its end.
pub fn add_group<D: Loader, L: Ledger>(
    alloc: Global,
    group: &[PieceEntry<'_>],
    name: Aggregate,
    range: &Range,
    loader: &mut D,
    pages: &mut Steps<L>,
    tally: &mut Tally<'_>,
) -> Result<(), PullFault>
    requires places { All (λ entry. entry.place < length (D.state loader.old).held) group.now }
    ensures added { OnOk result (All HasOrder (held_parts (D.state loader.old).held group.now) →
        AllPairs ArePiecesApart (held_parts (D.state loader.old).held group.now) →
        AddsWinners (D.state loader.old).held range.now name group.now tally.old tally.new) }
    ensures spends { Spends (sum_by (λ part. part.1.cost) (held_parts (D.state loader.old).held group.now))
        (D.state loader.old) (D.state loader.new) pages.old pages.new result }
{
    let mut list = lanes_of(alloc, group)?;
    let mut lanes = Lanes {
        alloc,
        list: &mut list,
        loader,
        pages,
    };
    add_lanes(&mut lanes, name, range, tally)
}
