//! The pieces of a group as sources of a merge, each loaded when the merge comes to it. It depends on `entry` and
//! `loader`, and on `tsdb_merge`.
ghost use Rattle.std.specs.Prelude.{◌≡◌, ◌+◌, ◌<◌, ◌≤◌, ◌∷◌, [], ⊤, All, IfOk, IsTrue, Ok, length, refl, sum_by, true};
ghost use Rattle.std.specs.Vec.Iter.{into_iter_items};
ghost use Rattle.tsdb_merge.specs.Supplies.{IsFilled, KeepsOthers, Moves, left_at};
ghost use Rattle.tsdb_aggregate.specs.Lanes.{HasPiecePlaces, IsFrontTaken, SpendsDown, lane_cost, lane_left, lane_most};
ghost use Rattle.tsdb_aggregate.specs.Lanes.{lefts};
ghost use Rattle.tsdb_aggregate.specs.SpendLaws.{down_none, down_then, named_then};

use crate::loader::Loader;
use std::alloc::Global;
use std::sync::ledger::Ledger;
use std::vec::IntoIter;
use tsdb_base::{Memory, Point, Steps};
use tsdb_merge::{PullFault, Supply};

/// The most points that are moved at once.
const MOST_MOVED: usize = 1000;

/// Pieces of one source, of which each ends before the next one begins. The points of one piece at most are held.
#[derive(Drop)]
pub struct Lane {
    /// The places of the pieces that are not loaded yet, in order of time.
    pub waiting: IntoIter<usize>,
    /// The points that are left of the piece that was loaded last.
    pub rest: IntoIter<Point>,
}

/// Moves points from the front of a list, at most 1,000. It answers whether there were any.
fn move_some(rest: &mut IntoIter<Point>, into: &mut Vec<Point>) -> Result<bool, Memory>
    requires empty { into.old.items ≡ [] }
    ensures moved { IfOk result (λ more.
        IsFrontTaken (into_iter_items rest.old) more into.new.items (into_iter_items rest.new)) }
{
    while into.len() < MOST_MOVED {
        let Some(point) = rest.next() else {
            return Ok(!into.is_empty());
        };
        into.push(point)?;
    }
    Ok(true)
}

/// Whether these points can be moved at once.
fn is_filled(points: &[Point]) -> bool
    ensures { IsTrue result → IsFilled true points.now }
{
    !points.is_empty() && points.len() <= MOST_MOVED
}

/// Moves the next points of a lane. Its pieces are loaded one behind the other until one has a point. A piece of at
/// most 1,000 points is handed on as it is.
fn fill_lane<D: Loader, L: Ledger>(
    alloc: Global,
    lane: &mut Lane,
    into: &mut Vec<Point>,
    loader: &mut D,
    pages: &mut Steps<L>,
) -> Result<bool, PullFault>
    requires places { HasPiecePlaces (length (D.state loader.old).held) lane.old }
    requires empty { into.old.items ≡ [] }
    ensures moved { IfOk result (λ more. Moves (lane_left (D.state loader.old).held lane.old) more into.new.items
        (lane_left (D.state loader.old).held lane.new)) }
    ensures filled { IfOk result (λ more. IsFilled more into.new.items) }
    ensures most { IfOk result (λ _. length into.new.items + lane_most lane.new ≤ lane_most lane.old) }
    ensures places { HasPiecePlaces (length (D.state loader.old).held) lane.new }
    ensures spends { SpendsDown (lane_cost (D.state loader.old).held lane.old)
        (lane_cost (D.state loader.old).held lane.new) (D.state loader.old) (D.state loader.new) pages.old pages.new result }
{
    loop {
        if move_some(&mut lane.rest, into)? {
            return Ok(true);
        }
        let Some(place) = lane.waiting.next() else {
            return Ok(false);
        };
        let points = loader.load(alloc, place, pages)?;
        if is_filled(&points) {
            *into = points;
            return Ok(true);
        }
        lane.rest = points.into_iter();
    }
}

/// Moves the next points of the lane at a place.
fn fill_one<D: Loader, L: Ledger>(
    alloc: Global,
    list: &mut Vec<Lane>,
    source: usize,
    into: &mut Vec<Point>,
    loader: &mut D,
    pages: &mut Steps<L>,
) -> Result<bool, PullFault>
    requires source { source < length list.old.items }
    requires places { All (HasPiecePlaces (length (D.state loader.old).held)) list.old.items }
    requires empty { into.old.items ≡ [] }
    ensures moved { IfOk result (λ more. Moves (left_at (lefts (D.state loader.old).held list.old.items) source)
        more into.new.items (left_at (lefts (D.state loader.old).held list.new.items) source)) }
    ensures filled { IfOk result (λ more. IsFilled more into.new.items) }
    ensures most { IfOk result (λ _.
        length into.new.items + sum_by lane_most list.new.items ≤ sum_by lane_most list.old.items) }
    ensures others { KeepsOthers source (lefts (D.state loader.old).held list.old.items)
        (lefts (D.state loader.old).held list.new.items) }
    ensures places { All (HasPiecePlaces (length (D.state loader.old).held)) list.new.items }
    ensures spends { SpendsDown (sum_by (lane_cost (D.state loader.old).held) list.old.items)
        (sum_by (lane_cost (D.state loader.old).held) list.new.items)
        (D.state loader.old) (D.state loader.new) pages.old pages.new result }
{
    fill_lane(alloc, &mut list[source], into, loader, pages)
}

/// The lanes of a group, as a supply. It holds at most one piece of each.
pub struct Lanes<'a, 'b, 'c, D: Loader, L: Ledger> {
    pub list: &'a mut Vec<Lane>,
    pub loader: &'b mut D,
    pub pages: &'c mut Steps<L>,
    pub alloc: Global,
    ghost places: { All (HasPiecePlaces (length (D.state loader.now).held)) list.now.items },
}

impl<D: Loader, L: Ledger> Drop for Lanes<'_, '_, '_, D, L> {
    fn drop(self)
        ensures loader { self.exit.1.0.now ≡ self.entry.loader.now }
        ensures pages { self.exit.1.1.0.now ≡ self.entry.pages.now }
    {
        let Lanes {
            list: _,
            loader: _,
            pages: _,
            alloc: _,
        } = self;
    }
}

impl<D: Loader, L: Ledger> Supply for Lanes<'_, '_, '_, D, L> {
    ghost left = { λ lanes. lefts (D.state lanes.loader.now).held lanes.list.now.items };

    ghost most = { λ lanes. sum_by lane_most lanes.list.now.items };

    ghost keeps = { λ before now. (now.list.ghost_name ≡ before.list.ghost_name)
        × (now.loader.ghost_name ≡ before.loader.ghost_name)
        × (now.pages.ghost_name ≡ before.pages.ghost_name)
        × SpendsDown {T = ⊤} (sum_by (lane_cost (D.state before.loader.now).held) before.list.now.items)
        (sum_by (lane_cost (D.state now.loader.now).held) now.list.now.items)
        (D.state before.loader.now) (D.state now.loader.now) before.pages.now now.pages.now (Ok tt) };

    ghost failures = { λ lanes. (D.state lanes.loader.now).failures ∷ [] };

    ghost damages = { λ lanes. (D.state lanes.loader.now).damages ∷ [] };

    fn fill(&mut self, source: usize, into: &mut Vec<Point>) -> Result<bool, PullFault> {
        fill_one(self.alloc, self.list, source, into, self.loader, self.pages)
    }

    ghost keeps_none = { λ lanes. (refl, refl, refl, down_none _ _ _) };

    ghost keeps_then = { λ a b c one two. (
      named_then _ _ _ one.0 two.0,
      named_then _ _ _ one.1 two.1,
      named_then _ _ _ one.2 two.2,
      down_then _ _ _ _ _ _ _ _ _ _ one.3 two.3,
    ) };
}
