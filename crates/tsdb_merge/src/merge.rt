//! The merge of any number of sources. It depends on `lazy`.
ghost use Rattle.std.specs.Prelude.{◌≡◌, ◌↔◌, ◌+◌, ◌<◌, ◌≤◌, List, [], ◌∷◌, ◌++◌, All, length, map, sum_by};
ghost use Rattle.std.specs.Prelude.{IfOk, OnOk, IfErr, Some, None, Err};
ghost use Rattle.std.specs.Option.{option_to_list};
ghost use Rattle.tsdb_base.specs.declared.point.Point.{Point};
ghost use Rattle.tsdb_merge.specs.Causes.{HasSomeCause, NoneFell, SomeHasRisen};
ghost use Rattle.tsdb_merge.specs.Steps.{IsPointPut};
ghost use Rattle.tsdb_merge.specs.Supplies.{IsFilled, KeepsOthers, Moves, left_at};
ghost use Rattle.tsdb_merge.specs.Winners.{HasNoneAt, IsMergeOf, IsToldMergeOf, TakesTold};
ghost use Rattle.tsdb_merge.specs.declared.points.PullFault.{PullFault};

use crate::lazy::LazyMerge;
use crate::points::{Points, PullFault};
use crate::supply::Supply;
use std::alloc::Global;
use std::marker::Model;
use tsdb_base::{Memory, Point};

/// Sources that are lists by themselves, as a supply that gives one point at a time.
#[derive(Drop)]
struct Sources<P> {
    list: Vec<P>,
}

/// Puts a point into an empty list.
fn put(point: Option<Point>, into: &mut Vec<Point>) -> Result<bool, PullFault>
    requires empty { into.old.items ≡ [] }
    ensures put { IfOk result (λ more. IsPointPut point more into.new.items) }
    ensures memory { IfErr result (λ fault. fault ≡ PullFault.Memory) }
{
    match point {
        Some(point) => {
            into.push(point)?;
            Ok(true)
        }
        None => Ok(false),
    }
}

/// Takes one point of one source.
fn fill_one<P: Points>(
    list: &mut Vec<P>,
    source: usize,
    into: &mut Vec<Point>,
) -> Result<bool, PullFault>
    requires source { source < length list.old.items }
    requires empty { into.old.items ≡ [] }
    ensures moved { IfOk result (λ more. Moves (left_at (map P.left list.old.items) source) more
        into.new.items (left_at (map P.left list.new.items) source)) }
    ensures filled { IfOk result (λ more. IsFilled more into.new.items) }
    ensures most { IfOk result (λ _.
        length into.new.items + sum_by P.most list.new.items ≤ sum_by P.most list.old.items) }
    ensures others { KeepsOthers source (map P.left list.old.items) (map P.left list.new.items) }
    ensures cause { HasSomeCause (map P.failures list.old.items) (map P.failures list.new.items)
        (map P.damages list.old.items) (map P.damages list.new.items) result }
{
    let point = list[source].pull()?;
    let more = put(point, into)?;
    Ok(more)
}

impl<P: Points> Supply for Sources<P> {
    ghost left = { λ sources. map P.left sources.list.items };

    ghost most = { λ sources. sum_by P.most sources.list.items };

    ghost keeps = { λ before now. Unit {0} };

    ghost failures = { λ sources. map P.failures sources.list.items };

    ghost damages = { λ sources. map P.damages sources.list.items };

    fn fill(&mut self, source: usize, into: &mut Vec<Point>) -> Result<bool, PullFault> {
        fill_one(&mut self.list, source, into)
    }

    ghost keeps_none = { λ sources. tt };

    ghost keeps_then = { λ a b c one two. tt };
}

/// The points of several sources, from the lowest priority to the highest: in order of time, and at each time the
/// point of the last source that has one. A contract sees the points that are left, each source's two counts of
/// faults, and the fault that it met.
#[derive(Drop)]
pub struct Merge<P: Points> {
    lazy: LazyMerge,
    sources: Sources<P>,
}

impl<P: Points> Model for Merge<P> {
    ghost use Rattle.std.specs.Prelude.{◌≡◌, ◌+◌, length, map, sum_by};
    ghost use Rattle.tsdb_merge.specs.Merging.{Merging, lazy_held, lazy_left};

    ghost Value = { Merging };

    ghost view = { λ merge. record {
      left = lazy_left merge.lazy (map P.left merge.sources.list.items);
      most = lazy_held merge.lazy + sum_by P.most merge.sources.list.items;
      failures = map P.failures merge.sources.list.items;
      damages = map P.damages merge.sources.list.items;
      fault = merge.lazy.fault;
    } };

    ghost invariant = { λ merge. merge.lazy.sources ≡ length merge.sources.list.items };
}

impl<P: Points + Drop> Merge<P> {
    /// A merge of the sources, from which no point was pulled yet. 2^32 sources or more are out of memory.
    pub fn new(alloc: Global, sources: Vec<P>) -> Result<Merge<P>, Memory>
        ensures merged { IfOk result (λ merge. (lists : List (List Point)) →
            map P.left sources.items ≡ map Some lists → IsToldMergeOf lists merge.left) }
        ensures most { IfOk result (λ merge. merge.most ≡ sum_by P.most sources.items) }
        ensures failures { IfOk result (λ merge. merge.failures ≡ map P.failures sources.items) }
        ensures damages { IfOk result (λ merge. merge.damages ≡ map P.damages sources.items) }
        ensures fault { IfOk result (λ merge. merge.fault ≡ None) }
    {
        let lazy = LazyMerge::new(alloc, sources.len())?;
        let sources = Sources { list: sources };
        Ok(Merge { lazy, sources })
    }

    /// Takes the first point that is left, or answers none where no source has one left. The first fault that a source
    /// answers is the answer of this pull and of each later one.
    pub fn pull(&mut self) -> Result<Option<Point>, PullFault>
        ensures next { IfOk result (λ point. TakesTold self.old.left point self.new.left) }
        ensures fewer { IfOk result (λ point. length (option_to_list point) + self.new.most ≤ self.old.most) }
        ensures working { OnOk result ((self.old.fault ≡ None) × (self.new.fault ≡ None)) }
        ensures failed { IfErr result (λ fault. self.new.fault ≡ Some fault) }
        ensures again { (fault : PullFault) → self.old.fault ≡ Some fault →
            (result ≡ Err fault) × (self.new ≡ self.old) }
        ensures failures { NoneFell self.old.failures self.new.failures }
        ensures damages { NoneFell self.old.damages self.new.damages }
        ensures cause { IfErr result (λ fault. self.old.fault ≡ None →
            SomeHasRisen fault self.old.failures self.new.failures self.old.damages self.new.damages) }
    {
        self.lazy.pull(&mut self.sources)
    }
}

/// Lists have one merge: the same points in the same order, whoever computes it.
pub fn merge_is_one()
    ensures { (lists : List (List Point)) (xs ys : List Point) → IsMergeOf lists xs → IsMergeOf lists ys → xs ≡ ys }
{}

/// Pieces of one source, which have no time in common, are merged as their joined list is.
pub fn pieces_merge_as_joined()
    ensures { (before later : List (List Point)) (xs ys points : List Point) →
        All (λ point. HasNoneAt point.time ys) xs →
        IsMergeOf (before ++ xs ∷ ys ∷ later) points ↔ IsMergeOf (before ++ (xs ++ ys) ∷ later) points }
{}
