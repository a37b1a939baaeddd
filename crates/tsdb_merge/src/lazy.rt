//! The merge of the sources of a supply, which are read as far as they are needed. It depends on `tree`.
ghost use Rattle.std.specs.Prelude.{◌≡◌, ◌+◌, ◌*◌, ◌^◌, ◌<◌, ◌≤◌, List, All, map, length};
ghost use Rattle.std.specs.Prelude.{IfOk, OnOk, IfErr, Some, None, Err};
ghost use Rattle.std.specs.Option.{option_to_list};
ghost use Rattle.tsdb_base.specs.declared.point.Point.{Point};
ghost use Rattle.tsdb_merge.specs.Causes.{HasSomeCause, NoneFell, SomeHasRisen};
ghost use Rattle.tsdb_merge.specs.Merging.{lazy_held, lazy_left};
ghost use Rattle.tsdb_merge.specs.Steps.{IsPulled, IsRootNode, IsMergeTree, count_of, first_source, node_held};
ghost use Rattle.tsdb_base.specs.Points.{IsRising};
ghost use Rattle.tsdb_merge.specs.Winners.{IsToldMergeOf, TakesTold};
ghost use Rattle.tsdb_merge.specs.declared.points.PullFault.{PullFault};

use crate::head::{Head, into_point};
use crate::points::PullFault;
use crate::supply::Supply;
use crate::tree::{Node, count_held, read_ahead, tree};
use std::alloc::Global;
use std::marker::Model;
use tsdb_base::{Memory, Point};

/// One more than the greatest number of sources.
const MAX_SOURCES: usize = 1 << 32;

/// The points of the sources of a supply, from the lowest priority to the highest: in order of time, and at each time
/// the point of the last source that has one. At most 1,000 points of each source are in memory. A contract sees the
/// points that are left, as what the supply has left and what is buffered together tell them.
#[derive(Drop)]
pub struct LazyMerge {
    root: Option<Node>,
    sources: usize,
    fault: Option<PullFault>,
}

impl Model for LazyMerge {
    ghost use Rattle.std.specs.Prelude.{◌<◌, ◌^◌};
    ghost use Rattle.tsdb_merge.specs.Merging.{LazyMerging};
    ghost use Rattle.tsdb_merge.specs.Steps.{IsRootNode};
    ghost use Rattle.tsdb_merge.specs.contracts.tree.Node as node;
    ghost use Rattle.std.specs.Coded.{codes};

    ghost Value = { LazyMerging };

    ghost coded = { Prim.hlevel (codes, node.the_row.coded) };

    ghost view = { λ merge. record { sources = merge.sources; root = merge.root; fault = merge.fault } };

    ghost invariant = { λ merge. IsRootNode merge.sources merge.root × (merge.sources < 2 ^ 32) };
}

/// Takes the next point of a whole tree.
fn pull_root<Q: Supply>(root: &mut Node, supply: &mut Q) -> Result<Option<Point>, PullFault>
    requires tree { IsMergeTree root.old }
    requires within { node_held root.old ≤ 1000 * count_of root.old }
    requires sources { first_source root.old + count_of root.old ≤ length (Q.left supply.old) }
    ensures pulled { IfOk result (λ point.
        IsPulled root.old (Q.left supply.old) (Q.most supply.old)
        point root.new (Q.left supply.new) (Q.most supply.new)) }
    ensures lists { length (Q.left supply.new) ≡ length (Q.left supply.old) }
    ensures kept { Q.keeps supply.old supply.new }
    ensures cause { HasSomeCause (Q.failures supply.old) (Q.failures supply.new)
        (Q.damages supply.old) (Q.damages supply.new) result }
{
    let mut head = Head::Unread;
    read_ahead(root, &mut head, supply)?;
    Ok(into_point(head))
}

impl LazyMerge {
    /// A merge of so many sources, of which nothing was read yet. 2^32 sources or more are out of memory.
    pub fn new(alloc: Global, sources: usize) -> Result<LazyMerge, Memory>
        ensures merged { IfOk result (λ merge. (lists : List (List Point)) → length lists ≡ sources →
            All IsRising lists → IsToldMergeOf lists (lazy_left merge (map Some lists))) }
        ensures sources { IfOk result (λ merge. merge.sources ≡ sources) }
        ensures held { IfOk result (λ merge. lazy_held merge ≡ 0) }
        ensures fault { IfOk result (λ merge. merge.fault ≡ None) }
    {
        if sources >= MAX_SOURCES {
            return Err(Memory);
        }
        let root = if sources == 0 {
            None
        } else {
            Some(tree(alloc, 0, sources)?)
        };
        Ok(LazyMerge {
            root,
            sources,
            fault: None,
        })
    }

    /// Takes the first point that is left, or answers none where no source has one left. The first fault that the
    /// supply answers is the answer of this pull and of each later one. Behind the end and behind a fault nothing is
    /// buffered.
    #[tactic(auto, using(crate::proofs::TreeLemmas::root_kept, crate::proofs::Pulls::none_fell))]
    pub fn pull<Q: Supply>(&mut self, supply: &mut Q) -> Result<Option<Point>, PullFault>
        requires sources { self.old.sources ≤ length (Q.left supply.old) }
        ensures next { IfOk result (λ point.
            TakesTold (lazy_left self.old (Q.left supply.old)) point (lazy_left self.new (Q.left supply.new))) }
        ensures fewer { IfOk result (λ point. length (option_to_list point)
            + (lazy_held self.new + Q.most supply.new) ≤ lazy_held self.old + Q.most supply.old) }
        ensures lists { length (Q.left supply.new) ≡ length (Q.left supply.old) }
        ensures sources { self.new.sources ≡ self.old.sources }
        ensures working { OnOk result ((self.old.fault ≡ None) × (self.new.fault ≡ None)) }
        ensures failed { IfErr result (λ fault. self.new.fault ≡ Some fault) }
        ensures again { (fault : PullFault) → self.old.fault ≡ Some fault →
            (result ≡ Err fault) × (self.new ≡ self.old) × (supply.new ≡ supply.old) }
        ensures kept { Q.keeps supply.old supply.new }
        ensures failures { NoneFell (Q.failures supply.old) (Q.failures supply.new) }
        ensures damages { NoneFell (Q.damages supply.old) (Q.damages supply.new) }
        ensures cause { IfErr result (λ fault. self.old.fault ≡ None → SomeHasRisen fault
            (Q.failures supply.old) (Q.failures supply.new) (Q.damages supply.old) (Q.damages supply.new)) }
    {
        if let Some(fault) = self.fault {
            return Err(fault);
        }
        let Some(root) = &mut self.root else {
            return Ok(None);
        };
        match pull_root(root, supply) {
            Ok(Some(point)) => Ok(Some(point)),
            Ok(None) => {
                self.root = None;
                Ok(None)
            }
            Err(fault) => {
                self.root = None;
                self.fault = Some(fault);
                Err(fault)
            }
        }
    }

    /// The tree of the merge, for a caller that walks it by itself.
    pub fn into_root(self) -> Option<Node>
        ensures root { result ≡ self.root }
        ensures tree { IsRootNode self.sources result }
        ensures few { self.sources < 2 ^ 32 }
    {
        self.root
    }

    /// How many points are buffered: at most 1,000 of each source.
    pub fn held(&self) -> u64
        ensures held { result ≡ lazy_held self.now }
        ensures most { result ≤ 1000 * self.now.sources }
    {
        match &self.root {
            Some(root) => count_held(root),
            None => 0,
        }
    }
}
