//! Walks the tree of a merge, whose sources are lanes. Depends on `lanes` and tsdb_merge.
//!
//! It is the walk of tsdb_merge over a supply once more. A port has to be `Send`, and a method of a trait cannot call a
//! function with such a type parameter, so the lanes are no supply.
ghost use Rattle.std.specs.Prelude.{◌≡◌, ◌+◌, ◌*◌, ◌<◌, ◌≤◌, [], IfOk, length, reverse};
ghost use Rattle.tsdb_merge.specs.Steps.{IsAhead, IsPulled, IsPointRead, IsRootNode, IsMergeTree, IsWithinBound};
ghost use Rattle.tsdb_merge.specs.Steps.{count_of, first_source};
ghost use Rattle.tsdb_merge.specs.Steps.{node_held, root_left};
ghost use Rattle.tsdb_merge.specs.Supplies.{IsFilled, KeepsOthers, Moves, left_at};
ghost use Rattle.tsdb_merge.specs.Winners.{TakesTold};
ghost use Rattle.tsdb_streams.specs.Files.{FilePages};
ghost use Rattle.tsdb_streams.specs.Walking.{AreLanesOfStore, AreTrueLanes, LeavesLanes, lanes_left, lanes_most};

use crate::lane::Lane;
use crate::lanes::fill_one;
use crate::survival::Kept;
use std::alloc::Global;
use tsdb_base::Point;
use tsdb_merge::{Head, Node, into_point, pop, take_next};
use tsdb_outside::{Port, StoreFault};

/// Fills an empty buffer from a source, the next point last.
fn refill<P: Port>(
    alloc: Global,
    kept: &Kept<'_>,
    list: &mut Vec<Lane<'_, P::Right>>,
    source: usize,
    buffer: &mut Vec<Point>,
    port: &mut P,
) -> Result<bool, StoreFault>
    requires source { source < length list.old.items }
    requires empty { buffer.old.items ≡ [] }
    requires of { AreLanesOfStore P.Right.file (P.store port.old) list.old.items }
    ensures moved { (pages : FilePages) → AreTrueLanes P.Right.file pages list.old.items
        → IfOk result (λ more.
        Moves (left_at (lanes_left P.Right.file pages kept.now list.old.items) source) more
        (reverse buffer.new.items) (left_at (lanes_left P.Right.file pages kept.now list.new.items) source)) }
    ensures filled { IfOk result (λ more. IsFilled more (reverse buffer.new.items)) }
    ensures most { IfOk result (λ _.
        length buffer.new.items + lanes_most list.new.items ≤ lanes_most list.old.items) }
    ensures others { (pages : FilePages)
        → KeepsOthers source (lanes_left P.Right.file pages kept.now list.old.items)
        (lanes_left P.Right.file pages kept.now list.new.items) }
    ensures sources { length list.new.items ≡ length list.old.items }
    ensures leaves { LeavesLanes P.Right.file (P.store port.old) (P.store port.new)
        (P.faults port.old) (P.faults port.new) list.old.items list.new.items result }
{
    let more = fill_one(alloc, kept, list, source, buffer, port)?;
    buffer.reverse();
    Ok(more)
}

/// Takes the next point of a source: from its buffer, or from its lane where the buffer is empty.
fn next_of<P: Port>(
    alloc: Global,
    kept: &Kept<'_>,
    list: &mut Vec<Lane<'_, P::Right>>,
    source: usize,
    buffer: &mut Vec<Point>,
    port: &mut P,
) -> Result<Head, StoreFault>
    requires source { source < length list.old.items }
    requires within { length buffer.old.items ≤ 1000 }
    requires of { AreLanesOfStore P.Right.file (P.store port.old) list.old.items }
    ensures read { (pages : FilePages) → AreTrueLanes P.Right.file pages list.old.items
        → IfOk result (λ head. IsPointRead source
        buffer.old.items (lanes_left P.Right.file pages kept.now list.old.items) (lanes_most list.old.items) head
        buffer.new.items (lanes_left P.Right.file pages kept.now list.new.items) (lanes_most list.new.items)) }
    ensures sources { length list.new.items ≡ length list.old.items }
    ensures leaves { LeavesLanes P.Right.file (P.store port.old) (P.store port.new)
        (P.faults port.old) (P.faults port.new) list.old.items list.new.items result }
{
    if !buffer.is_empty() {
        return Ok(pop(buffer));
    }
    if !refill(alloc, kept, list, source, buffer, port)? {
        return Ok(Head::End);
    }
    Ok(pop(buffer))
}

/// Reads the next point of a tree into its head, where nothing was read yet.
fn read_ahead<P: Port>(
    alloc: Global,
    kept: &Kept<'_>,
    list: &mut Vec<Lane<'_, P::Right>>,
    node: &mut Node,
    head: &mut Head,
    port: &mut P,
) -> Result<(), StoreFault>
    requires tree { IsMergeTree node.old }
    requires within { IsWithinBound head.old node.old }
    requires sources { first_source node.old + count_of node.old ≤ length list.old.items }
    requires of { AreLanesOfStore P.Right.file (P.store port.old) list.old.items }
    ensures ahead { (pages : FilePages) → AreTrueLanes P.Right.file pages list.old.items
        → IfOk result (λ _. IsAhead
        head.old node.old (lanes_left P.Right.file pages kept.now list.old.items) (lanes_most list.old.items)
        head.new node.new (lanes_left P.Right.file pages kept.now list.new.items) (lanes_most list.new.items)) }
    ensures sources { length list.new.items ≡ length list.old.items }
    ensures leaves { LeavesLanes P.Right.file (P.store port.old) (P.store port.new)
        (P.faults port.old) (P.faults port.new) list.old.items list.new.items result }
{
    if !head.is_unread() {
        return Ok(());
    }
    match node {
        Node::Leaf { source, buffer } => {
            *head = next_of(alloc, kept, list, *source, buffer, port)?;
        }
        Node::Pair {
            low,
            high,
            low_head,
            high_head,
        } => {
            read_ahead(alloc, kept, list, low, low_head, port)?;
            read_ahead(alloc, kept, list, high, high_head, port)?;
            *head = take_next(low_head, high_head);
        }
    }
    Ok(())
}

/// Takes the next point of a whole tree.
fn pull_root<P: Port>(
    alloc: Global,
    kept: &Kept<'_>,
    list: &mut Vec<Lane<'_, P::Right>>,
    root: &mut Node,
    port: &mut P,
) -> Result<Option<Point>, StoreFault>
    requires tree { IsMergeTree root.old }
    requires within { node_held root.old ≤ 1000 * count_of root.old }
    requires sources { first_source root.old + count_of root.old ≤ length list.old.items }
    requires of { AreLanesOfStore P.Right.file (P.store port.old) list.old.items }
    ensures pulled { (pages : FilePages) → AreTrueLanes P.Right.file pages list.old.items
        → IfOk result (λ point. IsPulled
        root.old (lanes_left P.Right.file pages kept.now list.old.items) (lanes_most list.old.items) point
        root.new (lanes_left P.Right.file pages kept.now list.new.items) (lanes_most list.new.items)) }
    ensures sources { length list.new.items ≡ length list.old.items }
    ensures leaves { LeavesLanes P.Right.file (P.store port.old) (P.store port.new)
        (P.faults port.old) (P.faults port.new) list.old.items list.new.items result }
{
    let mut head = Head::Unread;
    read_ahead(alloc, kept, list, root, &mut head, port)?;
    Ok(into_point(head))
}

/// Takes the next point of the merge of the sources. Behind the end and behind a fault nothing is buffered.
pub(crate) fn pull_from<P: Port>(
    alloc: Global,
    kept: &Kept<'_>,
    list: &mut Vec<Lane<'_, P::Right>>,
    root: &mut Option<Node>,
    port: &mut P,
) -> Result<Option<Point>, StoreFault>
    requires tree { IsRootNode (length list.old.items) root.old }
    requires of { AreLanesOfStore P.Right.file (P.store port.old) list.old.items }
    ensures next { (pages : FilePages) → AreTrueLanes P.Right.file pages list.old.items
        → IfOk result (λ point. TakesTold
        (root_left root.old (lanes_left P.Right.file pages kept.now list.old.items)) point
        (root_left root.new (lanes_left P.Right.file pages kept.now list.new.items))) }
    ensures tree { IsRootNode (length list.new.items) root.new }
    ensures sources { length list.new.items ≡ length list.old.items }
    ensures leaves { LeavesLanes P.Right.file (P.store port.old) (P.store port.new)
        (P.faults port.old) (P.faults port.new) list.old.items list.new.items result }
{
    let Some(node) = root else {
        return Ok(None);
    };
    match pull_root(alloc, kept, list, node, port) {
        Ok(Some(point)) => Ok(Some(point)),
        Ok(None) => {
            *root = None;
            Ok(None)
        }
        Err(fault) => {
            *root = None;
            Err(fault)
        }
    }
}
