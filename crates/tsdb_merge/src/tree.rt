//! A tree of merges of two, over the sources of a supply. It depends on `head` and `supply`.
ghost use Rattle.std.specs.Prelude.{◌≡◌, ◌≢◌, ◌+◌, ◌*◌, ◌<◌, ◌≤◌, ◌^◌, [], IfOk, length, reverse};
ghost use Rattle.tsdb_merge.specs.Causes.{HasSomeCause};
ghost use Rattle.tsdb_merge.specs.declared.head.Head.TheVariants.{Unread};
ghost use Rattle.tsdb_merge.specs.Steps.{IsAhead, IsUnreadNode, IsPopped, IsPointRead, IsMergeTree, IsWithinBound};
ghost use Rattle.tsdb_merge.specs.Supplies.{IsFilled, KeepsOthers, Moves, left_at};
ghost use Rattle.tsdb_merge.specs.Steps.{count_of, first_source, head_held, node_held};

use crate::head::{Head, take_next};
use crate::points::PullFault;
use crate::supply::Supply;
use std::alloc::Global;
use tsdb_base::{Memory, Point};

/// Sources of one tree, from the lowest priority to the highest.
#[derive(Drop)]
pub enum Node {
    /// One source, by its place, and the points that were moved from it; the last one of these is the next.
    Leaf {
        source: usize,
        buffer: Vec<Point>,
    },
    /// The merge of two trees, with what was read ahead of each.
    Pair {
        low: Box<Node>,
        high: Box<Node>,
        low_head: Head,
        high_head: Head,
    },
}

/// Takes the last point of a buffer.
pub fn pop(buffer: &mut Vec<Point>) -> Head
    ensures { IsPopped buffer.old.items buffer.new.items result }
{
    match buffer.pop() {
        Some(point) => Head::Next(point),
        None => Head::End,
    }
}

/// Fills an empty buffer from the supply, the next point last.
fn refill<Q: Supply>(
    source: usize,
    buffer: &mut Vec<Point>,
    supply: &mut Q,
) -> Result<bool, PullFault>
    requires source { source < length (Q.left supply.old) }
    requires empty { buffer.old.items ≡ [] }
    ensures moved { IfOk result (λ more. Moves (left_at (Q.left supply.old) source) more
        (reverse buffer.new.items) (left_at (Q.left supply.new) source)) }
    ensures filled { IfOk result (λ more. IsFilled more (reverse buffer.new.items)) }
    ensures most { IfOk result (λ _. length buffer.new.items + Q.most supply.new ≤ Q.most supply.old) }
    ensures others { KeepsOthers source (Q.left supply.old) (Q.left supply.new) }
    ensures kept { Q.keeps supply.old supply.new }
    ensures cause { HasSomeCause (Q.failures supply.old) (Q.failures supply.new)
        (Q.damages supply.old) (Q.damages supply.new) result }
{
    let more = supply.fill(source, buffer)?;
    buffer.reverse();
    Ok(more)
}

/// Takes the next point of a source: from its buffer, or from the supply where the buffer is empty.
fn next_of<Q: Supply>(
    source: usize,
    buffer: &mut Vec<Point>,
    supply: &mut Q,
) -> Result<Head, PullFault>
    requires source { source < length (Q.left supply.old) }
    requires within { length buffer.old.items ≤ 1000 }
    ensures read { IfOk result (λ head.
        IsPointRead source buffer.old.items (Q.left supply.old) (Q.most supply.old)
        head buffer.new.items (Q.left supply.new) (Q.most supply.new)) }
    ensures sources { length (Q.left supply.new) ≡ length (Q.left supply.old) }
    ensures kept { Q.keeps supply.old supply.new }
    ensures cause { HasSomeCause (Q.failures supply.old) (Q.failures supply.new)
        (Q.damages supply.old) (Q.damages supply.new) result }
{
    if !buffer.is_empty() {
        return Ok(pop(buffer));
    }
    if !refill(source, buffer, supply)? {
        return Ok(Head::End);
    }
    Ok(pop(buffer))
}

/// Reads the next point of a tree into its head, where nothing was read yet.
pub fn read_ahead<Q: Supply>(
    node: &mut Node,
    head: &mut Head,
    supply: &mut Q,
) -> Result<(), PullFault>
    requires tree { IsMergeTree node.old }
    requires within { IsWithinBound head.old node.old }
    requires sources { first_source node.old + count_of node.old ≤ length (Q.left supply.old) }
    ensures ahead { IfOk result (λ _.
        IsAhead head.old node.old (Q.left supply.old) (Q.most supply.old)
        head.new node.new (Q.left supply.new) (Q.most supply.new)) }
    ensures sources { length (Q.left supply.new) ≡ length (Q.left supply.old) }
    ensures kept { Q.keeps supply.old supply.new }
    ensures cause { HasSomeCause (Q.failures supply.old) (Q.failures supply.new)
        (Q.damages supply.old) (Q.damages supply.new) result }
{
    if !head.is_unread() {
        return Ok(());
    }
    match node {
        Node::Leaf { source, buffer } => {
            *head = next_of(*source, buffer, supply)?;
        }
        Node::Pair {
            low,
            high,
            low_head,
            high_head,
        } => {
            read_ahead(low, low_head, supply)?;
            read_ahead(high, high_head, supply)?;
            *head = take_next(low_head, high_head);
        }
    }
    Ok(())
}

/// A balanced tree of so many sources, of which nothing was read yet.
pub fn tree(alloc: Global, first: usize, count: usize) -> Result<Node, Memory>
    requires some { 0 < count }
    requires last { first + count < 2 ^ 64 }
    ensures tree { IfOk result (λ node. IsMergeTree node) }
    ensures fresh { IfOk result (λ node. IsUnreadNode node) }
    ensures first { IfOk result (λ node. first_source node ≡ first) }
    ensures count { IfOk result (λ node. count_of node ≡ count) }
    ensures held { IfOk result (λ node. node_held node ≡ 0) }
{
    if count == 1 {
        return Ok(Node::Leaf {
            source: first,
            buffer: Vec::new(alloc),
        });
    }
    let half = count / 2;
    let low = Box::new(alloc, tree(alloc, first, half)?)?;
    let high = Box::new(alloc, tree(alloc, first + half, count - half)?)?;
    Ok(Node::Pair {
        low,
        high,
        low_head: Head::Unread,
        high_head: Head::Unread,
    })
}

/// Whether a point was read ahead.
fn count_head(head: &Head) -> u64
    ensures { result ≡ head_held head.now }
{
    match head {
        Head::Next(_) => 1,
        Head::End | Head::Unread => 0,
    }
}

/// How many points a tree has buffered.
pub fn count_held(node: &Node) -> u64
    requires { node_held node.now < 2 ^ 64 }
    ensures { result ≡ node_held node.now }
{
    match node {
        Node::Leaf { source: _, buffer } => buffer.len() as u64,
        Node::Pair {
            low,
            high,
            low_head,
            high_head,
        } => count_head(low_head) + count_held(low) + (count_head(high_head) + count_held(high)),
    }
}
