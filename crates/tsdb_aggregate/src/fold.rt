//! The aggregate of the winners in a range. It depends on `entry`, `group` and `tally`.
ghost use Rattle.std.specs.Prelude.{◌≡◌, ◌<◌, ◌≤◌, List, All, AllPairs, IfOk, OnOk, length, sum_by};
ghost use Rattle.std.specs.List.{zip};
ghost use Rattle.tsdb_base.specs.declared.point.Point.{Point};
ghost use Rattle.tsdb_base.specs.declared.point.Range.{Range as RangeModel};
ghost use Rattle.tsdb_aggregate.specs.Loads.{Spends};
ghost use Rattle.tsdb_aggregate.specs.Pieces.{ArePiecesSound, HeldPiece, most_loads};
ghost use Rattle.tsdb_aggregate.specs.Steps.{AddsWinners, HasTally, ComesBefore, IsPieceGroup, cost_of, held_parts};
ghost use Rattle.tsdb_aggregate.specs.Winners.{AreWinners, IsAggregate};

use crate::entry::{PieceEntry, group_length, pieces_meeting};
use crate::group::add_group;
use crate::loader::Loader;
use crate::piece::Piece;
use crate::tally::Tally;
use std::alloc::Global;
use std::sync::ledger::Ledger;
use tsdb_base::{Aggregate, Figure, Range, Steps};
use tsdb_merge::PullFault;

/// Adds the winners of a group in the range to a tally: by the statistics of a clean piece, or by points.
fn add_winners<'a, D: Loader, L: Ledger>(
    alloc: Global,
    group: &[PieceEntry<'a>],
    name: Aggregate,
    range: &Range,
    loader: &mut D,
    pages: &mut Steps<L>,
    tally: &mut Tally<'a>,
) -> Result<(), PullFault>
    requires places { All (λ entry. entry.place < length (D.state loader.old).held) group.now }
    requires group { IsPieceGroup group.now }
    ensures added { OnOk result (ArePiecesSound name range.now (held_parts (D.state loader.old).held group.now) →
        AddsWinners (D.state loader.old).held range.now name group.now tally.old tally.new) }
    ensures spends { Spends (sum_by cost_of (held_parts (D.state loader.old).held group.now))
        (D.state loader.old) (D.state loader.new) pages.old pages.new result }
{
    let first = group[0].piece;
    if first.clean {
        return Ok(tally.join(name, Tally::of_stats(name, &first.stats))?);
    }
    add_group(alloc, group, name, range, loader, pages, tally)
}

/// The tally of the winners of all entries in the range.
fn tally_of<'a, D: Loader, L: Ledger>(
    alloc: Global,
    entries: &[PieceEntry<'a>],
    name: Aggregate,
    range: &Range,
    loader: &mut D,
    pages: &mut Steps<L>,
) -> Result<Tally<'a>, PullFault>
    requires places { All (λ entry. entry.place < length (D.state loader.old).held) entries.now }
    ensures found { IfOk result (λ tally. ArePiecesSound name range.now (held_parts (D.state loader.old).held entries.now) →
        AllPairs ComesBefore entries.now → HasTally (D.state loader.old).held range.now name entries.now tally) }
    ensures spends { Spends (sum_by cost_of (held_parts (D.state loader.old).held entries.now))
        (D.state loader.old) (D.state loader.new) pages.old pages.new result }
{
    let mut tally = Tally::new();
    let mut start = 0;
    while start < entries.len() {
        let (_, rest) = entries.split_at(start);
        let (group, _) = rest.split_at(group_length(rest));
        add_winners(alloc, group, name, range, loader, pages, &mut tally)?;
        start += group.len();
    }
    Ok(tally)
}

/// The aggregate of the winners in the range: at each time the point of the last source that has one. A clean piece
/// and one that does not meet the range are not loaded, and each other one is loaded once at most, when the points
/// before it were folded. At most one piece of each source is held, where pieces of one source do not overlap. A count
/// of 2^63 or more is out of memory.
pub fn aggregate<D: Loader, L: Ledger>(
    alloc: Global,
    name: Aggregate,
    pieces: &[Piece],
    range: &Range,
    loader: &mut D,
    pages: &mut Steps<L>,
) -> Result<Option<Figure>, PullFault>
    requires one_each { length (D.state loader.old).held ≡ length pieces.now }
    ensures found { IfOk result (λ answer. ArePiecesSound name range.now (zip pieces.now (D.state loader.old).held) →
        IsAggregate (zip pieces.now (D.state loader.old).held) range.now name answer) }
    ensures spends { Spends (most_loads range.now (zip pieces.now (D.state loader.old).held))
        (D.state loader.old) (D.state loader.new) pages.old pages.new result }
{
    let entries = pieces_meeting(alloc, pieces, range)?;
    let tally = tally_of(alloc, &entries, name, range, loader, pages)?;
    Ok(tally.answer(name)?)
}

/// Pieces have one list of winners in a range: the same points in the same order, whoever computes it.
pub fn winners_are_one()
    ensures { (parts : List HeldPiece) (range : RangeModel) (xs ys : List Point) →
        AreWinners parts range xs → AreWinners parts range ys → xs ≡ ys }
{}
