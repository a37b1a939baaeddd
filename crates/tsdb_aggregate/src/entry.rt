//! The pieces that meet a range, in order of their starts. It depends on `piece`.
ghost use Rattle.std.specs.Prelude.{◌≡◌, ◌↔◌, ◌<◌, ◌≤◌, ◌<ℤ◌, ◌≤ℤ◌, IsTrue, List, All, AllPairs, IfOk, filter, length};
ghost use Rattle.std.specs.Prelude.{take};
ghost use Rattle.std.specs.List.{zip};
ghost use Rattle.std.specs.List.Sorted.{IsPermutation};
ghost use Rattle.tsdb_aggregate.specs.Loads.{Held};
ghost use Rattle.tsdb_aggregate.specs.Pieces.{hull, overlap as overlaps};
ghost use Rattle.tsdb_aggregate.specs.Steps.{ComesBefore, IsCut, IsPieceGroup, held_parts};

use crate::piece::{Piece, overlap};
use std::alloc::Global;
use tsdb_base::{Memory, Range, Time};

/// A piece and its place in the list of pieces.
#[derive(Clone, Copy, Drop)]
pub struct PieceEntry<'a> {
    pub place: usize,
    pub piece: &'a Piece,
}

/// The pieces that meet the range, in order of their starts.
pub fn pieces_meeting<'a>(
    alloc: Global,
    pieces: &'a [Piece],
    range: &Range,
) -> Result<Vec<PieceEntry<'a>>, Memory>
    ensures places { IfOk result (λ entries. All (λ entry. entry.place < length pieces.now) entries.items) }
    ensures all { IfOk result (λ entries. (held : List Held) → length held ≡ length pieces.now →
        IsPermutation (filter (λ part. overlaps range.now (hull part.0)) (zip pieces.now held))
        (held_parts held entries.items)) }
    ensures order { IfOk result (λ entries.
        AllPairs (λ a b. a.piece.now.stats.start ≤ℤ b.piece.now.stats.start) entries.items) }
{
    let mut entries = Vec::new(alloc);
    for place in 0..pieces.len() {
        let piece = &pieces[place];
        if overlap(range, &piece.hull()) {
            entries.push(PieceEntry { place, piece })?;
        }
    }
    entries.sort_by_key(|entry| entry.piece.stats.start)?;
    Ok(entries)
}

/// The later of a time and the end of a piece.
pub fn later_end(end: Time, piece: &Piece) -> Time
    ensures { (end ≤ℤ result) × (piece.now.stats.end ≤ℤ result) }
{
    end.max(piece.stats.end)
}

/// Whether a piece begins after a time.
pub fn begins_after(piece: &Piece, end: Time) -> bool
    ensures { IsTrue result ↔ (end <ℤ piece.now.stats.start) }
{
    end < piece.stats.start
}

/// How many of the entries make up the first group: a clean piece alone, or pieces that meet one another.
pub fn group_length(entries: &[PieceEntry<'_>]) -> usize
    requires some { 0 < length entries.now }
    ensures some { 0 < result }
    ensures within { result ≤ length entries.now }
    ensures cut { AllPairs ComesBefore entries.now → IsCut result entries.now }
    ensures group { IsPieceGroup (take result entries.now) }
{
    let first = entries[0].piece;
    let mut end = first.stats.end;
    if first.clean {
        return 1;
    }
    for place in 1..entries.len() {
        let piece = entries[place].piece;
        if piece.clean || begins_after(piece, end) {
            return place;
        }
        end = later_end(end, piece);
    }
    entries.len()
}
