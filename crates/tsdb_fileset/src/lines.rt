//! The lines of files, by their entries. Depends on tsdb_base, tsdb_model and tsdb_plan.
ghost use Rattle.std.specs.Prelude.{◌≡◌, ◌++◌, fold, map, IfOk, OnOk};
ghost use Rattle.std.specs.Int.{int_max, int_min};
ghost use Rattle.tsdb_base.specs.declared.ids.Space.TheVariants.{Sequence, Unsequence};
ghost use Rattle.tsdb_fileset.specs.Lines.{line_of as line_of_entry, file_lines_of};

use std::alloc::Global;
use tsdb_base::{List, Memory, Space, Time};
use tsdb_model::FileLine;
use tsdb_plan::{FileEntry, Hull};

/// The least time of the hulls and a first one.
fn least_time(first: Time, hulls: &[Hull]) -> Time
    ensures { result ≡ fold int_min first (map (λ hull. hull.from) hulls.now) }
{
    let mut least = first;
    for hull in hulls {
        least = least.min(hull.from);
    }
    least
}

/// The greatest time of the hulls and a first one.
fn greatest_time(first: Time, hulls: &[Hull]) -> Time
    ensures { result ≡ fold int_max first (map (λ hull. hull.to) hulls.now) }
{
    let mut greatest = first;
    for hull in hulls {
        greatest = greatest.max(hull.to);
    }
    greatest
}

/// The line of a file of the space.
fn line_of(space: Space, entry: &FileEntry) -> FileLine
    ensures { result ≡ line_of_entry space entry.now }
{
    let (from, to) = match entry.hulls.items().split_first() {
        Some((first, others)) => (
            least_time(first.from, others),
            greatest_time(first.to, others),
        ),
        None => (0, 0),
    };
    FileLine {
        space,
        number: entry.number,
        born: entry.born,
        points: entry.points,
        from,
        to,
    }
}

/// Adds the lines of the files of a list.
fn add_lines(space: Space, entries: &[FileEntry], lines: &mut Vec<FileLine>) -> Result<(), Memory>
    ensures { OnOk result (lines.new.items ≡ lines.old.items ++ file_lines_of space entries.now) }
{
    for entry in entries {
        lines.push(line_of(space, entry))?;
    }
    Ok(())
}

/// The lines of the sequence files and then of the unsequence files, each list in its order.
pub fn file_lines(
    alloc: Global,
    sequence: &[FileEntry],
    unsequence: &[FileEntry],
) -> Result<List<FileLine>, Memory>
    ensures { IfOk result (λ lines. lines ≡ file_lines_of Sequence sequence.now
        ++ file_lines_of Unsequence unsequence.now) }
{
    let mut lines = Vec::with_capacity(alloc, sequence.len() + unsequence.len())?;
    add_lines(Space::Sequence, sequence, &mut lines)?;
    add_lines(Space::Unsequence, unsequence, &mut lines)?;
    Ok(List::of(lines))
}
