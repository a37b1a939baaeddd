//! The effect of a deletion. Depends on the store's fields, and on `purging`.
ghost use Rattle.std.specs.Prelude.{◌≡◌, ◌<◌, ◌≤◌, ◌≤ℤ◌, ◌<ℤ◌, ◌+◌, All, IsSome, OnOk};
ghost use Rattle.tsdb_memory.specs.Changes.{HasDeleted};
ghost use Rattle.tsdb_memory.specs.Least.{IsLeastOf};
ghost use Rattle.tsdb_memory.specs.Rows.{ChangesRoom};
ghost use Rattle.tsdb_memory.specs.StateOfMemory.{IsMemoryOf, file_borns, number_of};
ghost use Rattle.tsdb_base.specs.Limits.{end_of_numbers};
ghost use Rattle.tsdb_state.specs.Records.{add_mark as mark_added, deleted};
ghost use Rattle.tsdb_state.specs.State.{StoreState};

use crate::purging::least_born;
use crate::store::MemoryStore;
use tsdb_base::{Memory, Range, SeriesId, Stamp};
use tsdb_marks::{Mark, Marks};
use tsdb_path::Path;

impl MemoryStore {
    /// Takes the memory of a deletion of this range, where there is no room for its mark. A range without times has no
    /// mark.
    pub fn prepare_delete(&mut self, range: &Range) -> Result<(), Memory>
        ensures kept { ChangesRoom self.old self.new }
        ensures same { (state : StoreState) → IsMemoryOf self.old state → IsMemoryOf self.new state }
        ensures place { OnOk result (range.now.from ≤ℤ range.now.to → 0 < self.new.marks.spare) }
        ensures spare { 0 < self.old.marks.spare → self.new.marks.spare ≡ self.old.marks.spare }
        ensures empty { range.now.to <ℤ range.now.from → self.new.marks.spare ≡ self.old.marks.spare }
        ensures one { self.new.marks.spare ≤ self.old.marks.spare + 1 }
    {
        if range.from <= range.to && self.marks.spare() == 0 {
            self.marks.reserve()?;
        }
        Ok(())
    }

    /// The points of the series in the range leave the working pair, and a mark covers those of files and frozen pairs.
    /// Then the marks that cover nothing go; `listed` is the least stamp at which a listed file was frozen. It takes no
    /// memory.
    pub fn finish_delete(&mut self, path: Path, range: &Range, listed: Option<Stamp>)
        requires there { IsSome (number_of self.old.series path) }
        requires stamp { self.old.stamp < end_of_numbers }
        requires place { range.now.from ≤ℤ range.now.to → 0 < self.old.marks.spare }
        ensures effect { (state : StoreState) → IsMemoryOf self.old state → IsLeastOf listed (file_borns state)
            → IsMemoryOf self.new (deleted path range.now state) }
        ensures made { HasDeleted path range.now listed self.old self.new }
    {
        let Some(number) = self.series.get_index_of(&path) else {
            unreachable!()
        };
        self.stamp += 1;
        add_mark(&mut self.marks, path, range, self.stamp);
        self.working.erase(SeriesId(number as u64), range);
        self.marks.purge(least_born(listed, self.frozen.as_slice()));
    }
}

/// Marks the points of a series in the range; a range without times needs no mark.
fn add_mark(marks: &mut Marks, path: Path, range: &Range, version: u64)
    requires place { range.now.from ≤ℤ range.now.to → 0 < marks.old.spare }
    requires newer { All (λ mark. mark.version.0 < version) marks.old.marks }
    ensures { marks.new.marks ≡ mark_added path range.now version marks.old.marks }
{
    if range.from <= range.to {
        marks.add(Mark {
            path,
            from: range.from,
            to: range.to,
            version: Stamp(version),
        });
    }
}
