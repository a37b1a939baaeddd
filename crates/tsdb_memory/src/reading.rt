//! What is read of memory. Depends on the store's fields.
ghost use Rattle.std.specs.Prelude.{◌≡◌, ◌≢◌, ◌≤◌, ◌↔◌, List, ◌∷◌, IfSome, IsTrue, None, Some, false, length, map};
ghost use Rattle.std.specs.Prelude.{slice_get};
ghost use Rattle.std.specs.FinMap.{empty, len};
ghost use Rattle.std.specs.Arc.{arc_value};
ghost use Rattle.std.specs.Option.{option_map};
ghost use Rattle.tsdb_memory.specs.Fits.{HasNoPairPoint};
ghost use Rattle.tsdb_memory.specs.Model.{IsSoundMemory, frozen_in};
ghost use Rattle.tsdb_memory.specs.StateOfMemory.{TellsSpaceFilled, IsMemoryOf, number_of, part_of};
ghost use Rattle.tsdb_state.specs.Limit.{IsEmptyPair};
ghost use Rattle.tsdb_base.specs.Limits.{max_frozen};
ghost use Rattle.tsdb_state.specs.State.{FrozenContent as FrozenState, StoreState};

use crate::store::{FrozenPair, MemoryStore};
use std::sync::Arc;
use tsdb_base::{DataType, Encoding, SeriesId, Space, Stamp};
use tsdb_marks::Marks;
use tsdb_memtable::{Pair, Watermarks};
use tsdb_path::Path;

/// A series that is there: its number, its type and its encoding.
#[derive(Clone, Copy)]
pub struct NumberedSeries {
    pub id: SeriesId,
    pub data_type: DataType,
    pub encoding: Encoding,
}

impl MemoryStore {
    /// It does nothing, and tells what always holds of what is in memory.
    pub fn sound(&self)
        ensures { IsSoundMemory self.now }
    {
        // (a type's invariant is at hand where a field is used)
        let _ = &self.series;
    }

    /// The frozen pairs, from the oldest on: at most 2.
    pub fn frozen(&self) -> &[FrozenPair]
        ensures value { map frozen_in result.now ≡ self.now.frozen }
        ensures two { length self.now.frozen ≤ max_frozen }
    {
        self.frozen.as_slice()
    }

    /// The pair that rows are put into.
    pub fn working(&self) -> &Pair
        ensures { result.now ≡ self.now.working }
    {
        &self.working
    }

    /// The series with this number, where it is there: its path, its type and its encoding.
    pub fn schema(&self, id: SeriesId) -> Option<(&Path, DataType, Encoding)>
        ensures some { IfSome result (λ found. slice_get self.now.series id.0 ≡ Some (record {
          path = found.0.now;
          data_type = found.1;
          encoding = found.2;
        })) }
        ensures none { result ≡ None → slice_get self.now.series id.0 ≡ None }
    {
        let Some((path, kind)) = self.series.get_index(id.0 as usize) else {
            return None;
        };
        Some((path, kind.0, kind.1))
    }

    /// How many points the working pair has in the space.
    pub fn points(&self, space: Space) -> u64
        ensures { (state : StoreState) → IsMemoryOf self.now state → result ≡ len (part_of space state.working) }
    {
        self.working.points(space)
    }

    /// Whether the working pair has no point.
    pub fn is_idle(&self) -> bool
        ensures state { (state : StoreState) → IsMemoryOf self.now state → (IsTrue result ↔ IsEmptyPair state.working) }
        ensures some { result ≡ false → ¬ HasNoPairPoint self.now.working }
    {
        if has_points(&self.working, Space::Sequence) {
            return false;
        }
        !has_points(&self.working, Space::Unsequence)
    }

    /// Whether the oldest frozen pair, where there is one, has a point in the space.
    pub fn oldest_has(&self, space: Space) -> bool
        ensures { (state : StoreState) (oldest : FrozenState) (newer : List FrozenState) → IsMemoryOf self.now state
            → state.frozen ≡ oldest ∷ newer → (IsTrue result ↔ (part_of space oldest.pair ≢ empty)) }
    {
        match self.frozen.first() {
            Some(oldest) => has_points(oldest.pair.pair(), space),
            None => false,
        }
    }

    /// The marks of deletions.
    pub fn marks(&self) -> &Marks
        ensures { result.now ≡ self.now.marks }
    {
        &self.marks
    }

    /// The watermarks of devices.
    pub fn watermarks(&self) -> &Watermarks
        ensures { result.now ≡ self.now.watermarks }
    {
        &self.watermarks
    }

    /// The series with this path, where it is there.
    pub fn series(&self, path: &Path) -> Option<NumberedSeries>
        ensures number { option_map (λ series. series.id.0) result ≡ number_of self.now.series path.now }
        ensures schema { IfSome result (λ series. slice_get self.now.series series.id.0 ≡ Some (record {
          path = path.now;
          data_type = series.data_type;
          encoding = series.encoding;
        })) }
    {
        let Some((number, _, kind)) = self.series.get_full(path) else {
            return None;
        };
        Some(NumberedSeries {
            id: SeriesId(number as u64),
            data_type: kind.0,
            encoding: kind.1,
        })
    }
}

/// Whether a pair has a point in the space.
fn has_points(pair: &Pair, space: Space) -> bool
    ensures { TellsSpaceFilled result space pair.now }
{
    pair.points(space) > 0
}

impl FrozenPair {
    /// The stamp at its freeze.
    pub fn born(&self) -> Stamp
        ensures { result.0 ≡ (frozen_in self.now).born }
    {
        self.born
    }

    /// Its points.
    pub fn pair(&self) -> &Pair
        ensures { result.now ≡ (frozen_in self.now).pair }
    {
        self.pair.pair()
    }

    /// One more owner of its points, where there can be one: always, but for the cases at the head of `shared`.
    pub fn share(&self) -> Option<Arc<Pair>>
        ensures { IfSome result (λ shared. arc_value shared ≡ (frozen_in self.now).pair) }
    {
        self.pair.share()
    }
}
