//! The effect of an insert. Depends on the store's fields.
ghost use Rattle.std.specs.Prelude.{◌≡◌, ◌≢◌, ◌<◌, ℕ, All, AllPairs, OnOk, slice_get};
ghost use Rattle.std.specs.Option.{IsSomeAnd};
ghost use Rattle.tsdb_base.specs.declared.ids.Space.{Space as SpaceOf};
ghost use Rattle.tsdb_memory.specs.Changes.{HasInserted};
ghost use Rattle.tsdb_memory.specs.Model.{IsFitting};
ghost use Rattle.tsdb_memory.specs.StateOfMemory.{IsMemoryOf};
ghost use Rattle.tsdb_memory.specs.Rows.{ChangesRoom, put_row_cells};
ghost use Rattle.tsdb_memtable.specs.Pairs.{UsesSpareRoom, points_of, spare_of};
ghost use Rattle.tsdb_base.specs.Limits.{end_of_numbers};
ghost use Rattle.tsdb_state.specs.Records.{inserted};
ghost use Rattle.tsdb_state.specs.State.{StoreState};

use crate::store::MemoryStore;
use tsdb_base::{List, Memory, Point, Space, Time};
use tsdb_log::CellRecord;
use tsdb_memtable::{Pair, space_of};
use tsdb_path::Path;

impl MemoryStore {
    /// Takes the memory of a row: room for one more point of each cell's series, where there is none.
    pub fn prepare_insert(&mut self, cells: &[CellRecord]) -> Result<(), Memory>
        ensures kept { ChangesRoom self.old self.new }
        ensures same { (state : StoreState) → IsMemoryOf self.old state → IsMemoryOf self.new state }
        ensures spare { UsesSpareRoom self.old.working self.new.working }
        ensures room { OnOk result (All (λ cell. 0 < spare_of cell.series.0 self.new.working) cells.now) }
    {
        reserve_cells(&mut self.working, cells)
    }

    /// The cells of a row of the device, which are of different series, go into the working pair. It takes no memory.
    pub fn finish_insert(&mut self, device: &Path, time: Time, cells: List<CellRecord>)
        requires room { All (λ cell. 0 < spare_of cell.series.0 self.old.working) cells }
        requires differ { AllPairs (λ cell other. cell.series.0 ≢ other.series.0) cells }
        requires there { All (λ cell. IsSomeAnd (slice_get self.old.series cell.series.0)
            (IsFitting device.now cell)) cells }
        requires stamp { self.old.stamp < end_of_numbers }
        ensures effect { (state : StoreState) → IsMemoryOf self.old state
            → IsMemoryOf self.new (inserted time cells state) }
        ensures made { HasInserted device.now time cells self.old self.new }
    {
        let space = space_of(self.watermarks.get(device), time);
        put_cells(&mut self.working, space, time, cells);
        self.stamp += 1;
    }
}

/// Makes room for one more point of each cell's series, where there is none.
fn reserve_cells(pair: &mut Pair, cells: &[CellRecord]) -> Result<(), Memory>
    ensures points { (space : SpaceOf) (number : ℕ)
        → points_of space number pair.new ≡ points_of space number pair.old }
    ensures spare { UsesSpareRoom pair.old pair.new }
    ensures room { OnOk result (All (λ cell. 0 < spare_of cell.series.0 pair.new) cells.now) }
{
    for cell in cells {
        pair.provide(cell.series)?;
    }
    Ok(())
}

/// Puts the cells of a row into the space of the pair.
fn put_cells(pair: &mut Pair, space: Space, time: Time, cells: List<CellRecord>)
    requires room { All (λ cell. 0 < spare_of cell.series.0 pair.old) cells }
    requires differ { AllPairs (λ cell other. cell.series.0 ≢ other.series.0) cells }
    ensures { pair.new ≡ put_row_cells space time cells pair.old }
{
    for cell in cells.into_vec() {
        let point = Point {
            time,
            value: cell.value,
        };
        pair.put_at(space, cell.series, point);
    }
}
