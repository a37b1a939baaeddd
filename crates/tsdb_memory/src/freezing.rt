//! The effect of a freeze. Depends on the store's fields, and on `shared`.
ghost use Rattle.std.specs.Prelude.{◌≡◌, ◌<◌, ◌≤◌, ℕ, List, [], IfOk, IfSome, None, OnOk, length};
ghost use Rattle.tsdb_base.specs.declared.ids.Space.TheVariants.{Sequence};
ghost use Rattle.tsdb_base.specs.declared.point.Point.{Point as PointOf};
ghost use Rattle.tsdb_base.specs.Lists.{Among};
ghost use Rattle.tsdb_memory.specs.Changes.{HasFrozen};
ghost use Rattle.tsdb_memory.specs.Fits.{HasNoPairPoint};
ghost use Rattle.tsdb_memory.specs.Freezing.{AreRaises, HaveWatermarkPlaces, IsFreezeOf, IsRaiseOf, raised_by};
ghost use Rattle.tsdb_memory.specs.Rows.{ChangesRoom};
ghost use Rattle.tsdb_memory.specs.StateOfMemory.{IsMemoryOf};
ghost use Rattle.tsdb_memory.specs.Store.{frozen_with_working};
ghost use Rattle.tsdb_memtable.specs.Pairs.{points_of};
ghost use Rattle.tsdb_memtable.specs.Watermarks.{watermark};
ghost use Rattle.tsdb_path.specs.Nodes.{device_of, node_count};
ghost use Rattle.tsdb_base.specs.Limits.{max_frozen};
ghost use Rattle.tsdb_state.specs.Records.{froze};
ghost use Rattle.tsdb_state.specs.State.{StoreState};

use crate::shared::SharedPair;
use crate::store::{FrozenPair, MemoryStore};
use std::mem;
use std::sync::Arc;
use tsdb_base::{Memory, SeriesId, Space, Stamp, Time};
use tsdb_memtable::{Pair, Watermarks};
use tsdb_path::Path;

/// A device, and a time that its watermark is to reach.
#[derive(Drop)]
pub struct Raise {
    device: Path,
    time: Time,
}

/// A freeze with all of its memory taken.
#[derive(Drop)]
pub struct Freezing {
    raises: Vec<Raise>,
    place: Arc<Pair>,
}

impl MemoryStore {
    /// Takes the memory of a freeze.
    pub fn prepare_freeze(&mut self) -> Result<Freezing, Memory>
        ensures kept { ChangesRoom self.old self.new }
        ensures same { (state : StoreState) → IsMemoryOf self.old state → IsMemoryOf self.new state }
        ensures working { self.new.working ≡ self.old.working }
        ensures place { OnOk result (0 < self.new.places.frozen) }
        ensures freezing { IfOk result (IsFreezeOf self.new) }
    {
        let raises = self.raises()?;
        reserve_places(&mut self.watermarks, &raises)?;
        self.frozen.reserve(1)?;
        let place = Arc::new(self.alloc, Pair::new(self.alloc))?;
        Ok(Freezing { raises, place })
    }

    /// The working pair, which has a point, goes behind the frozen ones, with the stamp as its born, and watermarks rise
    /// to its last sequence times. It takes no memory.
    pub fn finish_freeze(&mut self, freezing: Freezing)
        requires place { 0 < self.old.places.frozen }
        requires room { length self.old.frozen < max_frozen }
        requires some { ¬ HasNoPairPoint self.old.working }
        requires freezing { IsFreezeOf self.old freezing }
        ensures effect { (state : StoreState) → IsMemoryOf self.old state → IsMemoryOf self.new (froze state) }
        ensures series { self.new.series ≡ self.old.series }
        ensures stamp { self.new.stamp ≡ self.old.stamp }
        ensures frozen { self.new.frozen ≡ frozen_with_working self.old }
        ensures working { self.new.working ≡ [] }
        ensures made { HasFrozen self.old self.new }
    {
        let Freezing { raises, place } = freezing;
        raise_all(&mut self.watermarks, &raises);
        let working = mem::replace(&mut self.working, Pair::new(self.alloc));
        let pair = SharedPair::in_place(place, working);
        let born = Stamp(self.stamp);
        let Ok(()) = self.frozen.push(FrozenPair { born, pair }) else {
            unreachable!()
        };
    }

    /// The last sequence time of each series that has one in the working pair, with its device.
    fn raises(&self) -> Result<Vec<Raise>, Memory>
        ensures { IfOk result (λ raises. AreRaises self.now.series self.now.working raises.items) }
    {
        let mut raises = Vec::new(self.alloc);
        for series in &self.sequence_series()? {
            if let Some(raise) = self.raise_of(*series)? {
                raises.push(raise)?;
            }
        }
        Ok(raises)
    }

    /// The series with sequence points in the working pair.
    fn sequence_series(&self) -> Result<Vec<SeriesId>, Memory>
        ensures { IfOk result (λ all. (number : ℕ) (point : PointOf)
            → Among point (points_of Sequence number self.now.working)
            → Among (record { 0 = number }) all.items) }
    {
        self.working.series(Space::Sequence)
    }

    /// The last sequence time of a series in the working pair, where it has one, with its device.
    fn raise_of(&self, series: SeriesId) -> Result<Option<Raise>, Memory>
        ensures some { IfOk result (λ found. IfSome found (IsRaiseOf self.now.series self.now.working series.0)) }
        ensures none { IfOk result (λ found. found ≡ None → points_of Sequence series.0 self.now.working ≡ []) }
    {
        let points = self.working.points_of(Space::Sequence, series);
        let Some(last) = points.last() else {
            return Ok(None);
        };
        let Some((path, _)) = self.series.get_index(series.0 as usize) else {
            return Ok(None);
        };
        Ok(Some(Raise {
            device: device_in(path)?,
            time: last.time,
        }))
    }
}

/// The device of a series.
fn device_in(path: &Path) -> Result<Path, Memory>
    requires { 2 ≤ node_count path.now }
    ensures { IfOk result (λ device. device ≡ device_of path.now) }
{
    match path.device() {
        Ok(device) => Ok(device),
        Err(_) => Err(Memory),
    }
}

/// Gives each device a place.
fn reserve_places(watermarks: &mut Watermarks, raises: &[Raise]) -> Result<(), Memory>
    ensures watermarks { (device : List ℕ) → watermark watermarks.new device ≡ watermark watermarks.old device }
    ensures places { OnOk result (HaveWatermarkPlaces watermarks.new raises.now) }
{
    for raise in raises {
        watermarks.reserve(&raise.device)?;
    }
    Ok(())
}

/// Raises the watermark of each device to its times, where it is less. It takes no memory.
fn raise_all(watermarks: &mut Watermarks, raises: &[Raise])
    requires { HaveWatermarkPlaces watermarks.old raises.now }
    ensures { (device : List ℕ) → watermark watermarks.new device
        ≡ raised_by device raises.now (watermark watermarks.old device) }
{
    for raise in raises {
        watermarks.raise(&raise.device, raise.time);
    }
}
