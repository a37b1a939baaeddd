//! The last flushed time of each device. It depends on `tsdb_path`.
ghost use Rattle.std.specs.Prelude.{◌≡◌, ◌≢◌, ℕ, List, [], OnOk, IsSome};
ghost use Rattle.tsdb_memtable.specs.Watermarks.{watermark, HasPlace, later_time, space_by};

use std::alloc::Global;
use std::collections::BTreeMap;
use std::marker::Model;
use tsdb_base::{Memory, Space, Time};
use tsdb_path::Path;

/// The watermark of each device, its last flushed time, or none at first. A contract sees the devices that have a
/// place, in order, each with its watermark.
#[derive(Drop)]
pub struct Watermarks {
    times: BTreeMap<Path, Option<Time>>,
}

impl Model for Watermarks {
    ghost use Rattle.std.specs.Prelude.{ℕ, ℤ, List, Option};

    ghost Value = { List (List ℕ × Option ℤ) };

    ghost view = { λ watermarks. watermarks.times.entries };
}

/// The greater of the two.
fn greater(last: Option<Time>, time: Time) -> Option<Time>
    ensures { result ≡ later_time last time }
{
    match last {
        Some(last) if time < last => Some(last),
        _ => Some(time),
    }
}

/// The space that a point of this time goes to: `Sequence` where it is greater than the watermark, or the device has
/// none, and else `Unsequence`.
pub fn space_of(watermark: Option<Time>, time: Time) -> Space
    ensures { result ≡ space_by watermark time }
{
    match watermark {
        Some(last) if time <= last => Space::Unsequence,
        _ => Space::Sequence,
    }
}

impl Watermarks {
    /// No device has a place, and none a watermark.
    pub fn new(alloc: Global) -> Watermarks
        ensures { result ≡ [] }
    {
        Watermarks {
            times: BTreeMap::new(alloc),
        }
    }

    /// The watermark of the device, where it has one.
    pub fn get(&self, device: &Path) -> Option<Time>
        ensures { result ≡ watermark self.now device.now }
    {
        match self.times.get(device) {
            Some(time) => *time,
            None => None,
        }
    }

    /// Gives the device a place.
    pub fn reserve(&mut self, device: &Path) -> Result<(), Memory>
        ensures place { OnOk result (HasPlace self.new device.now) }
        ensures places { (other : List ℕ) → HasPlace self.old other → HasPlace self.new other }
        ensures watermarks { (other : List ℕ) → watermark self.new other ≡ watermark self.old other }
    {
        if self.times.contains_key(device) {
            return Ok(());
        }
        self.times.insert(device.copy()?, None)?;
        Ok(())
    }

    /// Raises the watermark of the device to the time, where it is none or less. It takes no memory.
    pub fn raise(&mut self, device: &Path, time: Time)
        requires { HasPlace self.old device.now }
        ensures later_time { watermark self.new device.now ≡ later_time (watermark self.old device.now) time }
        ensures others { (other : List ℕ) → device.now ≢ other → watermark self.new other ≡ watermark self.old other }
        ensures places { (other : List ℕ) → HasPlace self.old other → HasPlace self.new other }
    {
        let Some(watermark) = self.times.get_mut(device) else {
            unreachable!()
        };
        *watermark = greater(*watermark, time);
    }
}
