//! The series of each device by their measurements. Depends on `series`.
ghost use Rattle.std.specs.Prelude.{◌≡◌, ◌⊎◌, IsSome, IsNone, IsOk, IfOk, OnOk, OnErr, None};
ghost use Rattle.std.specs.FinMap as map;
ghost use Rattle.std.specs.Option.{option_copied};
ghost use Rattle.tsdb_model.specs.World.{change, cut, new_series, value_at};
ghost use Rattle.tsdb_model.specs.Apply.{series_of};
ghost use Rattle.tsdb_map.specs.Model.{set_at};
ghost use Rattle.tsdb_path.specs.Nodes.{child_of};

use crate::series::Series;
use std::alloc::Global;
use std::collections::BTreeMap;
use std::marker::Model;
use tsdb_base::{DataType, Memory, Range, Time, Value};
use tsdb_path::{Name, Path};

/// The series that are there, by device and measurement. No series' path is kept whole, and none is built to find it.
#[derive(Drop)]
pub struct Catalog {
    devices: BTreeMap<Path, BTreeMap<Name, Series>>,
}

impl Model for Catalog {
    ghost use Rattle.tsdb_model.specs.World.{World};
    ghost use Rattle.tsdb_map.specs.Model.{world_code, world_of, AreOrderedDevices};
    ghost use Rattle.tsdb_map.specs.contracts.series.Series as series;

    ghost Value = { World };

    ghost coded = { world_code series.the_row.coded };

    ghost view = { λ catalog. world_of catalog.devices.entries };

    ghost invariant = { λ catalog. AreOrderedDevices catalog.devices };
}

impl Catalog {
    /// A catalog without series.
    pub fn new(alloc: Global) -> Catalog
        ensures { result ≡ map.empty }
    {
        Catalog {
            devices: BTreeMap::new(alloc),
        }
    }

    /// The series of a device with this measurement.
    pub fn get(&self, device: &Path, name: &Name) -> Option<&Series>
        ensures { option_copied result ≡ series_of self.now device.now name.now }
    {
        name.sound();
        self.devices.get(device)?.get(name)
    }

    /// Adds a series that is not there.
    pub fn create(
        &mut self,
        alloc: Global,
        device: Path,
        name: Name,
        data_type: DataType,
    ) -> Result<(), Memory>
        requires { series_of self.old device name ≡ None }
        ensures created { OnOk result (self.new ≡ map.insert self.old (child_of device name) (new_series data_type)) }
        ensures memory { OnErr result (self.new ≡ self.old) }
    {
        name.sound();
        let series = Series::new(alloc, data_type);
        if let Some(names) = self.devices.get_mut(&device) {
            names.insert(name, series)?;
            return Ok(());
        }
        let mut names = BTreeMap::new(alloc);
        names.insert(name, series)?;
        self.devices.insert(device, names)?;
        Ok(())
    }

    /// Takes away a series, if it is there. It takes no memory.
    pub fn remove(&mut self, device: &Path, name: &Name)
        ensures { self.new ≡ map.remove self.old (child_of device.now name.now) }
    {
        name.sound();
        let Some(names) = self.devices.get_mut(device) else {
            return;
        };
        names.remove(name);
    }

    /// Puts a value at a time of a series that is there, or takes away the one that stands there, and returns that one.
    /// Only a new time takes memory.
    pub fn set(
        &mut self,
        device: &Path,
        name: &Name,
        time: Time,
        value: Option<Value>,
    ) -> Result<Option<Value>, Memory>
        requires { IsSome (series_of self.old device.now name.now) }
        ensures set { OnOk result (self.new ≡ change self.old (child_of device.now name.now) (set_at time value)) }
        ensures old { IfOk result (λ old. old ≡ value_at self.old (child_of device.now name.now) time) }
        ensures memory { OnErr result (self.new ≡ self.old) }
        ensures fits { IsNone value ⊎ IsSome (value_at self.old (child_of device.now name.now) time) → IsOk result }
    {
        name.sound();
        let Some(names) = self.devices.get_mut(device) else {
            return Ok(None);
        };
        let Some(series) = names.get_mut(name) else {
            return Ok(None);
        };
        series.set(time, value)
    }

    /// Removes the times in the range from a series that is there.
    pub fn cut(&mut self, device: &Path, name: &Name, range: &Range)
        requires { IsSome (series_of self.old device.now name.now) }
        ensures { self.new ≡ change self.old (child_of device.now name.now) (cut range.now) }
    {
        name.sound();
        let Some(names) = self.devices.get_mut(device) else {
            return;
        };
        let Some(series) = names.get_mut(name) else {
            return;
        };
        series.cut(range);
    }
}
