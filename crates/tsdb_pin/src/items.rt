//! The series of the items of a select. Depends on `pin`.
ghost use Rattle.std.specs.Prelude.{◌≡◌, IfOk};
ghost use Rattle.tsdb_fileset.specs.Model.{IsSoundMemory};
ghost use Rattle.tsdb_pin.specs.Items.{AreRead, IsItemFound, are_fit_with, is_unfit_for};

use crate::pin::PinFault;
use std::alloc::Global;
use tsdb_base::{Aggregate, DataType, Memory, SeriesId};
use tsdb_fileset::MemoryStore;
use tsdb_model::{Item, Schema};
use tsdb_path::{Path, PathFault};

/// The series that an item asks for: its number, its schema, and the aggregate.
#[derive(Drop)]
pub struct AskedSeries {
    pub(crate) id: SeriesId,
    pub(crate) schema: Schema,
    pub(crate) aggregate: Option<Aggregate>,
}

/// What an item is in a store.
#[derive(Drop)]
pub(crate) enum ItemFound {
    /// Its series is not there.
    Missing,
    /// Its series is there.
    Series(AskedSeries),
}

/// Whether an aggregate that only numbers have is asked of a type that has none.
fn is_unfit(aggregate: Option<Aggregate>, data_type: DataType) -> bool
    ensures { result ≡ is_unfit_for aggregate data_type }
{
    match aggregate {
        Some(aggregate) => {
            aggregate.needs_numbers() && matches!(data_type, DataType::Boolean | DataType::Text)
        }
        None => false,
    }
}

/// Whether all were fit, and this one is.
fn stay_fit(fit: bool, asked: &AskedSeries) -> bool
    ensures { result ≡ are_fit_with (is_unfit_for asked.now.aggregate asked.now.schema.data_type) fit }
{
    if is_unfit(asked.aggregate, asked.schema.data_type) {
        false
    } else {
        fit
    }
}

/// The series of the items of the device, in their order. Each is looked up once.
///
/// Refuses, as the plain map does, items of which one has a series that is not there as `NoPath`, and else those of
/// which one asks for what its series does not have as `WrongType`.
pub(crate) fn read_items(
    alloc: Global,
    memory: &MemoryStore,
    device: &Path,
    items: &[Item],
) -> Result<Result<Vec<AskedSeries>, PinFault>, Memory>
    ensures { IfOk result (AreRead memory.now.series device.now items.now) }
{
    // (it tells that the paths of all series are such, so that one which is too long is of none)
    memory.sound();
    let mut all = Vec::with_capacity(alloc, items.len())?;
    let mut fit = true;
    for item in items {
        match find_item(memory, device, item)? {
            ItemFound::Series(asked) => {
                fit = stay_fit(fit, &asked);
                all.push(asked)?;
            }
            ItemFound::Missing => return Ok(Err(PinFault::NoPath)),
        }
    }
    if fit {
        Ok(Ok(all))
    } else {
        Ok(Err(PinFault::WrongType))
    }
}

/// The series of an item.
fn find_item(memory: &MemoryStore, device: &Path, item: &Item) -> Result<ItemFound, Memory>
    requires { IsSoundMemory memory.now }
    ensures { IfOk result (IsItemFound memory.now.series device.now item.now) }
{
    let path = match device.child(&item.measurement) {
        Ok(path) => path,
        Err(fault) => {
            return match fault {
                PathFault::Memory => Err(Memory),
                _ => Ok(ItemFound::Missing),
            };
        }
    };
    let Some(series) = memory.series(&path) else {
        return Ok(ItemFound::Missing);
    };
    Ok(ItemFound::Series(AskedSeries {
        id: series.id,
        schema: Schema {
            path,
            data_type: series.data_type,
            encoding: series.encoding,
        },
        aggregate: item.aggregate,
    }))
}
