//! The hulls of devices, entry by entry. Depends on tsdb_base, tsdb_index, tsdb_plan and tsdb_flush.
ghost use Rattle.std.specs.Prelude.{OnOk};
ghost use Rattle.tsdb_recover.specs.DescribedSteps.{AddsHull};

use tsdb_base::Memory;
use tsdb_flush::{ends_in, widen};
use tsdb_index::IndexEntry;
use tsdb_plan::Hull;

/// Adds the times of an entry, which comes behind those before: to the last hull, where that is of its device, or in a
/// hull of its own.
pub(crate) fn add_hull(hulls: &mut Vec<Hull>, entry: &IndexEntry) -> Result<(), Memory>
    ensures { OnOk result (AddsHull entry.now hulls.old.items hulls.new.items) }
{
    let (from, to) = (entry.stats.start, entry.stats.end);
    if ends_in(hulls, &entry.device) {
        let last = hulls.len() - 1;
        widen(&mut hulls[last], from, to);
    } else {
        let device = entry.device.copy()?;
        hulls.push(Hull { device, from, to })?;
    }
    Ok(())
}
