//! Copies of the points of a series in memory. Depends on `pin` and `sources`.
ghost use Rattle.std.specs.Prelude.{◌≡◌, ◌∷◌, ◌++◌, [], OnErr, OnOk};
ghost use Rattle.tsdb_memtable.specs.Pairs.{points_of};
ghost use Rattle.tsdb_base.specs.Points.{IsRising};
ghost use Rattle.tsdb_pin.specs.Sources.{AreRisingIn, AddsParts, pairs_in, parts_in};

use crate::pin::PinnedSource;
use crate::sources::push;
use std::alloc::Global;
use tsdb_base::{List, Memory, Range, SeriesId, Space, Stamp, copy_points};
use tsdb_fileset::MemoryStore;
use tsdb_memtable::Pair;
use tsdb_outside::Files;

/// Adds the points of the series in the range and the space of a pair as a source, where there are some.
fn take_part<F: Files>(
    alloc: Global,
    pair: &Pair,
    born: Stamp,
    space: Space,
    series: SeriesId,
    range: &Range,
    sources: &mut Vec<PinnedSource<F>>,
) -> Result<(), Memory>
    ensures ok { OnOk result (sources.new.items ≡ sources.old.items
        ++ parts_in space series.0 range.now (record { born = born.0; pair = pair.now } ∷ [])) }
    ensures memory { OnErr result (sources.new.items ≡ sources.old.items) }
    ensures rising { IsRising (points_of space series.0 pair.now) }
{
    let points = pair.slice(space, series, range);
    if points.is_empty() {
        return Ok(());
    }
    let points = List::of(copy_points(alloc, points)?);
    sources.reserve(1)?;
    push(sources, PinnedSource::Part { born, points });
    Ok(())
}

/// Adds the points of the series in the range and the space of each pair as a source, from the oldest pair to the
/// working one.
pub(crate) fn take_parts<F: Files>(
    alloc: Global,
    memory: &MemoryStore,
    space: Space,
    series: SeriesId,
    range: &Range,
    sources: &mut Vec<PinnedSource<F>>,
) -> Result<(), Memory>
    ensures ok { OnOk result (sources.new.items ≡ sources.old.items
        ++ parts_in space series.0 range.now (pairs_in memory.now)) }
    ensures rising { OnOk result (AreRisingIn space series.0 (pairs_in memory.now)) }
    ensures memory { OnErr result (AddsParts sources.old.items sources.new.items) }
{
    let pairs = memory.frozen();
    for one in pairs {
        take_part(alloc, one.pair(), one.born(), space, series, range, sources)?;
    }
    take_part(
        alloc,
        memory.working(),
        Stamp(memory.stamp()),
        space,
        series,
        range,
        sources,
    )
}
