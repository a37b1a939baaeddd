//! The series that have a point in a pair, in the order of a tree. Depends on tsdb_memory and tsdb_memtable.
ghost use Rattle.std.specs.Prelude.{◌≡◌, ◌<◌, All, IfOk, length, map};
ghost use Rattle.std.specs.List.{list_any};
ghost use Rattle.tsdb_flush.specs.TakingSteps.{AreNumbersOf, AreSeriesOf, HasNumbers, IsSeriesOf, pair_names};
ghost use Rattle.tsdb_flush.specs.TakingSteps.{has_points, pair_points_in, schema_in};
ghost use Rattle.tsdb_memory.specs.Model.{HasKnownSeries, IsFormed};
ghost use Rattle.tsdb_path.specs.Order.{AreInNameOrder};

use std::alloc::Global;
use tsdb_base::{DataType, Encoding, List, Memory, Point, SeriesId, Space};
use tsdb_memory::MemoryStore;
use tsdb_memtable::Pair;
use tsdb_model::Schema;
use tsdb_path::{Path, series_names};

/// A series that has a point in a pair: its number, its schema, its names, by which a tree is ordered (the bytes of the
/// device, and the measurement), and its points in both spaces.
#[derive(Clone, Copy)]
pub(crate) struct PairSeries<'a> {
    id: SeriesId,
    path: &'a Path,
    data_type: DataType,
    encoding: Encoding,
    names: (&'a [u8], &'a [u8]),
    sequence: &'a [Point],
    unsequence: &'a [Point],
}

impl<'a> PairSeries<'a> {
    /// Its points in the space.
    fn points(&self, space: Space) -> &'a [Point]
        ensures { result.now ≡ pair_points_in space self.now }
    {
        match space {
            Space::Sequence => self.sequence,
            Space::Unsequence => self.unsequence,
        }
    }
}

/// Whether one of the series has a point in the space.
pub(crate) fn has_point(series: &[PairSeries<'_>], space: Space) -> bool
    ensures { result ≡ list_any (has_points space) series.now }
{
    series.iter().any(|one| !one.points(space).is_empty())
}

/// The series with this number.
fn series_at<'a>(memory: &'a MemoryStore, pair: &'a Pair, id: SeriesId) -> PairSeries<'a>
    requires formed { All IsFormed memory.now.series }
    requires there { id.0 < length memory.now.series }
    ensures of { IsSeriesOf memory.now.series pair.now result }
    ensures id { result.id ≡ id }
{
    let Some((path, data_type, encoding)) = memory.schema(id) else {
        unreachable!()
    };
    PairSeries {
        id,
        path,
        data_type,
        encoding,
        names: series_names(path),
        sequence: pair.points_of(Space::Sequence, id),
        unsequence: pair.points_of(Space::Unsequence, id),
    }
}

/// The numbers of the series that have a point in the pair. Those with points in both spaces are there twice.
fn numbers(pair: &Pair) -> Result<Vec<SeriesId>, Memory>
    ensures { IfOk result (λ all. AreNumbersOf pair.now all.items) }
{
    let mut all = pair.series(Space::Sequence)?;
    // (mostly no point is late, and then no second walk is needed)
    if pair.points(Space::Unsequence) > 0 {
        all.append(&mut pair.series(Space::Unsequence)?)?;
    }
    Ok(all)
}

/// The series that have a point in the pair. Those with points in both spaces are there twice.
fn series<'a>(memory: &'a MemoryStore, pair: &'a Pair) -> Result<Vec<PairSeries<'a>>, Memory>
    requires formed { All IsFormed memory.now.series }
    requires known { HasKnownSeries memory.now.series pair.now }
    ensures { IfOk result (λ all. AreSeriesOf memory.now.series pair.now all.items) }
{
    let numbers = numbers(pair)?;
    let mut all = Vec::with_capacity(*numbers.allocator(), numbers.len())?;
    for id in &numbers {
        all.push(series_at(memory, pair, *id))?;
    }
    Ok(all)
}

/// The series that have a point in the pair, each once, in the order of a tree.
pub(crate) fn series_in_order<'a>(
    memory: &'a MemoryStore,
    pair: &'a Pair,
) -> Result<Vec<PairSeries<'a>>, Memory>
    requires formed { All IsFormed memory.now.series }
    requires known { HasKnownSeries memory.now.series pair.now }
    requires once { HasNumbers memory.now.series }
    ensures all { IfOk result (λ all. AreSeriesOf memory.now.series pair.now all.items) }
    ensures order { IfOk result (λ all. AreInNameOrder pair_names all.items) }
{
    let mut all = series(memory, pair)?;
    all.sort_unstable_by_key(|series| series.names);
    all.dedup_by_key(|series| series.names);
    Ok(all)
}

/// The numbers of the series.
pub(crate) fn numbers_of(alloc: Global, series: &[PairSeries<'_>]) -> Result<List<SeriesId>, Memory>
    ensures { IfOk result (λ numbers. numbers ≡ map (λ one. one.id) series.now) }
{
    let mut numbers = Vec::with_capacity(alloc, series.len())?;
    for one in series {
        numbers.push(one.id)?;
    }
    Ok(List::of(numbers))
}

/// The schema of the series.
fn schema_of(series: &PairSeries<'_>) -> Result<Schema, Memory>
    ensures { IfOk result (λ schema. schema ≡ schema_in series.now) }
{
    Ok(Schema {
        path: series.path.copy()?,
        data_type: series.data_type,
        encoding: series.encoding,
    })
}

/// The schemas of the series.
pub(crate) fn schemas_of(alloc: Global, series: &[PairSeries<'_>]) -> Result<List<Schema>, Memory>
    ensures { IfOk result (λ schemas. schemas ≡ map schema_in series.now) }
{
    let mut schemas = Vec::with_capacity(alloc, series.len())?;
    for one in series {
        schemas.push(schema_of(one)?)?;
    }
    Ok(List::of(schemas))
}
