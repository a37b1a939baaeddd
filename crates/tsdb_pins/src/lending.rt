//! The sources of a column, lent to its stream.
ghost use Rattle.std.specs.List.{AllZip};
ghost use Rattle.std.specs.Prelude.{IfOk};
ghost use Rattle.tsdb_pins.specs.Reading.{IsLentAs};

use std::alloc::Global;
use tsdb_base::Memory;
use tsdb_outside::Files;
use tsdb_pin::PinnedSource;
use tsdb_streams::StreamSource;

/// A source, lent.
fn lend_one<F: Files>(source: &PinnedSource<F>) -> StreamSource<'_, F::Right>
    ensures { IsLentAs source.now result }
{
    match source {
        PinnedSource::File { right, born, .. } => StreamSource::File { right, born: *born },
        PinnedSource::Part { points, born } => StreamSource::Part {
            points: points.items(),
            born: *born,
        },
    }
}

/// The sources, lent in their order.
pub(crate) fn lend<'a, F: Files>(
    alloc: Global,
    sources: &'a [PinnedSource<F>],
) -> Result<Vec<StreamSource<'a, F::Right>>, Memory>
    ensures { IfOk result (λ lent. AllZip IsLentAs sources.now lent.items) }
{
    let mut lent = Vec::with_capacity(alloc, sources.len())?;
    for source in sources {
        lent.push(lend_one(source))?;
    }
    Ok(lent)
}
