//! The columns of a pin, each with the sources of its series. Depends on `items`, `parts`, `sources` and `returning`.
ghost use Rattle.std.specs.Prelude.{◌≡◌, OnErr, OnOk};
ghost use Rattle.tsdb_pin.specs.Pins.{AreColumnsTaken, IsColumnTaken, TakesSomeColumns};
ghost use Rattle.tsdb_pin.specs.Changes.{ChangesNoFile, TakesAll, TakesSomeSources};
ghost use Rattle.tsdb_pin.specs.Sources.{AreOfSpace, AreSourcesOf};

use crate::items::AskedSeries;
use crate::parts::take_parts;
use crate::pin::{Column, PinnedSource};
use crate::returning::give_back_sources;
use crate::sources::{push, take_files};
use std::alloc::Global;
use tsdb_base::{List, Memory, Range, Space};
use tsdb_fileset::{KeptFiles, MemoryStore};
use tsdb_outside::Files;

/// Adds the sources of a series in one space: the listed files that have it, and then the parts in memory.
fn take_space<F: Files>(
    alloc: Global,
    files: &mut KeptFiles<F>,
    memory: &MemoryStore,
    space: Space,
    asked: &AskedSeries,
    range: &Range,
    sources: &mut Vec<PinnedSource<F>>,
) -> Result<(), Memory>
    ensures ok { OnOk result (TakesAll F.Right.file
        (AreOfSpace F.Right.file space files.old memory.now asked.now.schema.path asked.now.id.0 range.now)
        files.old files.new sources.old.items sources.new.items) }
    ensures memory { OnErr result (TakesSomeSources F.Right.file files.old files.new sources.old.items sources.new.items) }
{
    take_files(files, space, &asked.schema.path, sources)?;
    take_parts(alloc, memory, space, asked.id, range, sources)
}

/// Adds the sources of a series, from the lowest priority to the highest.
fn take_sources<F: Files>(
    alloc: Global,
    files: &mut KeptFiles<F>,
    memory: &MemoryStore,
    asked: &AskedSeries,
    range: &Range,
    sources: &mut Vec<PinnedSource<F>>,
) -> Result<(), Memory>
    ensures ok { OnOk result (TakesAll F.Right.file
        (AreSourcesOf F.Right.file files.old memory.now asked.now.schema.path asked.now.id.0 range.now)
        files.old files.new sources.old.items sources.new.items) }
    ensures memory { OnErr result (TakesSomeSources F.Right.file files.old files.new sources.old.items sources.new.items) }
{
    take_space(alloc, files, memory, Space::Sequence, asked, range, sources)?;
    take_space(
        alloc,
        files,
        memory,
        Space::Unsequence,
        asked,
        range,
        sources,
    )
}

/// Adds the column of a series. Without memory nothing changes.
fn take_column<F: Files>(
    alloc: Global,
    files: &mut KeptFiles<F>,
    memory: &MemoryStore,
    asked: AskedSeries,
    range: &Range,
    columns: &mut Vec<Column<F>>,
) -> Result<(), Memory>
    ensures ok { OnOk result (IsColumnTaken F.Right.file memory.now range.now asked files.old files.new
        columns.old.items columns.new.items) }
    ensures memory { OnErr result (ChangesNoFile files.old files.new × (columns.new.items ≡ columns.old.items)) }
{
    columns.reserve(1)?;
    let mut sources = Vec::new(alloc);
    match take_sources(alloc, files, memory, &asked, range, &mut sources) {
        Ok(()) => {
            push(
                columns,
                Column {
                    schema: asked.schema,
                    aggregate: asked.aggregate,
                    sources: List::of(sources),
                },
            );
            Ok(())
        }
        Err(Memory) => {
            give_back_sources(files, sources);
            Err(Memory)
        }
    }
}

/// Adds the columns of the series, in their order.
pub(crate) fn take_columns<F: Files>(
    alloc: Global,
    files: &mut KeptFiles<F>,
    memory: &MemoryStore,
    all: Vec<AskedSeries>,
    range: &Range,
    columns: &mut Vec<Column<F>>,
) -> Result<(), Memory>
    ensures ok { OnOk result (AreColumnsTaken F.Right.file memory.now range.now all.items files.old files.new
        columns.old.items columns.new.items) }
    ensures memory { OnErr result (TakesSomeColumns F.Right.file files.old files.new columns.old.items
        columns.new.items) }
{
    for asked in all {
        take_column(alloc, files, memory, asked, range, columns)?;
    }
    Ok(())
}
