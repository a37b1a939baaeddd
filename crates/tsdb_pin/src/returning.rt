//! Giving the rights of a pin back. Depends on `pin`.
ghost use Rattle.tsdb_pin.specs.Pins.{AreColumnsHeld};
ghost use Rattle.tsdb_pin.specs.Changes.{GivesRights, column_numbers};
ghost use Rattle.tsdb_pin.specs.StateOfPin.{LeavesState};
ghost use Rattle.tsdb_pin.specs.Sources.{AreHeldIn, IsHeldIn, numbers_in, source_numbers};

use crate::pin::{Column, Pin, PinnedSource};
use tsdb_fileset::KeptFiles;
use tsdb_outside::Files;

/// Gives the right of a source back, where it has one.
fn give_back_source<F: Files>(files: &mut KeptFiles<F>, source: PinnedSource<F>)
    requires { IsHeldIn F.Right.file files.old source }
    ensures { GivesRights (source_numbers source) files.old files.new }
{
    match source {
        PinnedSource::File {
            number,
            born: _,
            right,
        } => files.give_back(number, right),
        PinnedSource::Part { born: _, points: _ } => (),
    }
}

/// Gives the rights of sources back.
pub(crate) fn give_back_sources<F: Files>(
    files: &mut KeptFiles<F>,
    mut sources: Vec<PinnedSource<F>>,
)
    requires { AreHeldIn F.Right.file files.old sources.items }
    ensures { GivesRights (numbers_in sources.items) files.old files.new }
{
    for _ in 0..sources.len() {
        match sources.pop() {
            Some(source) => give_back_source(files, source),
            None => unreachable!(),
        }
    }
    sources.destroy_empty();
}

/// Gives the rights of columns back.
pub(crate) fn give_back_columns<F: Files>(files: &mut KeptFiles<F>, mut columns: Vec<Column<F>>)
    requires { AreColumnsHeld F.Right.file files.old columns.items }
    ensures { GivesRights (column_numbers columns.items) files.old files.new }
{
    for _ in 0..columns.len() {
        match columns.pop() {
            Some(column) => give_back_column(files, column),
            None => unreachable!(),
        }
    }
    columns.destroy_empty();
}

/// Gives the rights of a column back.
fn give_back_column<F: Files>(files: &mut KeptFiles<F>, column: Column<F>)
    requires { AreHeldIn F.Right.file files.old column.sources }
    ensures { GivesRights (numbers_in column.sources) files.old files.new }
{
    let Column {
        schema: _,
        aggregate: _,
        sources,
    } = column;
    give_back_sources(files, sources.into_vec());
}

/// Gives the rights of a pin back. It takes no memory.
pub fn give_back<F: Files>(files: &mut KeptFiles<F>, pin: Pin<F>)
    requires { AreColumnsHeld F.Right.file files.old pin.columns }
    ensures rights { GivesRights (column_numbers pin.columns) files.old files.new }
    ensures state { LeavesState files.old files.new pin }
{
    let Pin {
        stamp: _,
        range: _,
        marks: _,
        columns,
    } = pin;
    give_back_columns(files, columns.into_vec());
}
