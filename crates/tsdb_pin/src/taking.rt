//! Taking a pin. Depends on `items`, `columns` and `returning`.
ghost use Rattle.std.specs.Prelude.{◌≡◌, IfOk, OnErr, map};
ghost use Rattle.std.specs.List.{filter};
ghost use Rattle.tsdb_marks.specs.Lists.{is_of};
ghost use Rattle.tsdb_pin.specs.Pins.{IsPinAnswer, IsPinFor, IsPinOver, IsPinTakenOrNot};
ghost use Rattle.tsdb_pin.specs.Changes.{ChangesNoFile};
ghost use Rattle.tsdb_pin.specs.StateOfPin.{IsPinOfState};

use crate::columns::take_columns;
use crate::items::{AskedSeries, read_items};
use crate::pin::{Pin, PinFault};
use crate::returning::give_back_columns;
use std::alloc::Global;
use tsdb_base::{List, Memory, Range, Stamp};
use tsdb_fileset::{KeptFiles, MemoryStore};
use tsdb_marks::Marks;
use tsdb_model::Item;
use tsdb_outside::Files;
use tsdb_path::Path;

/// The marks of the series.
fn marks_of(alloc: Global, memory: &MemoryStore, all: &[AskedSeries]) -> Result<Marks, Memory>
    ensures { IfOk result (λ marks. marks.marks
        ≡ filter (is_of (map (λ asked. asked.schema.path) all.now)) memory.now.marks.marks) }
{
    let mut paths = Vec::with_capacity(alloc, all.len())?;
    for asked in all {
        paths.push(asked.schema.path.copy()?)?;
    }
    memory.marks().only(&paths)
}

/// Takes a pin of the items of the device in the range: rights on the listed files that have their series, copies of
/// the points in memory that are in the range, and the marks of their series. Without memory nothing changes.
///
/// Refuses, as the plain map does, items of which one has a series that is not there as `NoPath`, and else those of
/// which one asks for the least or the greatest value of booleans or texts as `WrongType`.
pub fn take_pin<F: Files>(
    alloc: Global,
    files: &mut KeptFiles<F>,
    memory: &MemoryStore,
    device: &Path,
    items: &[Item],
    range: &Range,
) -> Result<Pin<F>, PinFault>
    ensures answer { IsPinAnswer memory.now device.now items.now result }
    ensures pin { IfOk result (IsPinFor F.Right.file files.old memory.now device.now items.now range.now) }
    ensures rights { IsPinTakenOrNot F.Right.file files.old files.new result }
    ensures state { IfOk result (IsPinOfState files.old files.new memory.now) }
{
    // (these tell that each listed file is kept, and what holds of the series)
    files.sound();
    memory.sound();
    match read_items(alloc, memory, device, items) {
        Ok(Ok(all)) => match take_all(alloc, files, memory, all, range) {
            Ok(pin) => Ok(pin),
            Err(Memory) => Err(PinFault::Memory),
        },
        Ok(Err(fault)) => Err(fault),
        Err(Memory) => Err(PinFault::Memory),
    }
}

/// Takes a pin of the series. Without memory nothing changes.
fn take_all<F: Files>(
    alloc: Global,
    files: &mut KeptFiles<F>,
    memory: &MemoryStore,
    all: Vec<AskedSeries>,
    range: &Range,
) -> Result<Pin<F>, Memory>
    ensures ok { IfOk result (IsPinOver F.Right.file memory.now range.now all.items files.old files.new) }
    ensures memory { OnErr result (ChangesNoFile files.old files.new) }
{
    let marks = marks_of(alloc, memory, &all)?;
    let mut columns = Vec::new(alloc);
    match take_columns(alloc, files, memory, all, range, &mut columns) {
        Ok(()) => Ok(Pin {
            stamp: Stamp(memory.stamp()),
            range: *range,
            marks,
            columns: List::of(columns),
        }),
        Err(Memory) => {
            give_back_columns(files, columns);
            Err(Memory)
        }
    }
}
