//! The inputs of a job as the sources of streams. Depends on tsdb_compactions and tsdb_streams.
ghost use Rattle.std.specs.List.{AllByRecursion as Each, AllZip};
ghost use Rattle.std.specs.Prelude.{◌≡◌, ◌≤◌, ◌⊎◌, IfOk};
ghost use Rattle.tsdb_base.specs.Causes.{Rose};
ghost use Rattle.tsdb_streams.specs.Files.{HasReason};
ghost use Rattle.tsdb_inner.specs.Inputs.{IsInputOf, IsOpenedAs, IsWholeInput, TellsBytes};

use std::alloc::Global;
use tsdb_compactions::Input;
use tsdb_outside::{Files, Port, StoreFault};
use tsdb_streams::{IndexedFile, open_index};

/// Reads the index of an input.
fn open_input<'a, F: Files>(
    alloc: Global,
    input: &'a Input<F>,
    port: &mut F::Port,
) -> Result<IndexedFile<'a, F::Right>, StoreFault>
    requires of_store { IsInputOf F.Right.file (F.Port.store port.old) input.now }
    ensures opened { IfOk result (IsOpenedAs F.Right.file input.now) }
    ensures reason { HasReason (IsWholeInput F.Right.file input.now) (F.Port.faults port.old)
        (F.Port.faults port.new) result }
    ensures later { F.Port.faults port.old ≤ F.Port.faults port.new }
    ensures same_store { F.Port.store port.new ≡ F.Port.store port.old }
{
    open_index(alloc, &input.right, input.born, port)
}

/// Reads the index of each input, in their order. Streams of all series are opened over these.
pub(crate) fn open_inputs<'a, F: Files>(
    alloc: Global,
    inputs: &'a [Input<F>],
    port: &mut F::Port,
) -> Result<Vec<IndexedFile<'a, F::Right>>, StoreFault>
    requires of_store { Each (IsInputOf F.Right.file (F.Port.store port.old)) inputs.now }
    ensures opened { IfOk result (λ files. AllZip (IsOpenedAs F.Right.file) inputs.now files.items) }
    ensures reason { HasReason (Each (IsWholeInput F.Right.file) inputs.now)
        (F.Port.faults port.old) (F.Port.faults port.new) result }
    ensures later { F.Port.faults port.old ≤ F.Port.faults port.new }
    ensures same_store { F.Port.store port.new ≡ F.Port.store port.old }
{
    let mut files = Vec::with_capacity(alloc, inputs.len())?;
    for input in inputs {
        files.push(open_input(alloc, input, port)?)?;
    }
    Ok(files)
}

/// Counts that the inputs are damaged.
pub(crate) fn count_damage<F: Files>(inputs: &[Input<F>], port: &mut F::Port)
    ensures counted { Each (TellsBytes F.Right.file) inputs.now
        ⊎ Rose (F.Port.faults port.old) (F.Port.faults port.new) }
    ensures later { F.Port.faults port.old ≤ F.Port.faults port.new }
    ensures same_store { F.Port.store port.new ≡ F.Port.store port.old }
{
    for input in inputs {
        port.spoiled(&input.right, 0);
    }
}
