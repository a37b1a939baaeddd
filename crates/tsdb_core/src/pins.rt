//! The pins of a core: one is taken, and later given back. Depends on `engine` and tsdb_pin.
ghost use Rattle.std.specs.Prelude.{IfOk, OnErr};

use crate::engine::Core;
use tsdb_base::Range;
use tsdb_model::Item;
use tsdb_outside::{Files, Journal};
use tsdb_path::Path;
use tsdb_tasks::{Pin, PinFault, give_back, take_pin};

impl<J: Journal, F: Files> Core<J, F> {
    ghost use Rattle.tsdb_core.specs.Core.{files_of, logged_of};
    ghost use Rattle.tsdb_core.specs.Pins.{IsNotPinned, IsPinned, IsUnpinned};
    ghost use Rattle.tsdb_core.specs.Worlds.{CoreKeepsWorld};
    ghost use Rattle.tsdb_memory.specs.LogState.{memory_of};
    ghost use Rattle.tsdb_tasks.specs.Pins.{AreColumnsHeld, IsPinAnswer, IsPinFor};

    /// Takes a pin of the items of the device in the range, which reads this state whatever comes later. It has rights on
    /// the listed files that have their series, copies of the points in memory that are in the range, and the marks of
    /// their series. Without memory nothing changes.
    ///
    /// Refuses, as the plain map does, items of which one has a series that is not there as `NoPath`, and else those of
    /// which one asks for the least or the greatest value of booleans or texts as `WrongType`.
    pub fn pin(&mut self, device: &Path, items: &[Item], range: &Range) -> Result<Pin<F>, PinFault>
        ensures answer { IsPinAnswer (memory_of (logged_of self.old)) device.now items.now result }
        ensures pin { IfOk result (IsPinFor F.Right.file (files_of self.old) (memory_of (logged_of self.old)) device.now
            items.now range.now) }
        ensures taken { IfOk result (IsPinned F.Right.file self.old self.new) }
        ensures not { OnErr result (IsNotPinned self.old self.new) }
        ensures world { CoreKeepsWorld self.old self.new }
    {
        take_pin(
            self.alloc,
            &mut self.files,
            self.logged.memory(),
            device,
            items,
            range,
        )
    }

    /// Gives a pin back, with all its rights. It takes no memory.
    pub fn unpin(&mut self, pin: Pin<F>)
        requires { AreColumnsHeld F.Right.file (files_of self.old) pin.columns }
        ensures { IsUnpinned self.old self.new pin }
    {
        give_back(&mut self.files, pin);
    }
}
