//! The turns of a query: a pin is taken, and given back. Depends on tsdb_pin and tsdb_serving.
ghost use Rattle.std.specs.Prelude.{◌≡◌, ◌≤◌, IfErr, IfOk, OnErr};
ghost use Rattle.tsdb_memory.specs.LogState.{memory_of};
ghost use Rattle.tsdb_model.specs.declared.command.Command.{Command};
ghost use Rattle.tsdb_model.specs.declared.reply.Reply.{Reply as ReplyOf};
ghost use Rattle.tsdb_pin.specs.Pins.{AreColumnsHeld};
ghost use Rattle.tsdb_querying.specs.Answers as answers;
ghost use Rattle.tsdb_querying.specs.Pinning.{IsRefused, LendsPin};
ghost use Rattle.tsdb_serving.specs.Core.{files_of, logged_of, store_of};
ghost use Rattle.tsdb_serving.specs.Flushing.{EndsLoan, StaysIdle};
ghost use Rattle.tsdb_serving.specs.Serving.{KeepsWithout, ServesCommand};
ghost use Rattle.tsdb_serving.specs.Sweeping.{LeavesRead};
ghost use Rattle.tsdb_serving.specs.declared.loan.Loan.{Loan as LoanOf};

use tsdb_base::{Answer, Range};
use tsdb_model::Item;
use tsdb_outside::{Files, Journal};
use tsdb_path::Path;
use tsdb_pin::{Pin, PinFault};
use tsdb_serving::{Core, sweep};

/// Takes a pin of the items of the device in the range, which stands for the world of now, whatever comes later.
///
/// Refuses, as the plain map does, items of which one has a series that is not there as `NoPath`, and else those of
/// which one asks for the least or the greatest value of booleans or texts as `WrongType`. Answers `Memory`, after which
/// nothing has changed.
pub fn pin<J: Journal, F: Files>(
    core: &mut Core<J, F>,
    device: &Path,
    items: &[Item],
    range: &Range,
) -> Result<Pin<F>, Answer>
    ensures refused { IfErr result (IsRefused (memory_of (logged_of core.old)) device.now items.now) }
    ensures answers { IfErr result (λ answer.
        ServesCommand core.old core.new (Command.Select device.now items.now range.now) (ReplyOf.Plain answer)) }
    ensures not { OnErr result (StaysIdle core.old core.new) }
    ensures taken { IfOk result (LendsPin F.Right.file device.now items.now range.now core.old core.new) }
{
    match core.pin(device, items, range) {
        Ok(pin) => {
            // (it tells that the kept files, and so the rights of the pin, are of the store of the core)
            core.sound();
            Ok(pin)
        }
        Err(fault) => Err(refusal_of(fault)),
    }
}

/// The answer to a query of which no pin was taken.
fn refusal_of(fault: PinFault) -> Answer
    ensures { result ≡ answers.refusal_of fault }
{
    match fault {
        PinFault::NoPath => Answer::NoPath,
        PinFault::WrongType => Answer::WrongType,
        PinFault::Memory => Answer::Memory,
    }
}

/// Gives a pin back, with all its rights. Then files on their way out that are not read are removed; one that cannot be
/// removed is passed over. It takes no memory.
pub fn unpin<J: Journal, F: Files>(core: &mut Core<J, F>, port: &mut F::Port, pin: Pin<F>)
    requires held { AreColumnsHeld F.Right.file (files_of core.old) pin.columns }
    requires store { F.Port.store port.old ≡ store_of core.old }
    ensures ends { EndsLoan F.Right.file (F.Port.store port.old) (LoanOf.Pin pin) core.old core.new }
    ensures log { logged_of core.new ≡ logged_of core.old }
    ensures keeps { KeepsWithout (LoanOf.Pin pin) core.old core.new }
    ensures swept { LeavesRead (F.Port.faults port.old) (F.Port.faults port.new) core.new }
    ensures same_store { F.Port.store port.new ≡ F.Port.store port.old }
    ensures later { F.Port.faults port.old ≤ F.Port.faults port.new }
{
    core.unpin(pin);
    sweep(core, port);
}
