//! A query on one thread: a list of turns with reading between them. Depends on `pinning`, `reading` and tsdb_serving.
ghost use Rattle.std.specs.Prelude.{◌≡◌, ◌≢◌, ℕ, ◌≤◌, false, List, Option};
ghost use Rattle.tsdb_base.specs.Causes.{Rose};
ghost use Rattle.tsdb_base.specs.declared.answers.Answer.{Answer as AnswerOf};
ghost use Rattle.tsdb_model.specs.State as plain;
ghost use Rattle.tsdb_model.specs.declared.command.Command.{Command};
ghost use Rattle.tsdb_model.specs.declared.reply.Reply.{Reply as ReplyOf};
ghost use Rattle.tsdb_outside.specs.Files.{StoredFile};
ghost use Rattle.tsdb_serving.specs.Core.{next_of};
ghost use Rattle.tsdb_serving.specs.Flushing.{faults_under};
ghost use Rattle.tsdb_serving.specs.Loans.{CanServe, KeepsAll};
ghost use Rattle.tsdb_serving.specs.Serving.{ServesCommand as AreAnswered, IsServing, StaysInPlace};
ghost use Rattle.tsdb_serving.specs.Sweeping.{LeavesRead};
ghost use Rattle.tsdb_serving.specs.declared.loan.Loan.{Loan};

use crate::pinning::{pin, unpin};
use crate::reading::read_pin;
use std::alloc::Global;
use tsdb_base::Range;
use tsdb_model::{Item, Reply};
use tsdb_outside::{Files, Journal};
use tsdb_path::Path;
use tsdb_serving::{Core, sweep};

/// Reads items of a device over a range: the rows, or the aggregates where these are asked for.
///
/// Answers what the plain map does, `Device` where a file could not be read, and `Memory`. A query changes nothing: its
/// pin is given back whatever it answers. Then files on their way out that are not read are removed; one that cannot be
/// removed is passed over.
pub fn select<J: Journal, F: Files>(
    alloc: Global,
    core: &mut Core<J, F>,
    port: &mut F::Port,
    device: &Path,
    items: &[Item],
    range: &Range,
) -> Reply
    requires ready { CanServe (F.Port.store port.old) core.old }
    ensures answers { AreAnswered core.old core.new (Command.Select device.now items.now range.now) result }
    ensures swept { LeavesRead (F.Port.faults port.old) (F.Port.faults port.new) core.new }
    ensures keeps_all { KeepsAll (F.Port.store port.old) core.old core.new }
    ensures stays { StaysInPlace core.old core.new }
    ensures draws { next_of core.new ≡ next_of core.old }
    ensures no_full { (counter : ℕ) → result ≢ ReplyOf.Plain (AnswerOf.Full counter) }
    ensures same_store { F.Port.store port.new ≡ F.Port.store port.old }
    ensures cause { (loans : List (Loan _ _ _ _)) (files : List StoredFile) (at : plain.State)
        (next : Option plain.State) → IsServing loans core.old files at next → result ≡ ReplyOf.Plain AnswerOf.Device
        → Rose (F.Port.faults port.old) (F.Port.faults port.new) }
    ensures untold { (F.Port.store port.old).tells ≡ false → result ≡ ReplyOf.Plain AnswerOf.Device
        → Rose (F.Port.faults port.old) (F.Port.faults port.new) }
    ensures faults { faults_under core.new ≡ faults_under core.old }
    ensures later { F.Port.faults port.old ≤ F.Port.faults port.new }
{
    match pin(core, device, items, range) {
        Ok(pin) => {
            let reply = read_pin(alloc, &pin, port, items);
            unpin(core, port, pin);
            reply
        }
        Err(answer) => {
            sweep(core, port);
            Reply::Plain(answer)
        }
    }
}
