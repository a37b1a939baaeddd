//! What is read of a pin, which needs nothing but the pin and a port. Depends on tsdb_pin and tsdb_pins.
ghost use Rattle.std.specs.Prelude.{◌≡◌, ◌≤◌, ℕ, false, IfOk, List};
ghost use Rattle.tsdb_base.specs.Causes.{Rose};
ghost use Rattle.tsdb_base.specs.declared.answers.Answer.{Answer as AnswerOf};
ghost use Rattle.tsdb_base.specs.declared.point.Range.{Range};
ghost use Rattle.tsdb_model.specs.Apply.{reply_of};
ghost use Rattle.tsdb_model.specs.Folds.{rows};
ghost use Rattle.tsdb_model.specs.World.{World};
ghost use Rattle.tsdb_model.specs.declared.command.Command.{Command};
ghost use Rattle.tsdb_model.specs.declared.reply.Reply.{Reply as ReplyOf};
ghost use Rattle.tsdb_pin.specs.StateOfPin.{IsPinOf};
ghost use Rattle.tsdb_pins.specs.Files.{HasReason};
ghost use Rattle.tsdb_pins.specs.Reading.{AreColumnsOf, AreColumnsTold, AreColumnsTrue, HaveNodes, SeriesPages};
ghost use Rattle.tsdb_pins.specs.Reading.{TellPoints};
ghost use Rattle.tsdb_pins.specs.Replies.{IsMapPin};
ghost use Rattle.tsdb_pins.specs.Worlds.{columns_in, values_in};
ghost use Rattle.tsdb_querying.specs.Answers;
ghost use Rattle.tsdb_querying.specs.Pinning.{HasRead, IsReadReply, TellsWorld};
ghost use Rattle.tsdb_state.specs.State as state;
ghost use Rattle.tsdb_state.specs.Steps.{PinStandsFor};

use std::alloc::Global;
use std::marker::Brand;
use std::sync::ledger::{Blank, Ledger};
use tsdb_base::{Answer, Figure, List, Steps};
use tsdb_model::{Item, Reply, ask_aggregates};
use tsdb_outside::{Files, StoreFault};
use tsdb_pin::Pin;

/// Reads what a pin has of these items: a line for each time at which one has a value, or, where aggregates are asked for,
/// a figure or none for each item. Answers `Device` where a file could not be read, and `Memory`.
pub fn read_pin<F: Files>(alloc: Global, pin: &Pin<F>, port: &mut F::Port, items: &[Item]) -> Reply
    requires nodes { HaveNodes pin.now.columns }
    requires of_store { AreColumnsOf F.Right.file (F.Port.store port.old) pin.now.columns }
    ensures read { (device : List ℕ) (range : Range) (world : World) → TellsWorld F.Right.file pin.now world
        → IsMapPin world device items.now range pin.now
        → HasRead (reply_of world (Command.Select device items.now range)) result }
    ensures kind { IsReadReply result }
    ensures cause { (world : World) → TellsWorld F.Right.file pin.now world → result ≡ ReplyOf.Plain AnswerOf.Device
        → Rose (F.Port.faults port.old) (F.Port.faults port.new) }
    ensures untold { (F.Port.store port.old).tells ≡ false → result ≡ ReplyOf.Plain AnswerOf.Device
        → Rose (F.Port.faults port.old) (F.Port.faults port.new) }
    ensures later { F.Port.faults port.old ≤ F.Port.faults port.new }
    ensures same_store { F.Port.store port.new ≡ F.Port.store port.old }
{
    if ask_aggregates(items) {
        return read_values(alloc, pin, port);
    }
    read_rows(alloc, pin, port)
}

/// The rows of a pin.
fn read_rows<F: Files>(alloc: Global, pin: &Pin<F>, port: &mut F::Port) -> Reply
    requires nodes { HaveNodes pin.now.columns }
    requires of_store { AreColumnsOf F.Right.file (F.Port.store port.old) pin.now.columns }
    ensures read { (world : World) → TellsWorld F.Right.file pin.now world
        → HasRead (ReplyOf.Lines (rows (columns_in world pin.now.range pin.now.columns))) result }
    ensures kind { IsReadReply result }
    ensures cause { (world : World) → TellsWorld F.Right.file pin.now world → result ≡ ReplyOf.Plain AnswerOf.Device
        → Rose (F.Port.faults port.old) (F.Port.faults port.new) }
    ensures untold { (F.Port.store port.old).tells ≡ false → result ≡ ReplyOf.Plain AnswerOf.Device
        → Rose (F.Port.faults port.old) (F.Port.faults port.new) }
    ensures later { F.Port.faults port.old ≤ F.Port.faults port.new }
    ensures same_store { F.Port.store port.new ≡ F.Port.store port.old }
{
    match tsdb_pins::select(alloc, pin, port) {
        Ok(lines) => Reply::Lines(List::of(lines)),
        Err(fault) => Reply::Plain(answer_to(fault)),
    }
}

/// The values of a pin.
fn read_values<F: Files>(alloc: Global, pin: &Pin<F>, port: &mut F::Port) -> Reply
    requires nodes { HaveNodes pin.now.columns }
    requires of_store { AreColumnsOf F.Right.file (F.Port.store port.old) pin.now.columns }
    ensures read { (world : World) → TellsWorld F.Right.file pin.now world
        → HasRead (ReplyOf.Values (values_in world pin.now.range pin.now.columns)) result }
    ensures kind { IsReadReply result }
    ensures cause { (world : World) → TellsWorld F.Right.file pin.now world → result ≡ ReplyOf.Plain AnswerOf.Device
        → Rose (F.Port.faults port.old) (F.Port.faults port.new) }
    ensures untold { (F.Port.store port.old).tells ≡ false → result ≡ ReplyOf.Plain AnswerOf.Device
        → Rose (F.Port.faults port.old) (F.Port.faults port.new) }
    ensures later { F.Port.faults port.old ≤ F.Port.faults port.new }
    ensures same_store { F.Port.store port.new ≡ F.Port.store port.old }
{
    match fold_columns::<F, Brand>(alloc, pin, port, Blank::new(1)) {
        Ok(values) => Reply::Values(List::of(values)),
        Err(fault) => Reply::Plain(answer_to(fault)),
    }
}

/// The aggregates of a pin, read with a count of pages that nobody looks at.
fn fold_columns<F: Files, L: Ledger>(
    alloc: Global,
    pin: &Pin<F>,
    port: &mut F::Port,
    blank: Blank,
) -> Result<Vec<Option<Figure>>, StoreFault>
    requires name { blank.name ≡ L.name }
    requires parts { blank.parts ≡ L.parts }
    requires one { blank.parts ≡ 1 }
    requires nodes { HaveNodes pin.now.columns }
    requires of_store { AreColumnsOf F.Right.file (F.Port.store port.old) pin.now.columns }
    ensures values { (pages : SeriesPages) → AreColumnsTrue F.Right.file pages pin.now.columns
        → IfOk result (λ values. (told : state.ToldContents) (shown : state.PinState) (world : World)
        → TellPoints F.Right.file pages told pin.now.columns → IsPinOf pin.now shown → PinStandsFor told shown world
        → values.items ≡ values_in world pin.now.range pin.now.columns) }
    ensures reason { (pages : SeriesPages) → AreColumnsTrue F.Right.file pages pin.now.columns
        → HasReason (AreColumnsTold F.Right.file pages pin.now.columns)
        (F.Port.faults port.old) (F.Port.faults port.new) result }
    ensures later { F.Port.faults port.old ≤ F.Port.faults port.new }
    ensures same_store { F.Port.store port.new ≡ F.Port.store port.old }
{
    let mut pages = Steps::<L>::new(blank);
    tsdb_pins::aggregates(alloc, pin, port, &mut pages)
}

/// The answer to a query whose files could not be read.
fn answer_to(fault: StoreFault) -> Answer
    ensures { result ≡ Answers.answer_to fault }
{
    match fault {
        StoreFault::Failed => Answer::Device,
        StoreFault::Memory => Answer::Memory,
    }
}
