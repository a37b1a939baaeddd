//! One command. Depends on tsdb_serving, tsdb_querying and tsdb_rewriting.
ghost use Rattle.std.specs.Prelude.{◌≡◌, ◌≢◌, ℕ, true};
ghost use Rattle.tsdb_base.specs.declared.answers.Answer.{Answer as AnswerOf};
ghost use Rattle.tsdb_base.specs.declared.ids.Space.TheVariants.{Sequence as SequenceSpace};
ghost use Rattle.tsdb_querying.specs.Beginnings.{IsCrossRuns, IsInnerRuns};
ghost use Rattle.tsdb_querying.specs.Listings.{TellsStore};
ghost use Rattle.tsdb_history.specs.Reach.{max_drawn};
ghost use Rattle.tsdb_history.specs.Serves.{HasCompacted, HasFlushed};
ghost use Rattle.tsdb_model.specs.Commands.{IsWellFormed};
ghost use Rattle.tsdb_model.specs.declared.command.Command.{Command as CommandOf};
ghost use Rattle.tsdb_model.specs.declared.reply.Listing.{Listing};
ghost use Rattle.tsdb_model.specs.declared.reply.Reply.{Reply as ReplyOf};
ghost use Rattle.tsdb_base.specs.Causes.{Rose};
ghost use Rattle.tsdb_rewriting.specs.Rewriting.{IsCompacted};
ghost use Rattle.tsdb_querying.specs.Flushing.{HasCountedFault, Serves};
ghost use Rattle.tsdb_querying.specs.Loans.{CanServe};
ghost use Rattle.tsdb_querying.specs.Serving.{ServesCommand, HasFullCause, IsSure};
ghost use Rattle.tsdb_querying.specs.Sweeping.{LeavesRead, StaysRead};

use std::alloc::Global;
use tsdb_base::{Answer, Range, Space};
use tsdb_model::{Command, Item, Reply};
use tsdb_outside::{Files, Journal};
use tsdb_path::Path;
use tsdb_querying::{Core, create, delete, flush, insert, select, show};
use tsdb_rewriting::{compact_cross, compact_inner};

/// Serves a command: the core makes one step of the plain map, whatever it does for it.
pub fn serve<J: Journal, F: Files>(
    alloc: Global,
    core: &mut Core<J, F>,
    port: &mut F::Port,
    command: &Command,
) -> Reply
    requires well_formed { IsWellFormed command.now }
    requires ready { CanServe (F.Port.store port.old) core.old }
    ensures answers { (F.Port.store port.old).tells ≡ true → ServesCommand core.old core.new command.now result }
    ensures serves { Serves F.Port.store F.Port.faults port.old port.new core.old core.new max_drawn }
    ensures full { HasFullCause core.new result }
    ensures cause { IsSure (F.Port.store port.old) core.old → result ≡ ReplyOf.Plain AnswerOf.Device
        → HasCountedFault F.Port.faults port.old port.new core.old core.new }
    ensures flushed { command.now ≡ CommandOf.Flush → result ≡ ReplyOf.Plain AnswerOf.Done → HasFlushed core.new }
    ensures compacted { result ≡ ReplyOf.Plain AnswerOf.Done → HasCompacted command.now core.old core.new }
    ensures listed { (listing : Listing) → command.now ≡ CommandOf.ShowFiles → result ≡ ReplyOf.Files listing
        → TellsStore core.new listing }
    ensures shown { command.now ≡ CommandOf.ShowFiles → core.new ≡ core.old }
    ensures swept { StaysRead (F.Port.faults port.old) (F.Port.faults port.new) core.old core.new }
{
    match command {
        Command::Create(schema) => Reply::Plain(create(core, schema)),
        Command::Insert { device, row } => Reply::Plain(insert(alloc, core, port, device, row)),
        Command::Delete { series, range } => Reply::Plain(delete(core, series, range)),
        Command::Select {
            device,
            items,
            range,
        } => query(alloc, core, port, device, items.items(), range),
        Command::Flush => Reply::Plain(serve_flush(alloc, core, port)),
        Command::ShowFiles => serve_show(core),
        Command::CompactInner(space) => { Reply::Plain(serve_inner(alloc, core, port, *space)) }
        Command::CompactCross => Reply::Plain(serve_cross(alloc, core, port)),
    }
}

/// What a query is answered.
fn query<J: Journal, F: Files>(
    alloc: Global,
    core: &mut Core<J, F>,
    port: &mut F::Port,
    device: &Path,
    items: &[Item],
    range: &Range,
) -> Reply
    requires ready { CanServe (F.Port.store port.old) core.old }
    ensures answers { ServesCommand core.old core.new (CommandOf.Select device.now items.now range.now) result }
    ensures serves { Serves F.Port.store F.Port.faults port.old port.new core.old core.new 0 }
    ensures no_full { (counter : ℕ) → result ≢ ReplyOf.Plain (AnswerOf.Full counter) }
    ensures cause { IsSure (F.Port.store port.old) core.old → result ≡ ReplyOf.Plain AnswerOf.Device
        → Rose (F.Port.faults port.old) (F.Port.faults port.new) }
    ensures swept { LeavesRead (F.Port.faults port.old) (F.Port.faults port.new) core.new }
{
    select(alloc, core, port, device, items, range)
}

/// What a flush is answered.
fn serve_flush<J: Journal, F: Files>(
    alloc: Global,
    core: &mut Core<J, F>,
    port: &mut F::Port,
) -> Answer
    requires ready { CanServe (F.Port.store port.old) core.old }
    ensures answers { (F.Port.store port.old).tells ≡ true
        → ServesCommand core.old core.new CommandOf.Flush (ReplyOf.Plain result) }
    ensures serves { Serves F.Port.store F.Port.faults port.old port.new core.old core.new 6 }
    ensures full { HasFullCause core.new (ReplyOf.Plain result) }
    ensures cause { result ≡ AnswerOf.Device → HasCountedFault F.Port.faults port.old port.new core.old core.new }
    ensures flushed { result ≡ AnswerOf.Done → HasFlushed core.new }
    ensures swept { LeavesRead (F.Port.faults port.old) (F.Port.faults port.new) core.new }
{
    match flush(alloc, core, port) {
        Ok(()) => Answer::Done,
        Err(fault) => fault.answer(),
    }
}

/// What a compaction of one list is answered.
fn serve_inner<J: Journal, F: Files>(
    alloc: Global,
    core: &mut Core<J, F>,
    port: &mut F::Port,
    space: Space,
) -> Answer
    requires ready { CanServe (F.Port.store port.old) core.old }
    ensures answers { (F.Port.store port.old).tells ≡ true
        → ServesCommand core.old core.new (CommandOf.CompactInner space) (ReplyOf.Plain result) }
    ensures serves { Serves F.Port.store F.Port.faults port.old port.new core.old core.new 1 }
    ensures full { HasFullCause core.new (ReplyOf.Plain result) }
    ensures cause { IsSure (F.Port.store port.old) core.old → result ≡ AnswerOf.Device
        → HasCountedFault F.Port.faults port.old port.new core.old core.new }
    ensures compacted { result ≡ AnswerOf.Done → IsCompacted (IsInnerRuns space core.old) space core.old core.new }
    ensures swept { LeavesRead (F.Port.faults port.old) (F.Port.faults port.new) core.new }
{
    match compact_inner(alloc, core, port, space) {
        Ok(()) => Answer::Done,
        Err(fault) => fault.answer(),
    }
}

/// What a compaction of both lists is answered.
fn serve_cross<J: Journal, F: Files>(
    alloc: Global,
    core: &mut Core<J, F>,
    port: &mut F::Port,
) -> Answer
    requires ready { CanServe (F.Port.store port.old) core.old }
    ensures answers { (F.Port.store port.old).tells ≡ true
        → ServesCommand core.old core.new CommandOf.CompactCross (ReplyOf.Plain result) }
    ensures serves { Serves F.Port.store F.Port.faults port.old port.new core.old core.new 1 }
    ensures full { HasFullCause core.new (ReplyOf.Plain result) }
    ensures cause { IsSure (F.Port.store port.old) core.old → result ≡ AnswerOf.Device
        → HasCountedFault F.Port.faults port.old port.new core.old core.new }
    ensures compacted { result ≡ AnswerOf.Done → IsCompacted (IsCrossRuns core.old) SequenceSpace core.old core.new }
    ensures swept { LeavesRead (F.Port.faults port.old) (F.Port.faults port.new) core.new }
{
    match compact_cross(alloc, core, port) {
        Ok(()) => Answer::Done,
        Err(fault) => fault.answer(),
    }
}

/// What a listing is answered.
fn serve_show<J: Journal, F: Files>(core: &Core<J, F>) -> Reply
    ensures answers { ServesCommand core.now core.now CommandOf.ShowFiles result }
    ensures listed { (listing : Listing) → result ≡ ReplyOf.Files listing → TellsStore core.now listing }
    ensures no_fault { result ≢ ReplyOf.Plain AnswerOf.Device }
    ensures no_full { (counter : ℕ) → result ≢ ReplyOf.Plain (AnswerOf.Full counter) }
{
    match show(core) {
        Ok(listing) => Reply::Files(listing),
        Err(_memory) => Reply::Plain(Answer::Memory),
    }
}
