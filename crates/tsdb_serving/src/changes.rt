//! Changes of a user, each the work of one turn: a series is created, a row written, points deleted. Depends on
//! `flushing` and tsdb_core.
ghost use Rattle.std.specs.Prelude.{◌≡◌, ◌≤◌, IfErr, OnOk, true};
ghost use Rattle.tsdb_core.specs.Commands.{DeletesPoints};
ghost use Rattle.tsdb_core.specs.Core.{files_of, logged_of, next_of};
ghost use Rattle.tsdb_core.specs.Out.{HandsOn};
ghost use Rattle.tsdb_core.specs.Rows.{CountsRow, NeedsFlush};
ghost use Rattle.tsdb_base.specs.declared.answers.Answer.{Answer as AnswerOf};
ghost use Rattle.tsdb_memory.specs.Answers.{IsCreateAnswer, IsDeleteAnswer};
ghost use Rattle.tsdb_memory.specs.Changes.{HasCreated, MemoryAfter};
ghost use Rattle.tsdb_memory.specs.LogState.{memory_of};
ghost use Rattle.tsdb_model.specs.Commands.{IsRow, IsSchema};
ghost use Rattle.tsdb_model.specs.declared.command.Command.{Command};
ghost use Rattle.tsdb_model.specs.declared.reply.Reply.{Reply};
ghost use Rattle.tsdb_base.specs.Causes.{Rose};
ghost use Rattle.tsdb_serving.specs.Flushing.{GoesOn, HasCountedFault, HasFlushCauseOver, Serves, faults_under};
ghost use Rattle.tsdb_serving.specs.Loans.{CanServe};
ghost use Rattle.tsdb_serving.specs.Rows.{IsRowAnswer};
ghost use Rattle.tsdb_serving.specs.Serving.{ServesCommand, HasFullCause, StaysInPlace};
ghost use Rattle.tsdb_serving.specs.Sweeping.{AreOutgoingRead, LeavesRead, StaysRead};

use crate::fault::FlushFault;
use crate::flushing::flush_oldest;
use std::alloc::Global;
use tsdb_base::{Answer, Range};
use tsdb_core::Core;
use tsdb_model::{Row, Schema};
use tsdb_outside::{Files, Journal};
use tsdb_path::Path;

/// Creates a series.
pub fn create<J: Journal, F: Files>(core: &mut Core<J, F>, schema: &Schema) -> Answer
    requires { IsSchema schema.now }
    ensures answer { IsCreateAnswer (memory_of (logged_of core.old)) schema.now.path result }
    ensures memory { MemoryAfter (HasCreated schema.now) (memory_of (logged_of core.old))
        (memory_of (logged_of core.new)) result }
    ensures files { files_of core.new ≡ files_of core.old }
    ensures answers { ServesCommand core.old core.new (Command.Create schema.now) (Reply.Plain result) }
    ensures keeps_all { HandsOn core.old core.new }
    ensures stays { StaysInPlace core.old core.new }
    ensures draws { next_of core.new ≡ next_of core.old }
    ensures full { HasFullCause core.new (Reply.Plain result) }
    ensures cause { result ≡ AnswerOf.Device → Rose (faults_under core.old) (faults_under core.new) }
    ensures later { faults_under core.old ≤ faults_under core.new }
{
    core.create(schema)
}

/// Deletes the points of a series in a range.
pub fn delete<J: Journal, F: Files>(core: &mut Core<J, F>, series: &Path, range: &Range) -> Answer
    ensures answer { IsDeleteAnswer (memory_of (logged_of core.old)) series.now result }
    ensures memory { DeletesPoints series.now range.now core.old core.new result }
    ensures files { files_of core.new ≡ files_of core.old }
    ensures answers { ServesCommand core.old core.new (Command.Delete series.now range.now) (Reply.Plain result) }
    ensures keeps_all { HandsOn core.old core.new }
    ensures stays { StaysInPlace core.old core.new }
    ensures draws { next_of core.new ≡ next_of core.old }
    ensures full { HasFullCause core.new (Reply.Plain result) }
    ensures cause { result ≡ AnswerOf.Device → Rose (faults_under core.old) (faults_under core.new) }
    ensures later { faults_under core.old ≤ faults_under core.new }
{
    core.delete(series, range)
}

/// Writes a row. Where it does not fit the working pair and no other pair can be frozen, the oldest is flushed first; the
/// fault of this flush is the answer. Files on their way out that are not read are removed then.
pub fn insert<J: Journal, F: Files>(
    alloc: Global,
    core: &mut Core<J, F>,
    port: &mut F::Port,
    device: &Path,
    row: &Row,
) -> Answer
    requires row { IsRow row.now }
    requires ready { CanServe (F.Port.store port.old) core.old }
    ensures answer { IsRowAnswer device.now row.now core.old result }
    ensures memory { CountsRow core.old core.new result }
    ensures swept { StaysRead (F.Port.faults port.old) (F.Port.faults port.new) core.old core.new }
    ensures answers { (F.Port.store port.old).tells ≡ true
        → ServesCommand core.old core.new (Command.Insert device.now row.now) (Reply.Plain result) }
    ensures serves { Serves F.Port.store F.Port.faults port.old port.new core.old core.new 2 }
    ensures full { HasFullCause core.new (Reply.Plain result) }
    ensures cause { result ≡ AnswerOf.Device → HasCountedFault F.Port.faults port.old port.new core.old core.new }
{
    match make_room(alloc, core, port, row) {
        Ok(()) => core.insert(device, row),
        Err(fault) => fault.answer(),
    }
}

/// Flushes the oldest frozen pair, where the row could not be put else, and removes files on their way out.
fn make_room<J: Journal, F: Files>(
    alloc: Global,
    core: &mut Core<J, F>,
    port: &mut F::Port,
    row: &Row,
) -> Result<(), FlushFault>
    requires row { IsRow row.now }
    requires ready { CanServe (F.Port.store port.old) core.old }
    ensures place { OnOk result (¬ NeedsFlush row.now core.new) }
    ensures needed { IfErr result (λ fault. NeedsFlush row.now core.old) }
    ensures swept { AreOutgoingRead (files_of core.old)
        → LeavesRead (F.Port.faults port.old) (F.Port.faults port.new) core.new }
    ensures goes_on { GoesOn F.Port.store F.Port.faults port.old port.new core.old core.new 2 }
    ensures cause { IfErr result (HasFlushCauseOver F.Port.faults port.old port.new core.old core.new) }
{
    if !core.needs_flush(row) {
        return Ok(());
    }
    flush_oldest(alloc, core, port)
}
