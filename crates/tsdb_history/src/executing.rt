//! The commands of a script. Depends on `room`, `serving` and `told`.
ghost use Rattle.std.specs.Prelude.{◌≡◌, ◌+◌, ◌-◌, ◌*◌, ◌^◌, ◌<◌, ◌≤◌, min, count_by, length, slice_index, slice_set};
ghost use Rattle.tsdb_history.specs.History.{CanExecute, told_device, session_numbers};
ghost use Rattle.tsdb_querying.specs.Core.{next_of};
ghost use Rattle.tsdb_history.specs.Reach.{max_drawn};
ghost use Rattle.tsdb_history.specs.Rooms.{IsRoomFor};
ghost use Rattle.tsdb_history.specs.Serves.{HasExecuted};
ghost use Rattle.tsdb_base.specs.Limits.{max_commands};
ghost use Rattle.tsdb_querying.specs.Flushing.{faults_under};
ghost use Rattle.tsdb_querying.specs.Loans.{CanServe, KeepsAll};
ghost use Rattle.tsdb_querying.specs.Serving.{IsSure, StaysInPlace};
ghost use Rattle.tsdb_querying.specs.Sweeping.{StaysRead};

use crate::room::ReplyRoom;
use crate::serving::serve;
use crate::told::Told;
use std::alloc::Global;
use tsdb_base::List;
use tsdb_outside::{Files, Journal};
use tsdb_querying::Core;
use tsdb_script::Numbered;

/// Serves the commands of a script, in the order of its lines, and returns their replies.
pub fn execute<J: Journal, F: Files>(
    alloc: Global,
    core: &mut Core<J, F>,
    port: &mut F::Port,
    script: &[Numbered],
    room: ReplyRoom,
) -> List<Told>
    requires script { CanExecute script.now }
    requires room { IsRoomFor (length script.now) room }
    requires ready { CanServe (F.Port.store port.old) core.old }
    ensures executed { HasExecuted script.now result (F.Port.store port.old).tells core.old core.new }
    ensures keeps_all { KeepsAll (F.Port.store port.old) core.old core.new }
    ensures stays { StaysInPlace core.old core.new }
    ensures draws { next_of core.new ≤ next_of core.old + max_drawn * length script.now }
    ensures same_store { F.Port.store port.new ≡ F.Port.store port.old }
    ensures devices { IsSure (F.Port.store port.old) core.old
        → min ((faults_under core.old + F.Port.faults port.old) + count_by told_device result) (2 ^ 64 - 1)
        ≤ faults_under core.new + F.Port.faults port.new }
    ensures later { (faults_under core.old ≤ faults_under core.new)
        × (F.Port.faults port.old ≤ F.Port.faults port.new) }
    ensures swept { StaysRead (F.Port.faults port.old) (F.Port.faults port.new) core.old core.new }
{
    let ReplyRoom {
        mut counts,
        mut history,
    } = room;
    for numbered in script {
        let reply = serve(alloc, core, port, &numbered.command);
        let index = next_index(&mut counts, numbered.session);
        let told = Told {
            session: numbered.session,
            index,
            reply,
        };
        match history.push(told) {
            Ok(()) => (),
            Err(_full) => unreachable!(),
        }
    }
    List::of(history)
}

/// The place in its session of one more command of the session.
fn next_index(counts: &mut [u32], session: u16) -> u32
    requires counts { length counts.old ≡ session_numbers }
    requires session { session < session_numbers }
    requires few { slice_index counts.old session < max_commands }
    ensures index { result ≡ slice_index counts.old session }
    ensures after { counts.new ≡ slice_set counts.old session (slice_index counts.old session + 1) }
{
    let session = usize::from(session);
    let index = counts[session];
    counts[session] = index + 1;
    index
}
