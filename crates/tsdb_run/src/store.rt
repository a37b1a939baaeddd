//! Executes the commands of a script on a store. Depends on tsdb_recover, tsdb_history and tsdb_core.
ghost use Rattle.std.specs.Prelude.{◌≡◌, ℕ, ◌+◌, ◌-◌, ◌^◌, ◌<◌, ◌≤◌, min, false, Some, IfErr, IfOk, IsErrAnd, OnOk};
ghost use Rattle.std.specs.Prelude.{count_by, length};
ghost use Rattle.tsdb_recover.specs.Core.{limit_of};
ghost use Rattle.tsdb_recover.specs.Limits.{IsPairLimit};
ghost use Rattle.tsdb_history.specs.History.{CanExecute, told_device};
ghost use Rattle.tsdb_history.specs.Rooms.{IsRoomFor};
ghost use Rattle.tsdb_base.specs.Causes.{Rose};
ghost use Rattle.tsdb_frames.specs.Frames.{is_in_doubt};
ghost use Rattle.tsdb_outside.specs.declared.disk.Slot.TheVariants as slots;
ghost use Rattle.tsdb_recover.specs.declared.fault.Part as store_part;
ghost use Rattle.tsdb_run.specs.Causes.{ReportsDamage, TellsDevice};
ghost use Rattle.tsdb_run.specs.Steps.{IsOpeningRefused, IsRunOn, IsServedFrom, opening_status};
ghost use Rattle.tsdb_run.specs.Store.{HasDamage, IsSoundOrSilent, contents};
ghost use Rattle.tsdb_history.specs.Flushing.{IsReady};
ghost use Rattle.tsdb_history.specs.Serving.{IsSure, log_under, slot_under};

use crate::asked::Asked;
use crate::laws::a_recovered_core_serves;
use crate::status::Status;
use std::alloc::Global;
use tsdb_base::List;
use tsdb_history::{ReplyRoom, Told, close, execute};
use tsdb_outside::{Files, Journal, Place, StoreFault};
use tsdb_recover::{Core, OpenFault, OpenRefused, Options, recover};
use tsdb_script::Numbered;

/// Executes the commands of a script on the store that is asked for. Where the store cannot be opened, its log is as it
/// was, and so is each file that it lists.
pub fn run_commands<P: Place>(
    alloc: Global,
    place: &mut P,
    asked: &Asked,
    script: &[Numbered],
) -> Result<List<Told>, Status>
    requires limit { IsPairLimit asked.now.pair_points }
    requires script { CanExecute script.now }
    ensures executed { IfOk result (λ history. IsRunOn script.now history
        (contents (P.state place.old) (P.stored place.old)) (contents (P.state place.new) (P.stored place.new))
        (Rose (P.faults place.old + count_by told_device history) (P.faults place.new)) (P.faults place.new)) }
    ensures directory { OnOk result (P.asked place.new ≡ Some asked.now.directory) }
    ensures devices { IfOk result (λ history. IsSoundOrSilent (contents (P.state place.old) (P.stored place.old))
        → min (P.faults place.old + count_by told_device history) (2 ^ 64 - 1) ≤ P.faults place.new) }
    ensures refused { IfErr result (IsOpeningRefused (contents (P.state place.old) (P.stored place.old))
        (contents (P.state place.new) (P.stored place.new))) }
    ensures device { IfErr result (λ status. TellsDevice status (P.asked place.new ≡ Some asked.now.directory)
        (P.faults place.old) (P.faults place.new)) }
    ensures damaged { (part : store_part.Part) (at : ℕ)
        → HasDamage (contents (P.state place.old) (P.stored place.old)) part at
        → IsErrAnd result (λ status. ReportsDamage status part at) }
    ensures later { P.faults place.old ≤ P.faults place.new }
{
    let Ok(room) = ReplyRoom::new(alloc, script.len()) else {
        return Err(Status::Memory);
    };
    match place.take_up(asked.directory()) {
        Ok((journal, files)) => {
            let mut files = files;
            let (journal, outcome) = run_on(alloc, journal, &mut files, asked, script, room);
            place.put_down(journal, files);
            outcome
        }
        Err(StoreFault::Failed) => Err(Status::Device),
        Err(StoreFault::Memory) => Err(Status::Memory),
    }
}

/// Executes the commands of a script on the store of a journal and its files. The port is made before the store is
/// opened, so that a store which is opened is served.
fn run_on<J: Journal, F: Files>(
    alloc: Global,
    journal: J,
    files: &mut F,
    asked: &Asked,
    script: &[Numbered],
    room: ReplyRoom,
) -> (J, Result<List<Told>, Status>)
    requires limit { IsPairLimit asked.now.pair_points }
    requires script { CanExecute script.now }
    requires room { IsRoomFor (length script.now) room }
    requires no_faults { (J.faults journal ≡ 0) × (F.faults files.old ≡ 0) }
    ensures executed { IfOk result.1 (λ history. IsRunOn script.now history (contents (J.state journal)
        (F.at_rest files.old)) (contents (J.state result.0) (F.at_rest files.new))
        (Rose (count_by told_device history) (J.faults result.0 + F.faults files.new))
        (J.faults result.0 + F.faults files.new)) }
    ensures devices { IfOk result.1 (λ history. IsSoundOrSilent (contents (J.state journal) (F.at_rest files.old))
        → min (count_by told_device history) (2 ^ 64 - 1) ≤ J.faults result.0 + F.faults files.new) }
    ensures refused { IfErr result.1 (IsOpeningRefused (contents (J.state journal) (F.at_rest files.old))
        (contents (J.state result.0) (F.at_rest files.new))) }
    ensures device { IfErr result.1 (λ status. status ≡ Status.Device → 0 < J.faults result.0 + F.faults files.new) }
    ensures damaged { (part : store_part.Part) (at : ℕ)
        → HasDamage (contents (J.state journal) (F.at_rest files.old)) part at
        → IsErrAnd result.1 (λ status. ReportsDamage status part at) }
{
    let Ok(port) = files.port() else {
        return (journal, Err(Status::Memory));
    };
    let pair_points = asked.pair_points();
    match recover(alloc, journal, files, Options { pair_points }) {
        Ok(core) => {
            a_recovered_core_serves(&core);
            let (journal, history) = serve_script(alloc, core, files, port, asked, script, room);
            (journal, Ok(history))
        }
        Err(OpenRefused { journal, fault }) => {
            files.end_port(port);
            (journal, Err(status_of(fault)))
        }
    }
}

/// Executes the commands of a script on a store that is open, and closes it. A pair of the core has as many points at most
/// as the words ask for.
fn serve_script<J: Journal, F: Files>(
    alloc: Global,
    core: Core<J, F>,
    files: &mut F,
    port: F::Port,
    _asked: &Asked,
    script: &[Numbered],
    room: ReplyRoom,
) -> (J, List<Told>)
    requires limit { limit_of core ≡ _asked.now.pair_points }
    requires script { CanExecute script.now }
    requires room { IsRoomFor (length script.now) room }
    requires ready { IsReady (F.Port.store port) core }
    requires port { F.Port.store port ≡ F.store files.old }
    requires slot { slot_under core ≡ slots.A }
    requires no_doubt { is_in_doubt (log_under core) ≡ false }
    ensures served { IsServedFrom script.now result.1 (F.at_rest files.old) core
        (contents (J.state result.0) (F.at_rest files.new))
        (Rose (count_by told_device result.1) (J.faults result.0 + F.faults files.new))
        (J.faults result.0 + F.faults files.new) }
    ensures devices { IsSure (F.store files.old) core
        → min (count_by told_device result.1) (2 ^ 64 - 1) ≤ J.faults result.0 + F.faults files.new }
{
    let mut core = core;
    let mut port = port;
    let history = execute(alloc, &mut core, &mut port, script, room);
    files.end_port(port);
    (close(core, files), history)
}

/// Why a store was not opened, as the status of a run.
fn status_of(fault: OpenFault) -> Status
    ensures { result ≡ opening_status fault }
{
    match fault {
        OpenFault::Failed => Status::Device,
        OpenFault::Damaged { part, at } => Status::Damaged { part, at },
        OpenFault::Memory => Status::Memory,
    }
}
