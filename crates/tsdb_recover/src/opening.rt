//! The opening of a store. Depends on `taking`, `strays`, `fault`, `log`, `adopting` and tsdb_core.
ghost use Rattle.std.specs.Prelude.{◌≡◌, ◌⊎◌, ◌≤◌, [], ℕ, IfErr, IfOk, IsErrAnd, IsErrOf, List, OnErr, OnOk};
ghost use Rattle.std.specs.Prelude.{Some, false};
ghost use Rattle.std.specs.declared.option.Option.{Option};
ghost use Rattle.std.specs.List.Sorted.{IsStrictlyIncreasing};
ghost use Rattle.std.specs.Option.{IsSomeAnd};
ghost use Rattle.tsdb_recover.specs.Adopting.{HasAdoptedAll, IsAdoptingOf, adopting_files};
ghost use Rattle.tsdb_core.specs.Core.{KeepsJobs, files_of as core_files, limit_of, logged_of, next_of, store_of};
ghost use Rattle.tsdb_core.specs.Limits.{IsPairLimit};
ghost use Rattle.tsdb_frames.specs.Frames.{disk_of, faults_of, is_in_doubt, journal_of, slot_of};
ghost use Rattle.tsdb_state.specs.StoredEngine.{kept_bytes};
ghost use Rattle.tsdb_fileset.specs.Files.{none_kept};
ghost use Rattle.tsdb_fileset.specs.Places.{AreUnread};
ghost use Rattle.tsdb_log.specs.declared.record.LogRecord.{LogRecord};
ghost use Rattle.tsdb_memory.specs.LogState.{log_of};
ghost use Rattle.tsdb_model.specs.State as plain;
ghost use Rattle.tsdb_base.specs.Causes.{Rose};
ghost use Rattle.tsdb_outside.specs.Disk.{Keeps};
ghost use Rattle.tsdb_outside.specs.Files.{StoredFile, plain_numbers};
ghost use Rattle.tsdb_outside.specs.declared.disk.Slot.TheVariants as slots;
ghost use Rattle.tsdb_recover.specs.Files.{HasFilesCause};
ghost use Rattle.tsdb_recover.specs.declared.fault.Part as store_part;
ghost use Rattle.tsdb_recover.specs.Damage.{AnswersDamageIn, IsDamagedIn, IsFileDamaged, WhereDamaged};
ghost use Rattle.tsdb_recover.specs.OpenedStore.{HasOpened, IsNextNumber, IsRecovered, IsReplay, IsUnclaimed};
ghost use Rattle.tsdb_recover.specs.OpenedStore.{WhereReplayed};
ghost use Rattle.tsdb_recover.specs.Strays.{AreLeft, IsStray, IsUnlisted, NoneMayGo};
ghost use Rattle.tsdb_recover.specs.Taking.{AreGoneIn, KeepsAdopting, HasLeft, HasOpenCause, HasTakenMore, HasTakenUp};
ghost use Rattle.tsdb_recover.specs.Taking.{HaveLengths, IsGreatestNumber, IsTakingUp};
ghost use Rattle.tsdb_state.specs.Replays.{IsReplayOf};
ghost use Rattle.tsdb_state.specs.Stores.{IsSound, Recorded, store_steps};
ghost use Rattle.tsdb_recover.specs.StoredFiles.{WhereFilesTold, WhereStoreTold};

use crate::adopting::Adopting;
use crate::fault::{OpenFault, OpenRefused};
use crate::log::read_log;
use crate::strays::remove_strays;
use crate::taking::adopt_all;
use std::alloc::Global;
use tsdb_base::{FileNumber, Memory};
use tsdb_core::{Core, Options};
use tsdb_frames::Frames;
use tsdb_outside::{Files, Journal, Port, StoreFault};
use tsdb_redo::Opening;

/// Opens the store of a journal and its files: replays the log, takes up each listed file, and removes all others. It
/// writes nothing to the journal. A store that is not opened is left as it was, but for files that no list has; one that
/// is damaged has these too.
pub fn recover<J: Journal, F: Files>(
    alloc: Global,
    journal: J,
    files: &mut F,
    options: Options,
) -> Result<Core<J, F>, OpenRefused<J>>
    requires limit { IsPairLimit options.pair_points }
    ensures seen { IfOk result (λ core. WhereStoreTold (J.state journal) (F.at_rest files.old) (λ log stored.
        (at : plain.State) → IsSound slots.A (J.state journal) (kept_bytes stored) at
        → IsRecovered core log stored at)) }
    ensures next { IfOk result (λ core. WhereStoreTold (J.state journal) (F.at_rest files.old) (λ log stored.
        (recorded : Recorded) → IsReplayOf store_steps log recorded
        → IsNextNumber (next_of core) stored recorded.named)) }
    ensures strays { IfOk result (λ core. WhereFilesTold (F.at_rest files.old)
        (λ stored. F.at_rest files.new ≡ Some [])) }
    ensures damaged { IfErr result (λ refused. WhereStoreTold (J.state journal) (F.at_rest files.old) (λ log stored.
        WhereDamaged refused.fault (IsDamagedIn (kept_bytes stored) log))) }
    ensures each { WhereStoreTold (J.state journal) (F.at_rest files.old) (λ log stored. (part : store_part.Part)
        (at : ℕ) → HaveLengths stored → IsDamagedIn (kept_bytes stored) log part at
        → IsErrAnd result (λ refused. AnswersDamageIn part at refused.fault)) }
    ensures left { IfErr result (λ refused. WhereStoreTold (J.state journal) (F.at_rest files.old) (λ log stored.
        IsSomeAnd (F.at_rest files.new) (AreLeft (IsStray log) stored))) }

    // Strays go last: where something is damaged each file of the store is as it was.
    ensures damaged_keeps { IfErr result (λ refused. WhereFilesTold (F.at_rest files.old) (λ stored.
        WhereDamaged refused.fault (λ part at. IsSomeAnd (F.at_rest files.new) (AreLeft NoneMayGo stored)))) }

    // Nothing is in doubt, nothing is out, claimed or on its way out, and the core is of the store of the files.
    ensures no_doubt { IfOk result (λ core. is_in_doubt (log_of (logged_of core)) ≡ false) }
    ensures quiet { IfOk result (λ core. KeepsJobs core [] []) }
    ensures unclaimed { IfOk result (λ core. IsUnclaimed core) }
    ensures none_leaving { IfOk result (λ core. (core_files core).outgoing ≡ []) }
    ensures no_rights { IfOk result (λ core. AreUnread (core_files core).places) }
    ensures of_store { IfOk result (λ core. store_of core ≡ F.store files.old) }
    ensures limit { IfOk result (λ core. limit_of core ≡ options.pair_points) }

    // It writes nothing.
    ensures slot { IfOk result (λ core. slot_of (log_of (logged_of core)) ≡ slots.A) }
    ensures keeps { IfOk result (λ core. Keeps (J.state journal) (disk_of (log_of (logged_of core)))) }
    ensures later { IfOk result (λ core. J.faults journal ≤ faults_of (log_of (logged_of core))) }
    ensures returns { IfErr result (λ refused. Keeps (J.state journal) (J.state refused.journal)) }
    ensures returns_later { IfErr result (λ refused. J.faults journal ≤ J.faults refused.journal) }
    ensures same_store { F.store files.new ≡ F.store files.old }
    ensures files_later { F.faults files.old ≤ F.faults files.new }
    ensures cause { IfErr result (λ refused. refused.fault ≡ OpenFault.Failed
        → Rose (J.faults journal) (J.faults refused.journal) ⊎ Rose (F.faults files.old) (F.faults files.new)) }
{
    match read_log(alloc, journal) {
        Ok((log, opening)) => open_files(alloc, log, opening, files, options),
        Err(refused) => Err(refused),
    }
}

/// Opens the store of a log that was read, with its files.
fn open_files<J: Journal, F: Files>(
    alloc: Global,
    log: Frames<J>,
    opening: Opening,
    files: &mut F,
    options: Options,
) -> Result<Core<J, F>, OpenRefused<J>>
    requires some { (items : List LogRecord) × (recorded : Recorded) × IsReplay opening items recorded }
    requires limit { IsPairLimit options.pair_points }
    ensures opened { IfOk result (λ core. WhereReplayed opening (F.at_rest files.old) (λ items recorded stored.
        HasOpened core log stored (F.at_rest files.new) items recorded)) }
    ensures damaged { IfErr result (λ refused. WhereReplayed opening (F.at_rest files.old) (λ items recorded stored.
        WhereDamaged refused.fault (IsFileDamaged (kept_bytes stored) recorded.store))) }
    ensures left { IfErr result (λ refused. WhereReplayed opening (F.at_rest files.old) (λ items recorded stored.
        IsSomeAnd (F.at_rest files.new) (AreLeft (IsUnlisted recorded.store) stored))) }
    ensures damaged_keeps { IfErr result (λ refused. WhereReplayed opening (F.at_rest files.old)
        (λ items recorded stored. WhereDamaged refused.fault
        (λ part at. IsSomeAnd (F.at_rest files.new) (AreLeft NoneMayGo stored)))) }
    ensures log { IfOk result (λ core. log_of (logged_of core) ≡ log) }
    ensures quiet { IfOk result (λ core. KeepsJobs core [] []) }
    ensures unclaimed { IfOk result (λ core. IsUnclaimed core) }
    ensures none_leaving { IfOk result (λ core. (core_files core).outgoing ≡ []) }
    ensures no_rights { IfOk result (λ core. AreUnread (core_files core).places) }
    ensures of_store { IfOk result (λ core. store_of core ≡ F.store files.old) }
    ensures limit { IfOk result (λ core. limit_of core ≡ options.pair_points) }
    ensures journal { IfErr result (λ refused. refused.journal ≡ journal_of log) }
    ensures same_store { F.store files.new ≡ F.store files.old }
    ensures files_later { F.faults files.old ≤ F.faults files.new }
    ensures cause { IfErr result (λ refused. refused.fault ≡ OpenFault.Failed
        → Rose (F.faults files.old) (F.faults files.new)) }
{
    let mut adopting = Adopting::new(alloc, opening, files);
    match take_up(alloc, &mut adopting, files) {
        Ok(stored) => Ok(adopting.finish(log, stored, options)),
        Err(fault) => {
            adopting.end(files);
            Err(OpenRefused {
                journal: log.end(),
                fault,
            })
        }
    }
}

/// Takes up the listed files and removes all others: the greatest number of a file that was there.
fn take_up<F: Files>(
    alloc: Global,
    adopting: &mut Adopting<F>,
    files: &mut F,
) -> Result<Option<FileNumber>, OpenFault>
    requires some { (recorded : Recorded) × IsAdoptingOf adopting.old recorded }
    requires none { adopting_files adopting.old ≡ none_kept (F.store files.old) }
    ensures takes { HasTakenUp adopting.old adopting.new (F.at_rest files.old) (F.at_rest files.new) result }
    ensures same_store { F.store files.new ≡ F.store files.old }
    ensures cause { HasOpenCause (F.faults files.old) (F.faults files.new) result }
{
    match files.port() {
        Ok(port) => {
            let mut port = port;
            let outcome = take_up_through(alloc, adopting, files, &mut port);
            files.end_port(port);
            outcome
        }
        Err(Memory) => Err(OpenFault::Memory),
    }
}

/// The same through a port.
fn take_up_through<F: Files>(
    alloc: Global,
    adopting: &mut Adopting<F>,
    files: &mut F,
    port: &mut F::Port,
) -> Result<Option<FileNumber>, OpenFault>
    requires some { (recorded : Recorded) × IsAdoptingOf adopting.old recorded }
    requires none { adopting_files adopting.old ≡ none_kept (F.store files.old) }
    requires port { F.Port.store port.old ≡ F.store files.old }
    ensures takes { HasTakenUp adopting.old adopting.new (F.at_rest files.old) (F.at_rest files.new) result }
    ensures same_store { F.store files.new ≡ F.store files.old }
    ensures same_port { F.Port.store port.new ≡ F.Port.store port.old }
    ensures cause { HasFilesCause (F.faults files.old) (F.faults files.new) (F.Port.faults port.old)
        (F.Port.faults port.new) result }
{
    match files.list() {
        Ok(numbers) => {
            let last = greatest_of(&numbers);
            match take_listed(alloc, adopting, files, port, &numbers) {
                Ok(()) => Ok(last),
                Err(fault) => Err(fault),
            }
        }
        Err(StoreFault::Failed) => Err(OpenFault::Failed),
        Err(StoreFault::Memory) => Err(OpenFault::Memory),
    }
}

/// The same, once the numbers of the files are known that are there.
fn take_listed<F: Files>(
    alloc: Global,
    adopting: &mut Adopting<F>,
    files: &mut F,
    port: &mut F::Port,
    numbers: &[FileNumber],
) -> Result<(), OpenFault>
    requires some { (recorded : Recorded) × IsAdoptingOf adopting.old recorded }
    requires port { F.Port.store port.old ≡ F.store files.old }
    requires store { F.store files.old ≡ (adopting_files adopting.old).store }
    ensures goes_on { KeepsAdopting adopting.old adopting.new }
    ensures all { OnOk result (HasAdoptedAll adopting.new) }
    ensures taken { OnOk result ((rest : Option (List StoredFile)) × HasTakenMore adopting.old adopting.new
        (F.at_rest files.old) rest × AreGoneIn (plain_numbers numbers.now) (adopting_files adopting.new) rest
        (F.at_rest files.new)) }
    ensures left { IfErr result (HasLeft adopting.old adopting.new (F.at_rest files.old) (F.at_rest files.new)) }
    ensures damaged { (part : store_part.Part) (at : ℕ) → IsErrOf result (OpenFault.Damaged part at)
        → (stored : List StoredFile) (recorded : Recorded) → IsAdoptingOf adopting.old recorded
        → IsTakingUp stored recorded.store (adopting_files adopting.old) (F.at_rest files.old)
        → IsFileDamaged (kept_bytes stored) recorded.store part at }
    ensures same_store { F.store files.new ≡ F.store files.old }
    ensures same_port { F.Port.store port.new ≡ F.Port.store port.old }
    ensures cause { HasFilesCause (F.faults files.old) (F.faults files.new) (F.Port.faults port.old)
        (F.Port.faults port.new) result }
{
    match adopt_all(alloc, adopting, files, port) {
        Ok(()) => remove_strays(adopting, files, port, numbers),
        Err(fault) => Err(fault),
    }
}

/// The last of numbers that rise, where there is one.
fn greatest_of(numbers: &[FileNumber]) -> Option<FileNumber>
    requires { IsStrictlyIncreasing (plain_numbers numbers.now) }
    ensures { IsGreatestNumber result (plain_numbers numbers.now) }
{
    numbers.last().copied()
}
