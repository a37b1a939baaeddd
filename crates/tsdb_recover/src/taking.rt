//! The listed files are taken up, in the order of their lists. Depends on `fault`, `files` and `adopting`.
ghost use Rattle.std.specs.Prelude.{◌≡◌, ◌+◌, ℕ, IsErrOf, List, None, OnOk};
ghost use Rattle.tsdb_recover.specs.Adopting.{HasAdoptedAll, IsAdoptingOf, adopting_files};
ghost use Rattle.tsdb_state.specs.StoredEngine.{kept_bytes};
ghost use Rattle.tsdb_fileset.specs.Files.{kept_file};
ghost use Rattle.tsdb_outside.specs.Files.{StoredFile};
ghost use Rattle.tsdb_recover.specs.Files.{HasFilesCause};
ghost use Rattle.tsdb_recover.specs.declared.fault.Part as store_part;
ghost use Rattle.tsdb_recover.specs.declared.fault.Part.TheVariants as parts;
ghost use Rattle.tsdb_recover.specs.Damage.{IsBadAt, IsFileDamaged};
ghost use Rattle.tsdb_recover.specs.Taking.{KeepsAdopting, HasTakenMore, IsNextFile, IsRestIn, IsTakingUp, kept_count};
ghost use Rattle.tsdb_state.specs.Stores.{Recorded};

use crate::adopting::{AdoptRefused, Adopting};
use crate::fault::OpenFault;
use crate::files::fetch_whole;
use std::alloc::Global;
use tsdb_base::FileNumber;
use tsdb_outside::{Files, Port};

/// Takes up all listed files, sequence files first. Where that fails, the files that are not kept are at rest.
pub(crate) fn adopt_all<F: Files>(
    alloc: Global,
    adopting: &mut Adopting<F>,
    files: &mut F,
    port: &mut F::Port,
) -> Result<(), OpenFault>
    requires some { (recorded : Recorded) × IsAdoptingOf adopting.old recorded }
    requires port { F.Port.store port.old ≡ F.store files.old }
    requires store { F.store files.old ≡ (adopting_files adopting.old).store }
    ensures goes_on { KeepsAdopting adopting.old adopting.new }
    ensures all { OnOk result (HasAdoptedAll adopting.new) }
    ensures taking { HasTakenMore adopting.old adopting.new (F.at_rest files.old) (F.at_rest files.new) }
    ensures damaged { (part : store_part.Part) (at : ℕ) → IsErrOf result (OpenFault.Damaged part at)
        → (stored : List StoredFile) (recorded : Recorded) → IsAdoptingOf adopting.old recorded
        → IsTakingUp stored recorded.store (adopting_files adopting.old) (F.at_rest files.old)
        → IsFileDamaged (kept_bytes stored) recorded.store part at }
    ensures same_store { F.store files.new ≡ F.store files.old }
    ensures same_port { F.Port.store port.new ≡ F.Port.store port.old }
    ensures cause { HasFilesCause (F.faults files.old) (F.faults files.new) (F.Port.faults port.old)
        (F.Port.faults port.new) result }
{
    'next: while let Some(number) = adopting.wanted() {
        match adopt_next(alloc, adopting, files, port, number) {
            Ok(()) => (),
            Err(fault) => return Err(fault),
        }
    }
    Ok(())
}

/// Takes up the wanted file. Where that fails, its token goes back.
fn adopt_next<F: Files>(
    alloc: Global,
    adopting: &mut Adopting<F>,
    files: &mut F,
    port: &mut F::Port,
    number: FileNumber,
) -> Result<(), OpenFault>
    requires some { (recorded : Recorded) × IsAdoptingOf adopting.old recorded }
    requires wanted { (recorded : Recorded) → IsAdoptingOf adopting.old recorded
        → IsNextFile number.0 (adopting_files adopting.old) recorded.store }
    requires port { F.Port.store port.old ≡ F.store files.old }
    requires store { F.store files.old ≡ (adopting_files adopting.old).store }
    ensures goes_on { KeepsAdopting adopting.old adopting.new }
    ensures taking { HasTakenMore adopting.old adopting.new (F.at_rest files.old) (F.at_rest files.new) }
    ensures one_more { OnOk result (kept_count (adopting_files adopting.new)
        ≡ kept_count (adopting_files adopting.old) + 1) }
    ensures damaged { (part : store_part.Part) (at : ℕ) → IsErrOf result (OpenFault.Damaged part at)
        → (part ≡ parts.File number) × ((stored : List StoredFile)
        → IsRestIn stored (adopting_files adopting.old) (F.at_rest files.old)
        → kept_file number.0 (adopting_files adopting.old) ≡ None → IsBadAt (kept_bytes stored number.0) at) }
    ensures same_store { F.store files.new ≡ F.store files.old }
    ensures same_port { F.Port.store port.new ≡ F.Port.store port.old }
    ensures cause { HasFilesCause (F.faults files.old) (F.faults files.new) (F.Port.faults port.old)
        (F.Port.faults port.new) result }
{
    match fetch_whole(alloc, files, port, number) {
        Ok((sealed, meta)) => match adopting.adopt(sealed, &meta) {
            Ok(()) => Ok(()),
            Err(AdoptRefused { sealed }) => {
                files.keep(sealed);
                Err(OpenFault::Memory)
            }
        },
        Err(fault) => Err(fault),
    }
}
