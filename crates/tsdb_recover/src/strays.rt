//! The files that no list has are removed. Depends on `fault` and `adopting`.
ghost use Rattle.std.specs.Prelude.{◌≡◌, [], ◌∷◌, IfErr, OnErr, OnOk};
ghost use Rattle.tsdb_recover.specs.Adopting.{adopting_files};
ghost use Rattle.tsdb_outside.specs.Files.{plain_numbers};
ghost use Rattle.tsdb_recover.specs.Files.{HasFilesCause};
ghost use Rattle.tsdb_recover.specs.Taking.{AreGoneIn, NoDamage};

use crate::adopting::Adopting;
use crate::fault::OpenFault;
use tsdb_base::FileNumber;
use tsdb_outside::{Failed, Files, Port, StoreFault};

/// Removes those of these files that are not kept. After `Ok` no removal has failed.
pub(crate) fn remove_strays<F: Files>(
    adopting: &Adopting<F>,
    files: &mut F,
    port: &mut F::Port,
    numbers: &[FileNumber],
) -> Result<(), OpenFault>
    requires port { F.Port.store port.old ≡ F.store files.old }
    ensures gone { OnOk result (AreGoneIn (plain_numbers numbers.now) (adopting_files adopting.now)
        (F.at_rest files.old)
        (F.at_rest files.new)) }
    ensures others { OnErr result (AreGoneIn [] (adopting_files adopting.now) (F.at_rest files.old)
        (F.at_rest files.new)) }
    ensures no_damage { IfErr result NoDamage }
    ensures same_store { F.store files.new ≡ F.store files.old }
    ensures same_port { F.Port.store port.new ≡ F.Port.store port.old }
    ensures no_fault { OnOk result (F.Port.faults port.new ≡ F.Port.faults port.old) }
    ensures cause { HasFilesCause (F.faults files.old) (F.faults files.new) (F.Port.faults port.old)
        (F.Port.faults port.new) result }
{
    for number in numbers {
        match remove_if_stray(adopting, files, port, number) {
            Ok(()) => (),
            Err(fault) => return Err(fault),
        }
    }
    Ok(())
}

/// Removes a file, where it is there and not kept. After `Ok` no removal has failed.
fn remove_if_stray<F: Files>(
    adopting: &Adopting<F>,
    files: &mut F,
    port: &mut F::Port,
    number: &FileNumber,
) -> Result<(), OpenFault>
    requires port { F.Port.store port.old ≡ F.store files.old }
    ensures gone { OnOk result (AreGoneIn (number.now.0 ∷ []) (adopting_files adopting.now) (F.at_rest files.old)
        (F.at_rest files.new)) }
    ensures others { OnErr result (AreGoneIn [] (adopting_files adopting.now) (F.at_rest files.old)
        (F.at_rest files.new)) }
    ensures no_damage { IfErr result NoDamage }
    ensures same_store { F.store files.new ≡ F.store files.old }
    ensures same_port { F.Port.store port.new ≡ F.Port.store port.old }
    ensures no_fault { OnOk result (F.Port.faults port.new ≡ F.Port.faults port.old) }
    ensures cause { HasFilesCause (F.faults files.old) (F.faults files.new) (F.Port.faults port.old)
        (F.Port.faults port.new) result }
{
    if adopting.is_kept(*number) {
        return Ok(());
    }
    match files.fetch(*number) {
        Ok(Some(sealed)) => match port.remove(sealed) {
            Ok(()) => Ok(()),
            Err(Failed) => Err(OpenFault::Failed),
        },
        Ok(None) => Ok(()),
        Err(StoreFault::Failed) => Err(OpenFault::Failed),
        Err(StoreFault::Memory) => Err(OpenFault::Memory),
    }
}
