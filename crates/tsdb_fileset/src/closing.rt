//! Giving the tokens back to their store. Depends on `file` and `places`.
ghost use Rattle.std.specs.Prelude.{◌≡◌, IfSome};
ghost use Rattle.tsdb_fileset.specs.Closing.{ArePutBack, AreNumbersRising, IsGivenBack, names_at};
ghost use Rattle.tsdb_fileset.specs.Places.{AreOfStore, AreUnread};
ghost use Rattle.tsdb_outside.specs.Disk.{WhereTold};

use crate::file::KeptFile;
use crate::places::Places;
use tsdb_outside::Files;

/// Gives back the token at a place, where there is one.
fn keep_file<F: Files>(files: &mut F, place: Option<KeptFile<F>>)
    requires no_rights { IfSome place (λ file. file.rights ≡ 0) }
    requires store { IfSome place (λ file. file.name.store ≡ F.store files.old) }
    ensures at_rest { IsGivenBack place (F.at_rest files.old) (F.at_rest files.new) }
    ensures same_store { F.store files.new ≡ F.store files.old }
    ensures faults { F.faults files.new ≡ F.faults files.old }
{
    if let Some(file) = place {
        files.keep(file.into_sealed());
    }
}

/// Gives back the token at each place, in order of the numbers.
pub(crate) fn keep_files<F: Files>(mut places: Places<F>, files: &mut F)
    requires no_rights { AreUnread places.entries }
    requires store { AreOfStore (F.store files.old) places.entries }
    ensures at_rest { WhereTold (ArePutBack (names_at places.entries)) (F.at_rest files.old) (F.at_rest files.new) }
    ensures rising { AreNumbersRising places.entries }
    ensures same_store { F.store files.new ≡ F.store files.old }
    ensures faults { F.faults files.new ≡ F.faults files.old }
{
    for _ in 0..places.len() {
        let Some((_number, place)) = places.pop_first() else {
            unreachable!()
        };
        keep_file(files, place);
    }
    places.destroy_empty();
}
