//! The places of files by number. Depends on `file`.
ghost use Rattle.std.specs.Prelude.{◌≡◌, ◌++◌, None, Some, OnOk};
ghost use Rattle.tsdb_fileset.specs.Places.{ArePlacesMade, OnlyMakesPlaces, OthersStay, place_of_number};
ghost use Rattle.tsdb_base.specs.Lists.{if_some};

use crate::file::KeptFile;
use std::collections::BTreeMap;
use std::mem;
use tsdb_base::{FileNumber, Memory};
use tsdb_outside::Files;

/// The places that were made for numbers, each with its file where it is there.
pub(crate) type Places<F> = BTreeMap<u64, Option<KeptFile<F>>>;

/// Makes a place for the number, where there is a number and no place.
fn make_place<F: Files>(places: &mut Places<F>, number: Option<FileNumber>) -> Result<(), Memory>
    ensures keeps { OnlyMakesPlaces places.old.entries places.new.entries }
    ensures ok { OnOk result (ArePlacesMade (if_some number) places.old.entries places.new.entries) }
{
    let Some(number) = number else {
        return Ok(());
    };
    if places.contains_key(&number.0) {
        return Ok(());
    }
    match places.insert(number.0, None) {
        Ok(None) => Ok(()),
        Ok(Some(_place)) => unreachable!(),
        Err(full) => {
            let (_number, place) = full.value;
            match place {
                None => Err(Memory),
                Some(_kept) => unreachable!(),
            }
        }
    }
}

/// Makes a place for each of the numbers.
pub(crate) fn make_places<F: Files>(
    places: &mut Places<F>,
    first: Option<FileNumber>,
    second: Option<FileNumber>,
) -> Result<(), Memory>
    ensures keeps { OnlyMakesPlaces places.old.entries places.new.entries }
    ensures ok { OnOk result
        (ArePlacesMade (if_some first ++ if_some second) places.old.entries places.new.entries) }
{
    make_place::<F>(places, first)?;
    make_place::<F>(places, second)
}

/// Puts the file into its place.
pub(crate) fn fill_place<F: Files>(places: &mut Places<F>, number: FileNumber, file: KeptFile<F>)
    requires { place_of_number number.0 places.old.entries ≡ Some None }
    ensures file { place_of_number number.0 places.new.entries ≡ Some (Some file) }
    ensures others { OthersStay number.0 places.old.entries places.new.entries }
{
    let Some(place) = places.get_mut(&number.0) else {
        unreachable!()
    };
    match mem::replace(place, Some(file)) {
        None => (),
        Some(_kept) => unreachable!(),
    }
}

/// Takes away a place without a file.
pub(crate) fn free_place<F: Files>(places: &mut Places<F>, number: FileNumber)
    requires { place_of_number number.0 places.old.entries ≡ Some None }
    ensures place { place_of_number number.0 places.new.entries ≡ None }
    ensures others { OthersStay number.0 places.old.entries places.new.entries }
{
    match places.remove(&number.0) {
        Some(None) => (),
        Some(Some(_kept)) => unreachable!(),
        None => unreachable!(),
    }
}
