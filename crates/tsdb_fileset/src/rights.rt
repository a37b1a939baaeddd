//! Rights to read the files of places. Depends on `file` and `places`.
ghost use Rattle.std.specs.Prelude.{◌≡◌, IfOk, OnErr, OnOk, Some};
ghost use Rattle.tsdb_fileset.specs.Places.{OthersStay, file_at, place_of_number};
ghost use Rattle.tsdb_fileset.specs.Rights.{HasChanged, IsRightTo, one_less, one_more};

use crate::places::Places;
use tsdb_base::{FileNumber, Memory};
use tsdb_outside::Files;

/// Gives out a right to read the file of the number, where it is kept.
pub(crate) fn share_at<F: Files>(
    places: &mut Places<F>,
    number: FileNumber,
) -> Result<Option<F::Right>, Memory>
    ensures right { IfOk result (IsRightTo F.Right.file (file_at (place_of_number number.0 places.old.entries))) }
    ensures ok { OnOk result (HasChanged one_more number.0 places.old.entries places.new.entries) }
    ensures memory { OnErr result (place_of_number number.0 places.new.entries
        ≡ place_of_number number.0 places.old.entries) }
    ensures others { OthersStay number.0 places.old.entries places.new.entries }
{
    let Some(place) = places.get_mut(&number.0) else {
        return Ok(None);
    };
    match place {
        Some(file) => Ok(Some(file.share()?)),
        None => Ok(None),
    }
}

/// Takes a right to read the file of the number back.
pub(crate) fn give_back_at<F: Files>(places: &mut Places<F>, number: FileNumber, right: F::Right)
    requires { IsRightTo F.Right.file (file_at (place_of_number number.0 places.old.entries)) (Some right) }
    ensures file { HasChanged one_less number.0 places.old.entries places.new.entries }
    ensures others { OthersStay number.0 places.old.entries places.new.entries }
{
    let Some(place) = places.get_mut(&number.0) else {
        unreachable!()
    };
    match place {
        Some(file) => file.give_back(right),
        None => unreachable!(),
    }
}
