//! Removing outgoing files from the store. Depends on `file` and `places`.
ghost use Rattle.std.specs.Prelude.{◌≡◌, ◌≤◌, [], ◌∷◌, true, Some, length, IfOk, OnOk, OnErr, vec_capacity, vec_len};
ghost use Rattle.std.specs.List.{filter, list_any};
ghost use Rattle.tsdb_fileset.specs.Places.{AreOfStore, TakesAway, file_at, place_of_number};
ghost use Rattle.tsdb_fileset.specs.Sweeps.{AreOnce, StopsSweepAt, free_numbers, has_no_right, has_place};
ghost use Rattle.tsdb_fileset.specs.Sweeps.{is_free as is_free_in, is_that, tried_numbers};
ghost use Rattle.tsdb_outside.specs.Causes.{HasCause};

use crate::file::KeptFile;
use crate::files::Outgoing;
use crate::places::Places;
use tsdb_base::FileNumber;
use tsdb_outside::{Failed, Files, Port};

/// Whether the number is one of those.
fn is_doubted(doubted: &[Option<FileNumber>], number: FileNumber) -> bool
    ensures { result ≡ list_any (is_that number.0) doubted.now }
{
    doubted.contains(&Some(number))
}

/// Whether no right to read the file is out, and it is not in doubt.
fn is_free<F: Files>(places: &Places<F>, doubted: &[Option<FileNumber>], file: Outgoing) -> bool
    ensures { result ≡ is_free_in doubted.now places.now.entries file }
{
    match places.get(&file.number.0) {
        Some(Some(kept)) => kept.rights() == 0 && !is_doubted(doubted, file.number),
        _ => false,
    }
}

/// Takes the file out of its place, which goes.
fn take_file<F: Files>(places: &mut Places<F>, number: FileNumber) -> KeptFile<F>
    requires { has_no_right (file_at (place_of_number number.0 places.old.entries)) ≡ true }
    ensures file { file_at (place_of_number number.0 places.old.entries) ≡ Some result }
    ensures places { TakesAway (number.0 ∷ []) places.old.entries places.new.entries }
{
    match places.remove(&number.0) {
        Some(Some(file)) => file,
        Some(None) => unreachable!(),
        None => unreachable!(),
    }
}

/// Removes a file of which no right is out from the store. Its place goes, also where it could not be removed.
fn remove_file<F: Files>(
    places: &mut Places<F>,
    number: FileNumber,
    port: &mut F::Port,
) -> Result<(), Failed>
    requires store { AreOfStore (F.Port.store port.old) places.old.entries }
    requires no_rights { has_no_right (file_at (place_of_number number.0 places.old.entries)) ≡ true }
    ensures places { TakesAway (number.0 ∷ []) places.old.entries places.new.entries }
    ensures same_store { F.Port.store port.new ≡ F.Port.store port.old }
    ensures no_fault { OnOk result (F.Port.faults port.new ≡ F.Port.faults port.old) }
    ensures cause { HasCause (F.Port.faults port.old) (F.Port.faults port.new) result }
{
    port.remove(take_file::<F>(places, number).into_sealed())
}

/// Removes each of the files of which no right is out, and that is not in doubt, in their order, and returns how many.
/// It stops at the first that could not be removed: after `Ok` no removal has failed.
pub(crate) fn remove_free<F: Files>(
    places: &mut Places<F>,
    outgoing: &[Outgoing],
    port: &mut F::Port,
    doubted: &[Option<FileNumber>],
) -> Result<u64, Failed>
    requires store { AreOfStore (F.Port.store port.old) places.old.entries }
    requires once { AreOnce outgoing.now }
    ensures count { IfOk result (λ count. count
        ≡ length (free_numbers doubted.now places.old.entries outgoing.now)) }
    ensures ok { OnOk result (TakesAway (free_numbers doubted.now places.old.entries outgoing.now)
        places.old.entries places.new.entries) }
    ensures failed { OnErr result ((stop : StopsSweepAt doubted.now places.old.entries outgoing.now)
        × TakesAway (tried_numbers doubted.now places.old.entries stop) places.old.entries places.new.entries) }
    ensures same_store { F.Port.store port.new ≡ F.Port.store port.old }
    ensures no_fault { OnOk result (F.Port.faults port.new ≡ F.Port.faults port.old) }
    ensures cause { HasCause (F.Port.faults port.old) (F.Port.faults port.new) result }
{
    let mut removed = 0;
    for file in outgoing {
        if is_free::<F>(places, doubted, *file) {
            remove_file::<F>(places, file.number, port)?;
            removed += 1;
        }
    }
    Ok(removed)
}

/// Whether there is a place for the file.
fn is_placed<F: Files>(places: &Places<F>, file: &Outgoing) -> bool
    ensures { result ≡ has_place places.now.entries file.now }
{
    places.contains_key(&file.number.0)
}

/// Keeps the outgoing files that still have a place.
pub(crate) fn keep_placed<F: Files>(outgoing: &mut Vec<Outgoing>, places: &Places<F>)
    ensures files { outgoing.new.items ≡ filter (has_place places.now.entries) outgoing.old.items }
    ensures len { vec_len outgoing.new ≤ vec_len outgoing.old }
    ensures capacity { vec_capacity outgoing.new ≡ vec_capacity outgoing.old }
{
    outgoing.retain(|file| is_placed::<F>(places, file));
}
