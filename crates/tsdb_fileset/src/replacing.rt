//! Files of the lists that are replaced. Depends on `file`, `places` and `room`.
ghost use Rattle.std.specs.Option.{option_map};
ghost use Rattle.std.specs.Prelude.{◌≡◌, ◌+◌, ◌<◌, ◌≤◌, ◌∷◌, ◌++◌, drop, length, map, take, vec_capacity, vec_len};
ghost use Rattle.std.specs.Prelude.{IfSome, List, Some, None};
ghost use Rattle.tsdb_fileset.specs.Places.{OthersStay, file_at, place_of_number};
ghost use Rattle.tsdb_fileset.specs.Replacing.{HasClaims, HasListRoom, IsReplacedIn, IsTakenOut, IsWithin};
ghost use Rattle.tsdb_fileset.specs.Replacing.{entry_borns, replace_run};
ghost use Rattle.tsdb_fileset.specs.Replacing.{compaction_room as room_of, leaving, less_compaction as less_of};
ghost use Rattle.tsdb_fileset.specs.Replacing.{output_in, run_length, stamps_of, with_claim};
ghost use Rattle.tsdb_base.specs.declared.ids.Space.TheVariants.{Sequence, Unsequence};
ghost use Rattle.tsdb_base.specs.Lists.{if_some};
ghost use Rattle.tsdb_flush.specs.Least.{least_with};
ghost use Rattle.tsdb_plan.specs.declared.entry.FileEntry.{FileEntry as EntryOf};

use crate::file::KeptFile;
use crate::files::Outgoing;
use crate::places::{Places, fill_place, free_place};
use crate::room::{Spare, push};
use tsdb_base::{FileNumber, Space, Stamp};
use tsdb_flush::{Built, lesser};
use tsdb_outside::Files;
use tsdb_plan::{FileEntry, Run};

/// What the end of a compaction with so many inputs needs.
pub(crate) fn compaction_room(space: Space, inputs: usize) -> Spare
    ensures { result ≡ room_of space inputs }
{
    match space {
        Space::Sequence => Spare {
            sequence: 1,
            unsequence: 0,
            outgoing: inputs,
        },
        Space::Unsequence => Spare {
            sequence: 0,
            unsequence: 1,
            outgoing: inputs,
        },
    }
}

/// Without the places of one compaction with so many inputs.
pub(crate) fn less_compaction(spare: &Spare, space: Space, inputs: usize) -> Spare
    requires list { HasListRoom space spare.now }
    requires outgoing { inputs ≤ spare.now.outgoing }
    ensures { result ≡ less_of space inputs spare.now }
{
    match space {
        Space::Sequence => Spare {
            sequence: spare.sequence - 1,
            unsequence: spare.unsequence,
            outgoing: spare.outgoing - inputs,
        },
        Space::Unsequence => Spare {
            sequence: spare.sequence,
            unsequence: spare.unsequence - 1,
            outgoing: spare.outgoing - inputs,
        },
    }
}

/// Claims the files of the run, or frees them again.
fn set_claims(entries: &mut [FileEntry], claimed: bool)
    ensures { entries.new ≡ map (with_claim claimed) entries.old }
{
    for entry in entries.iter_mut() {
        entry.claimed = claimed;
    }
}

/// Claims the files of the run of a list, or frees them again.
pub(crate) fn claim_in(list: &mut Vec<FileEntry>, run: Run, claimed: bool)
    requires { IsWithin run list.old.items }
    ensures { HasClaims run claimed list.old list.new }
{
    set_claims(&mut list[run.first..run.end], claimed);
}

/// Puts the files behind the outgoing ones.
fn send_run(entries: &[FileEntry], outgoing: &mut Vec<Outgoing>)
    requires { vec_len outgoing.old + length entries.now ≤ vec_capacity outgoing.old }
    ensures items { outgoing.new.items ≡ outgoing.old.items ++ map leaving entries.now }
    ensures len { vec_len outgoing.new ≡ vec_len outgoing.old + length entries.now }
    ensures capacity { vec_capacity outgoing.old ≤ vec_capacity outgoing.new }
{
    for entry in entries {
        push(
            outgoing,
            Outgoing {
                number: entry.number,
                born: entry.born,
            },
        );
    }
}

/// Moves the files of the run from their list behind the outgoing ones.
fn take_out(list: &mut Vec<FileEntry>, run: Run, outgoing: &mut Vec<Outgoing>)
    requires within { IsWithin run list.old.items }
    requires room { vec_len outgoing.old + run_length run ≤ vec_capacity outgoing.old }
    ensures { IsTakenOut run list.old list.new outgoing.old outgoing.new }
{
    send_run(&list[run.first..run.end], outgoing);
    // (what is drained is let go)
    let _ = list.drain(run.first..run.end);
}

/// Puts the entry at the place.
fn put_in(list: &mut Vec<FileEntry>, place: usize, entry: FileEntry)
    requires within { place ≤ length list.old.items }
    requires room { vec_len list.old < vec_capacity list.old }
    ensures items { list.new.items
        ≡ take place list.old.items ++ entry ∷ drop place list.old.items }
    ensures len { vec_len list.new ≡ vec_len list.old + 1 }
    ensures capacity { vec_capacity list.old ≤ vec_capacity list.new }
{
    match list.insert(place, entry) {
        Ok(()) => (),
        Err(_full) => unreachable!(),
    }
}

/// Moves the files of the run from their list behind the outgoing ones, and puts the entry, if there is one, in their
/// place.
pub(crate) fn replace_in(
    list: &mut Vec<FileEntry>,
    run: Run,
    entry: Option<FileEntry>,
    outgoing: &mut Vec<Outgoing>,
)
    requires within { IsWithin run list.old.items }
    requires place { vec_len list.old + length (if_some entry) ≤ vec_capacity list.old }
    requires room { vec_len outgoing.old + run_length run ≤ vec_capacity outgoing.old }
    ensures { IsReplacedIn run entry list.old list.new outgoing.old outgoing.new }
{
    take_out(list, run, outgoing);
    if let Some(entry) = entry {
        put_in(list, run.first, entry);
    }
}

/// What is given for the sequence list and for the unsequence list: the output is in that of its space.
pub(crate) fn by_space<T>(space: Space, output: Option<T>) -> (Option<T>, Option<T>)
    ensures sequence { result.0 ≡ output_in Sequence space output }
    ensures unsequence { result.1 ≡ output_in Unsequence space output }
{
    match space {
        Space::Sequence => (output, None),
        Space::Unsequence => (None, output),
    }
}

/// Puts the file into the place of the number, and returns its entry. Without a file the place goes.
pub(crate) fn place_output<F: Files>(
    places: &mut Places<F>,
    number: FileNumber,
    output: Option<Built<F>>,
) -> Option<FileEntry>
    requires place { place_of_number number.0 places.old.entries ≡ Some None }
    requires no_rights { IfSome output (λ built. F.Sealed.rights built.sealed ≡ 0) }
    ensures entry { result ≡ option_map (λ built. built.entry) output }
    ensures file { file_at (place_of_number number.0 places.new.entries) ≡ option_map
        (λ built. record { name = F.Sealed.file built.sealed; series = built.series; rights = 0 }) output }
    ensures others { OthersStay number.0 places.old.entries places.new.entries }
{
    match output {
        None => {
            free_place::<F>(places, number);
            None
        }
        Some(built) => {
            let Built {
                sealed,
                entry,
                series,
            } = built;
            fill_place::<F>(places, number, KeptFile::new(sealed, series));
            Some(entry)
        }
    }
}

/// The least born of the files, and of those so far.
pub(crate) fn least_of(least: Option<Stamp>, entries: &[FileEntry]) -> Option<Stamp>
    ensures { result ≡ least_with least (entry_borns entries.now) }
{
    let mut least = least;
    for entry in entries {
        least = Some(lesser(least, entry.born));
    }
    least
}

/// The least born of those so far and this one, if there is one.
fn least_and(least: Option<Stamp>, born: Option<Stamp>) -> Option<Stamp>
    ensures { result ≡ least_with least (stamps_of born) }
{
    match born {
        Some(born) => Some(lesser(least, born)),
        None => least,
    }
}

/// The least born of those so far and of the list, with a file of this born, if there is one, in the place of the run.
pub(crate) fn least_in(
    least: Option<Stamp>,
    entries: &[FileEntry],
    run: Run,
    born: Option<Stamp>,
) -> Option<Stamp>
    requires { IsWithin run entries.now }
    ensures { (these : List EntryOf) → entry_borns these ≡ stamps_of born
        → result ≡ least_with least (entry_borns (replace_run run these entries.now)) }
{
    let least = least_of(least, &entries[..run.first]);
    let least = least_and(least, born);
    least_of(least, &entries[run.end..])
}
