//! The files that a core keeps. Depends on `file`, `places`, `room`, `replacing`, `sweeping`, `rights` and `closing`.
ghost use Rattle.std.specs.Prelude.{◌≡◌, ◌+◌, ◌-◌, ◌≤◌, ◌∷◌, [], ◌++◌, None, Some, length, IfOk, IfSome, OnOk, OnErr};
ghost use Rattle.std.specs.Option.{option_map};
ghost use Rattle.tsdb_base.specs.Lists.{if_some};
ghost use Rattle.tsdb_flush.specs.Least.{IsLeastOf};
ghost use Rattle.tsdb_outside.specs.Causes.{HasCause};
ghost use Rattle.tsdb_outside.specs.Disk.{WhereTold};
ghost use Rattle.std.specs.Prelude.{Option};
ghost use Rattle.tsdb_plan.specs.declared.entry.FileEntry.{FileEntry as FileEntryOf};

use crate::closing::keep_files;
use crate::file::KeptFile;
use crate::places::{Places, fill_place, free_place, make_places};
use crate::replacing::{
    by_space, claim_in, compaction_room, least_in, least_of, less_compaction, place_output,
    replace_in,
};
use crate::rights::{give_back_at, share_at};
use crate::room::{Spare, flush_room, less_room, make_room, push, push_entry, sum_of};
use crate::sweeping::{keep_placed, remove_free};
use std::alloc::Global;
use std::collections::BTreeMap;
use std::marker::Model;
use std::snapshot::Snapshot;
use tsdb_base::{FileNumber, Memory, Space, Stamp};
use tsdb_flush::{Built, lesser};
use tsdb_outside::{Failed, Files};
use tsdb_path::Path;
use tsdb_plan::{FileEntry, Run};

/// A file on its way out of the store.
#[derive(Clone, Copy, Debug, PartialEq, Eq)]
pub struct Outgoing {
    pub number: FileNumber,
    pub born: Stamp,
}

/// The kept files. A contract sees the store that they are of, the places that were made for numbers, each with what
/// is kept of its file where that is there, the entries of the two lists, the outgoing files, and the room promised to
/// jobs that are out.
pub struct KeptFiles<F: Files> {
    // What hands the files out, as it was at first: it says which store they are of, also where there is no file.
    store: Snapshot<F>,
    tokens: Places<F>,
    sequence: Vec<FileEntry>,
    unsequence: Vec<FileEntry>,
    outgoing: Vec<Outgoing>,
    spare: Spare,
    // The least born of the listed files.
    least: Option<Stamp>,
}

impl<F: Files> Model for KeptFiles<F> {
    ghost use Rattle.tsdb_fileset.specs.Files.{KeptFiles};
    ghost use Rattle.tsdb_fileset.specs.SoundFiles.{AreSound, view_of};

    ghost Value = { KeptFiles };

    ghost view = { view_of F.store };

    ghost invariant = { AreSound F.store };
}

impl<F: Files> KeptFiles<F> {
    ghost use Rattle.tsdb_fileset.specs.Closing.{ArePutBack, AreNumbersRising, names_at};
    ghost use Rattle.tsdb_fileset.specs.Files.{Appends, AreKept, IsOpen, KeepsLists, KeptFiles as KeptFilesOf, entries_in};
    ghost use Rattle.tsdb_fileset.specs.Files.{has_path, kept_file};
    ghost use Rattle.tsdb_fileset.specs.Files.{listed_borns, none_kept};
    ghost use Rattle.tsdb_fileset.specs.Places.{AreOfStore, ArePlacesMade, AreUnread, OnlyMakesPlaces, OthersStay};
    ghost use Rattle.tsdb_fileset.specs.Places.{place_of_number};
    ghost use Rattle.tsdb_fileset.specs.Replacing.{HasListRoom, HasReplaced, IsWithin, claim_run, run_length};
    ghost use Rattle.tsdb_fileset.specs.Replacing.{compaction_room as compaction_room_of, less_compaction as less_of};
    ghost use Rattle.tsdb_fileset.specs.Rights.{HasChanged, IsRightTo, one_less, one_more};
    ghost use Rattle.tsdb_fileset.specs.Room.{HasRoom, flush_room as flush_room_of, less_room as less_room_of, more_room};
    ghost use Rattle.tsdb_fileset.specs.Sweeps.{LeavesWithout, StopsSweepAt, free_numbers, tried_numbers};

    /// No file of the store of these files.
    pub fn new(alloc: Global, files: &F) -> KeptFiles<F>
        ensures { result ≡ none_kept (F.store files.now) }
    {
        KeptFiles {
            store: Snapshot::of(files),
            tokens: BTreeMap::new(alloc),
            sequence: Vec::new(alloc),
            unsequence: Vec::new(alloc),
            outgoing: Vec::new(alloc),
            spare: Spare {
                sequence: 0,
                unsequence: 0,
                outgoing: 0,
            },
            least: None,
        }
    }

    /// Takes all memory that the end of a flush with files of these numbers needs, whichever it is. Without memory the
    /// room is as before; a place that was made stays, and serves the next file of its number.
    pub fn prepare_flush(
        &mut self,
        sequence: Option<FileNumber>,
        unsequence: Option<FileNumber>,
    ) -> Result<(), Memory>
        ensures lists { KeepsLists self.old self.new }
        ensures files { OnlyMakesPlaces self.old.places self.new.places }
        ensures places { OnOk result (ArePlacesMade (if_some sequence ++ if_some unsequence) self.old.places
            self.new.places) }
        ensures room { OnOk result (self.new.spare ≡ more_room self.old.spare (flush_room_of sequence unsequence)) }
        ensures memory { OnErr result (self.new.spare ≡ self.old.spare) }
    {
        self.prepare(sequence, unsequence, &flush_room(sequence, unsequence))
    }

    /// Takes all memory that the end of a compaction with so many inputs needs, whichever it is. Without memory the
    /// room is as before; a place that was made stays.
    pub fn prepare_compaction(
        &mut self,
        space: Space,
        output: FileNumber,
        inputs: usize,
    ) -> Result<(), Memory>
        ensures lists { KeepsLists self.old self.new }
        ensures files { OnlyMakesPlaces self.old.places self.new.places }
        ensures places { OnOk result (ArePlacesMade (output ∷ []) self.old.places self.new.places) }
        ensures room { OnOk result (self.new.spare ≡ more_room self.old.spare (compaction_room_of space inputs)) }
        ensures memory { OnErr result (self.new.spare ≡ self.old.spare) }
    {
        self.prepare(Some(output), None, &compaction_room(space, inputs))
    }

    /// Claims the late files of the run, or frees them again.
    pub fn claim(&mut self, run: Run, claimed: bool)
        requires { IsWithin run self.old.unsequence }
        ensures { self.new ≡ record self.old { unsequence = claim_run run claimed self.old.unsequence } }
    {
        claim_in(&mut self.unsequence, run, claimed);
    }

    /// A compaction has ended without its record, and needs so many places among the outgoing files no more.
    pub fn free_outgoing(&mut self, count: usize)
        requires { count ≤ self.old.spare.outgoing }
        ensures { self.new ≡ record self.old {
          spare = record self.old.spare { outgoing = self.old.spare.outgoing - count };
        } }
    {
        self.spare.outgoing -= count;
    }

    /// The least born of the files that are listed once those of the runs are on their way out, and a file of this
    /// born, if there is one, stands in the place of those of its space.
    pub fn least_after_replacing(
        &self,
        space: Space,
        sequence: Run,
        unsequence: Run,
        born: Option<Stamp>,
    ) -> Option<Stamp>
        requires sequence { IsWithin sequence self.now.sequence }
        requires unsequence { IsWithin unsequence self.now.unsequence }
        ensures { (output : Option FileEntryOf) (new : KeptFilesOf) → option_map (λ entry. entry.born) output ≡ born
            → HasReplaced space sequence unsequence output self.now new → IsLeastOf result (listed_borns new) }
    {
        let (in_sequence, in_unsequence) = by_space(space, born);
        let least = least_in(None, &self.sequence, sequence, in_sequence);
        least_in(least, &self.unsequence, unsequence, in_unsequence)
    }

    /// The files of the runs are on their way out, and the output of this number, if there is one, stands in the place
    /// of those of its space. It takes no memory.
    pub fn replace(
        &mut self,
        space: Space,
        sequence: Run,
        unsequence: Run,
        number: FileNumber,
        output: Option<Built<F>>,
    )
        requires sequence { IsWithin sequence self.old.sequence }
        requires unsequence { IsWithin unsequence self.old.unsequence }
        requires place { IsOpen number.0 self.old }
        requires list { HasListRoom space self.old.spare }
        requires outgoing { run_length sequence + run_length unsequence ≤ self.old.spare.outgoing }
        requires numbered { IfSome output (λ built. built.entry.number.0 ≡ number.0) }
        requires no_rights { IfSome output (λ built. F.Sealed.rights built.sealed ≡ 0) }
        requires store { IfSome output (λ built. (F.Sealed.file built.sealed).store ≡ self.old.store) }
        ensures lists { HasReplaced space sequence unsequence (option_map (λ built. built.entry) output) self.old
            self.new }
        ensures file { kept_file number.0 self.new ≡ option_map
            (λ built. record { name = F.Sealed.file built.sealed; series = built.series; rights = 0 }) output }
        ensures others { OthersStay number.0 self.old.places self.new.places }
        ensures room { self.new.spare ≡ less_of space (run_length sequence + run_length unsequence) self.old.spare }
    {
        let entry = place_output::<F>(&mut self.tokens, number, output);
        let (in_sequence, in_unsequence) = by_space(space, entry);
        replace_in(
            &mut self.sequence,
            sequence,
            in_sequence,
            &mut self.outgoing,
        );
        replace_in(
            &mut self.unsequence,
            unsequence,
            in_unsequence,
            &mut self.outgoing,
        );
        let least = least_of(None, &self.sequence);
        self.least = least_of(least, &self.unsequence);
        let inputs = (sequence.end - sequence.first) + (unsequence.end - unsequence.first);
        self.spare = less_compaction(&self.spare, space, inputs);
    }

    // Makes a place for each number, and this room.
    fn prepare(
        &mut self,
        first: Option<FileNumber>,
        second: Option<FileNumber>,
        room: &Spare,
    ) -> Result<(), Memory>
        ensures lists { KeepsLists self.old self.new }
        ensures files { OnlyMakesPlaces self.old.places self.new.places }
        ensures places { OnOk result (ArePlacesMade (if_some first ++ if_some second) self.old.places self.new.places) }
        ensures room { OnOk result (self.new.spare ≡ more_room self.old.spare room.now) }
        ensures memory { OnErr result (self.new.spare ≡ self.old.spare) }
    {
        let spare = sum_of(&self.spare, room)?;
        make_places::<F>(&mut self.tokens, first, second)?;
        make_room(
            &mut self.sequence,
            &mut self.unsequence,
            &mut self.outgoing,
            &spare,
        )?;
        self.spare = spare;
        Ok(())
    }

    /// Puts a new file at the end of its list. It takes no memory.
    pub fn enlist(&mut self, space: Space, built: Built<F>)
        requires place { IsOpen built.entry.number.0 self.old }
        requires room { HasRoom space self.old.spare }
        requires no_rights { F.Sealed.rights built.sealed ≡ 0 }
        requires store { (F.Sealed.file built.sealed).store ≡ self.old.store }
        ensures entry { Appends space built.entry self.old self.new }
        ensures outgoing { self.new.outgoing ≡ self.old.outgoing }
        ensures file { kept_file built.entry.number.0 self.new
            ≡ Some (record { name = F.Sealed.file built.sealed; series = built.series; rights = 0 }) }
        ensures others { OthersStay built.entry.number.0 self.old.places self.new.places }
        ensures room { self.new.spare ≡ less_room_of space self.old.spare }
        ensures store { self.new.store ≡ self.old.store }
    {
        let Built {
            sealed,
            entry,
            series,
        } = built;
        fill_place::<F>(
            &mut self.tokens,
            entry.number,
            KeptFile::new(sealed, series),
        );
        self.least = Some(lesser(self.least, entry.born));
        push_entry(&mut self.sequence, &mut self.unsequence, space, entry);
        self.spare = less_room(&self.spare, space);
    }

    /// Puts a new file behind the outgoing files: its job ended without its record. It takes no memory.
    pub fn send_out(&mut self, space: Space, built: Built<F>)
        requires place { IsOpen built.entry.number.0 self.old }
        requires room { HasRoom space self.old.spare }
        requires no_rights { F.Sealed.rights built.sealed ≡ 0 }
        requires store { (F.Sealed.file built.sealed).store ≡ self.old.store }
        ensures sequence { self.new.sequence ≡ self.old.sequence }
        ensures unsequence { self.new.unsequence ≡ self.old.unsequence }
        ensures outgoing { self.new.outgoing
            ≡ self.old.outgoing ++ record { number = built.entry.number; born = built.entry.born } ∷ [] }
        ensures file { kept_file built.entry.number.0 self.new
            ≡ Some (record { name = F.Sealed.file built.sealed; series = built.series; rights = 0 }) }
        ensures others { OthersStay built.entry.number.0 self.old.places self.new.places }
        ensures room { self.new.spare ≡ less_room_of space self.old.spare }
        ensures store { self.new.store ≡ self.old.store }
    {
        let Built {
            sealed,
            entry,
            series,
        } = built;
        fill_place::<F>(
            &mut self.tokens,
            entry.number,
            KeptFile::new(sealed, series),
        );
        push(
            &mut self.outgoing,
            Outgoing {
                number: entry.number,
                born: entry.born,
            },
        );
        self.spare = less_room(&self.spare, space);
    }

    /// A job ended without a file of this number. It takes no memory.
    pub fn give_up(&mut self, space: Space, number: FileNumber)
        requires place { IsOpen number.0 self.old }
        requires room { HasRoom space self.old.spare }
        ensures lists { KeepsLists self.old self.new }
        ensures place { place_of_number number.0 self.new.places ≡ None }
        ensures others { OthersStay number.0 self.old.places self.new.places }
        ensures room { self.new.spare ≡ less_room_of space self.old.spare }
    {
        free_place::<F>(&mut self.tokens, number);
        self.spare = less_room(&self.spare, space);
    }

    /// The least born of the listed files.
    pub fn least_born(&self) -> Option<Stamp>
        ensures { IsLeastOf result (listed_borns self.now) }
    {
        self.least
    }

    /// The entries of a list, in its order.
    pub fn entries(&self, space: Space) -> &[FileEntry]
        ensures entries { result.now ≡ entries_in space self.now }
        ensures kept { AreKept self.now }
    {
        match space {
            Space::Sequence => &self.sequence,
            Space::Unsequence => &self.unsequence,
        }
    }

    /// The files on their way out, in the order in which they came.
    pub fn outgoing(&self) -> &[Outgoing]
        ensures files { result.now ≡ self.now.outgoing }
        ensures kept { AreKept self.now }
    {
        &self.outgoing
    }

    /// It does nothing, and tells what always holds of the kept files.
    pub fn sound(&self)
        ensures kept { AreKept self.now }
        ensures of_store { AreOfStore self.now.store self.now.places }
    {
        // (a type's invariant is at hand where a field is used)
        let _ = &self.outgoing;
    }

    /// Removes from the store each outgoing file of which no right is out, and that is none of those in doubt, in their
    /// order, and returns how many. After `Ok` no removal has failed. After `Failed` the file that could not be removed is
    /// spent too, and those behind it were not tried.
    pub fn sweep(
        &mut self,
        port: &mut F::Port,
        doubted: [Option<FileNumber>; 2],
    ) -> Result<u64, Failed>
        requires store { F.Port.store port.old ≡ self.old.store }
        ensures count { IfOk result (λ count. count
            ≡ length (free_numbers doubted self.old.places self.old.outgoing)) }
        ensures swept { OnOk result
            (LeavesWithout (free_numbers doubted self.old.places self.old.outgoing) self.old self.new) }
        ensures failed { OnErr result ((stop : StopsSweepAt doubted self.old.places self.old.outgoing)
            × LeavesWithout (tried_numbers doubted self.old.places stop) self.old self.new) }
        ensures same_store { F.Port.store port.new ≡ F.Port.store port.old }
        ensures no_fault { OnOk result (F.Port.faults port.new ≡ F.Port.faults port.old) }
        ensures cause { HasCause (F.Port.faults port.old) (F.Port.faults port.new) result }
    {
        let swept = remove_free::<F>(&mut self.tokens, &self.outgoing, port, &doubted);
        keep_placed::<F>(&mut self.outgoing, &self.tokens);
        swept
    }

    /// The paths of the series of a kept file, in the order of a tree.
    pub fn series(&self, number: FileNumber) -> Option<&[Path]>
        ensures { option_map (λ paths. paths.now) result
            ≡ option_map (λ file. file.series) (kept_file number.0 self.now) }
    {
        match self.tokens.get(&number.0) {
            Some(Some(file)) => Some(file.series()),
            _ => None,
        }
    }

    /// Whether the file of the number is kept and has the series. It looks the path up by a binary search, where the
    /// series of the file stand in the order of a tree.
    pub fn has_series(&self, number: FileNumber, path: &Path) -> bool
        ensures { result ≡ has_path path.now self.now number.0 }
    {
        match self.tokens.get(&number.0) {
            Some(Some(file)) => file.has(path),
            _ => false,
        }
    }

    /// Gives out a right to read the file of the number, where it is kept. Without memory nothing changes.
    pub fn share(&mut self, number: FileNumber) -> Result<Option<F::Right>, Memory>
        ensures right { IfOk result (IsRightTo F.Right.file (kept_file number.0 self.old)) }
        ensures ok { OnOk result (HasChanged one_more number.0 self.old.places self.new.places) }
        ensures memory { OnErr result (place_of_number number.0 self.new.places
            ≡ place_of_number number.0 self.old.places) }
        ensures others { OthersStay number.0 self.old.places self.new.places }
        ensures lists { KeepsLists self.old self.new }
        ensures room { self.new.spare ≡ self.old.spare }
    {
        share_at::<F>(&mut self.tokens, number)
    }

    /// Takes a right to read the file of the number back.
    pub fn give_back(&mut self, number: FileNumber, right: F::Right)
        requires { IsRightTo F.Right.file (kept_file number.0 self.old) (Some right) }
        ensures file { HasChanged one_less number.0 self.old.places self.new.places }
        ensures others { OthersStay number.0 self.old.places self.new.places }
        ensures lists { KeepsLists self.old self.new }
        ensures room { self.new.spare ≡ self.old.spare }
    {
        give_back_at::<F>(&mut self.tokens, number, right);
    }

    /// Gives each token back to its store, in order of the numbers; no other file comes to be at rest.
    pub fn close(self, files: &mut F)
        requires no_rights { AreUnread self.places }
        requires store { F.store files.old ≡ self.store }
        ensures at_rest { WhereTold (ArePutBack (names_at self.places)) (F.at_rest files.old) (F.at_rest files.new) }
        ensures rising { AreNumbersRising self.places }
        ensures kept { AreKept self }
        ensures same_store { F.store files.new ≡ F.store files.old }
        ensures faults { F.faults files.new ≡ F.faults files.old }
    {
        let KeptFiles {
            store: _,
            tokens,
            sequence: _,
            unsequence: _,
            outgoing: _,
            spare: _,
            least: _,
        } = self;
        keep_files(tokens, files);
    }
}
