//! The laws. The functions do nothing; their contracts say them.
ghost use Rattle.std.specs.Prelude.{◌≡◌, ℕ, List, None, Option};
ghost use Rattle.tsdb_base.specs.declared.ids.FileNumber.{FileNumber};
ghost use Rattle.tsdb_base.specs.declared.ids.Space.{Space};
ghost use Rattle.tsdb_fileset.specs.StateOfFiles.{AreFilesOf, AreSomeOf, IsDoubtOf, IsEnlisted, IsSentOut, IsSweep};
ghost use Rattle.tsdb_fileset.specs.StateOfFiles.{IsUnread};
ghost use Rattle.tsdb_fileset.specs.StateOfFiles.{TellTheirBytes, entry_of, may_go, with_listed, with_outgoing};
ghost use Rattle.tsdb_flush.specs.StoredEngine.{without_numbers};
ghost use Rattle.tsdb_fileset.specs.Files.{AreKept, IsOpen, KeepsLists, KeptFiles, kept_file, listed_borns};
ghost use Rattle.tsdb_fileset.specs.Places.{KeptFile, OnlyMakesPlaces};
ghost use Rattle.tsdb_fileset.specs.Sweeps.{LeavesWithout};
ghost use Rattle.tsdb_fileset.specs.declared.files.Outgoing.{Outgoing};
ghost use Rattle.tsdb_flush.specs.StateOfMemory.{file_borns};
ghost use Rattle.tsdb_outside.specs.Files.{StoredFile};
ghost use Rattle.tsdb_plan.specs.declared.entry.FileEntry.{FileEntry};
ghost use Rattle.tsdb_flush.specs.State.{EngineState, KnownFiles};

/// The stamps of the listed files are those of the state, of which a deletion asks the least.
pub fn the_listed_borns_are_those_of_the_state()
    ensures { (files : KeptFiles) (known : KnownFiles) (state : EngineState) → AreFilesOf files known state
        → listed_borns files ≡ file_borns state.store }
{}

/// A sweep that removes what may go of some outgoing files, where it is told which files a record in doubt names, is a
/// sweep of the state. What is left are the files of the state after it, and they go on to tell their bytes where the
/// removed ones are kept no longer. A place whose file is not there yet stays.
pub fn a_sweep_is_a_step_of_the_state()
    ensures step { (files new : KeptFiles) (known : KnownFiles) (state : EngineState)
        (doubted : List (Option FileNumber))
        (part : List Outgoing) → AreFilesOf files known state → IsDoubtOf doubted state → AreSomeOf files part
        → LeavesWithout (may_go doubted files part) files new → IsSweep (may_go doubted files part) new known state }
    ensures told { (files new : KeptFiles) (kept : List StoredFile) (doubted : List (Option FileNumber))
        (part : List Outgoing) → TellTheirBytes files kept → LeavesWithout (may_go doubted files part) files new
        → TellTheirBytes new (without_numbers (may_go doubted files part) kept) }
    ensures places { (files new : KeptFiles) (doubted : List (Option FileNumber)) (part : List Outgoing)
        → LeavesWithout (may_go doubted files part) files new
        → (number : ℕ) → IsOpen number files → IsOpen number new }
{}

/// A file whose place was free joins the outgoing ones or the end of a list, and the files are those of the state with it.
/// What is known of its number has to be what is kept of it.
pub fn a_new_file_joins_those_of_the_state()
    ensures outgoing { (files new : KeptFiles) (known : KnownFiles) (state : EngineState) (file : Outgoing)
        (token : KeptFile)
        → AreFilesOf files known state → AreKept files → kept_file file.number.0 files ≡ None
        → IsUnread token file.number.0 state → IsSentOut file token files new
        → AreFilesOf new known (with_outgoing file state) }
    ensures listed { (files new : KeptFiles) (known : KnownFiles) (state : EngineState) (space : Space)
        (entry : FileEntry)
        (token : KeptFile) → AreFilesOf files known state → AreKept files → kept_file entry.number.0 files ≡ None
        → IsUnread token entry.number.0 state → known entry.number.0 ≡ entry_of entry token.series
        → IsEnlisted space entry token files new → AreFilesOf new known (with_listed space entry state) }
{}

/// Where places are made and no file comes or goes, the files are those of the same state.
pub fn places_alone_change_no_file()
    ensures { (files new : KeptFiles) (known : KnownFiles) (state : EngineState) → AreFilesOf files known state
        → KeepsLists files new → OnlyMakesPlaces files.places new.places → AreFilesOf new known state }
{}
