//! The laws. The functions do nothing; their contracts say them.
ghost use Rattle.std.specs.Prelude.{◌++◌};
ghost use Rattle.tsdb_base.specs.declared.ids.Space.TheVariants.{Sequence, Unsequence};
ghost use Rattle.tsdb_fileset.specs.StateOfFiles.{AreFilesOf};
ghost use Rattle.tsdb_fileset.specs.Files.{AreKept, KeptFiles};
ghost use Rattle.tsdb_fileset.specs.Lines.{file_lines_of};
ghost use Rattle.tsdb_fileset.specs.Listings.{TellFiles};
ghost use Rattle.tsdb_flush.specs.StateJobs.{EntriesMatch};
ghost use Rattle.tsdb_flush.specs.State.{EngineState, KnownFiles, ToldContents};

/// The lines of the files that a core keeps tell the files of the state that they are of.
pub fn the_lines_tell_the_files_of_the_state()
    ensures { (files : KeptFiles) (told : ToldContents) (known : KnownFiles) (state : EngineState) → AreKept files
        → AreFilesOf files known state → EntriesMatch told known (state.store.sequence ++ state.store.unsequence)
        → TellFiles told state.store (file_lines_of Sequence files.sequence
        ++ file_lines_of Unsequence files.unsequence) }
{}
