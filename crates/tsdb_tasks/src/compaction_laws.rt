//! The laws. The functions do nothing; their contracts say them.
ghost use Rattle.std.specs.Prelude.{◌≡◌, ◌+◌, ◌≤◌, ℕ, IfSome, List, Option, Some};
ghost use Rattle.tsdb_base.specs.declared.value.Value.{Value};
ghost use Rattle.tsdb_tasks.specs.Files.{NewFile, known_entry, file_number};
ghost use Rattle.tsdb_base.specs.declared.ids.Space.{Space as SpaceOf};
ghost use Rattle.tsdb_tasks.specs.Beginning.{AreBegun, run_files};
ghost use Rattle.tsdb_tasks.specs.Ending.{GivesUp};
ghost use Rattle.tsdb_tasks.specs.Finishing.{AreRunsOf, Finishes};
ghost use Rattle.tsdb_tasks.specs.Series.{AreSeriesOfJob, run_paths};
ghost use Rattle.tsdb_tasks.specs.States.{AreInputsIn, IsFresh, IsNewOf, IsPlaceOf, TellsOutput};
ghost use Rattle.tsdb_tasks.specs.States.{sent_files};
ghost use Rattle.tsdb_tasks.specs.declared.finishing.InputRuns.{InputRuns};
ghost use Rattle.tsdb_tasks.specs.declared.series.JobSeries.{JobSeries as SeriesOf};
ghost use Rattle.tsdb_compactions.specs.Jobs.{IsCompactionOf};
ghost use Rattle.tsdb_compactions.specs.Outputs.{HasSchema};
ghost use Rattle.tsdb_compactions.specs.Plans.{IsOfMoment};
ghost use Rattle.tsdb_fileset.specs.StateOfFiles.{AreFilesOf, TellTheirBytes};
ghost use Rattle.tsdb_fileset.specs.Files.{AreKept, IsOpen, KeptFiles};
ghost use Rattle.tsdb_fileset.specs.Replacing.{IsWithin};
ghost use Rattle.tsdb_state.specs.Layers.{value_in};
ghost use Rattle.tsdb_state.specs.Places.{PointPlace};
ghost use Rattle.tsdb_marks.specs.declared.marks.Mark.{Mark};
ghost use Rattle.tsdb_memory.specs.StateOfMemory.{IsMemoryOf};
ghost use Rattle.tsdb_memory.specs.Store.{MemoryState};
ghost use Rattle.tsdb_outside.specs.Files.{StoredFile};
ghost use Rattle.tsdb_state.specs.Jobs.{HasKind, Stands, job_inputs};
ghost use Rattle.tsdb_base.specs.Limits.{end_of_numbers};
ghost use Rattle.tsdb_state.specs.Order.{IsInOrder};
ghost use Rattle.tsdb_state.specs.State.{Compaction, EngineState, KnownFiles, ToldContents};
ghost use Rattle.tsdb_state.specs.Steps.{IsOutputPlace, began, committed, ended};
ghost use Rattle.tsdb_state.specs.Views.{file_layers};

use crate::beginning::TakenInputs;
use tsdb_compactions::Job;
use tsdb_outside::Files;

/// Where a job is given up, the files are those of the state in which its compaction has ended, with its output on its
/// way out, if there is one.
pub fn a_job_given_up_ends_in_the_state<F: Files>(_job: &Job<F>)
    ensures { (old new : KeptFiles) (known : KnownFiles) (engine : EngineState) (compaction : Compaction)
        (others : List Compaction) (file : Option NewFile) → AreFilesOf old known engine → AreKept old
        → IsOpen _job.now.output.0 old → IsCompactionOf _job.now compaction → IsFresh _job.now.output.0 file engine
        → GivesUp old new _job.now file → AreFilesOf new known (ended compaction others (sent_files file) engine) }
{}

/// Where a job is finished, the files are those of the state in which its compaction is committed, with its output at
/// the place. What is known of its number has to be what is kept of it.
pub fn a_finished_job_is_committed_in_the_state<F: Files>(_job: &Job<F>)
    ensures { (old new : KeptFiles) (known : KnownFiles) (engine : EngineState) (compaction : Compaction)
        (others : List Compaction) (file : Option NewFile) (runs : InputRuns) (place : ℕ) → AreFilesOf old known engine
        → AreKept old → IsOpen _job.now.output.0 old → IsCompactionOf _job.now compaction
        → IsFresh _job.now.output.0 file engine → IsNewOf _job.now.output.0 _job.now.born.0 file
        → (1 ≤ _job.now.output.0) → AreRunsOf _job.now runs old → IsPlaceOf _job.now.space runs place
        → AreInputsIn runs old compaction → IfSome file (λ one. known (file_number one) ≡ known_entry one)
        → Finishes old new _job.now runs file
        → AreFilesOf new known (committed compaction others (sent_files file) place engine) }
{}

/// The runs of a job that is out have the inputs of its compaction, where these stand in the lists of the state as its
/// kind asks; its output has a place there.
pub fn the_runs_of_a_job_have_its_inputs<F: Files>(_job: &Job<F>)
    ensures { (told : ToldContents) (files : KeptFiles) (known : KnownFiles) (engine : EngineState)
        (compaction : Compaction)
        (runs : InputRuns) → AreFilesOf files known engine → AreKept files → IsCompactionOf _job.now compaction
        → HasKind _job.now.space compaction
        → Stands _job.now.space told engine.store.sequence engine.store.unsequence compaction
        → AreRunsOf _job.now runs files → AreInputsIn runs files compaction
        × ((place : ℕ) × IsPlaceOf _job.now.space runs place
        × IsOutputPlace _job.now.space compaction engine.store place) }
{}

/// Where the inputs of a job are taken, the files are those of the state in which its compaction has begun.
pub fn a_begun_job_begins_in_the_state<F: Files>(_taken: &TakenInputs<F>)
    ensures { (space : SpaceOf) (output : ℕ) (runs : InputRuns) (old new : KeptFiles) (known : KnownFiles)
        (engine : EngineState) (compaction : Compaction) → AreFilesOf old known engine
        → IsWithin runs.unsequence old.unsequence → job_inputs compaction ≡ run_files runs old
        → AreBegun F.Right.file space output runs old new _taken.now
        → AreFilesOf new known (began compaction engine) }
{}

/// Where the inputs of a job are taken, and where it ends, the tokens go on to tell what is kept, if the token of its
/// output does.
pub fn tokens_tell_on<F: Files>(_taken: &TakenInputs<F>, _job: &Job<F>)
    ensures begun { (space : SpaceOf) (output : ℕ) (runs : InputRuns) (old new : KeptFiles) (kept : List StoredFile)
        → TellTheirBytes old kept → AreBegun F.Right.file space output runs old new _taken.now
        → TellTheirBytes new kept }
    ensures given_up { (old new : KeptFiles) (kept told : List StoredFile) (file : Option NewFile)
        → TellTheirBytes old kept → TellsOutput _job.now.output.0 file kept told → GivesUp old new _job.now file
        → TellTheirBytes new told }
    ensures finished { (runs : InputRuns) (old new : KeptFiles) (kept told : List StoredFile) (file : Option NewFile)
        → TellTheirBytes old kept → TellsOutput _job.now.output.0 file kept told
        → Finishes old new _job.now runs file → TellTheirBytes new told }
{}

/// A compaction of the files of the runs, with the stamp, the next number, and the marks that memory has of their
/// series, is of its moment.
pub fn the_marks_of_a_job_are_of_its_moment()
    ensures { (files : KeptFiles) (runs : InputRuns) (store : MemoryState) (series : SeriesOf) (known : KnownFiles)
        (engine : EngineState) (job : Compaction) → AreFilesOf files known engine → AreKept files
        → IsWithin runs.sequence files.sequence → IsWithin runs.unsequence files.unsequence
        → IsMemoryOf store engine.store → AreSeriesOfJob (run_paths runs files) store series
        → job_inputs job ≡ run_files runs files → job.marks ≡ series.marks.marks → job.born ≡ store.stamp
        → job.output ≡ engine.next_file → engine.next_file + 2 ≤ end_of_numbers → IsOfMoment known engine job }
{}

/// Each value that the files of the runs have at a place, under whatever marks, is of a series that has its schema, in
/// a state in order.
pub fn a_winner_of_a_job_has_its_schema()
    ensures { (told : ToldContents) (known : KnownFiles) (named : List ℕ) (engine : EngineState) (files : KeptFiles)
        (runs : InputRuns) (store : MemoryState) (series : SeriesOf) (marks : List Mark) (place : PointPlace)
        (value : Value)
        → IsInOrder told known named engine → AreFilesOf files known engine → AreKept files
        → IsWithin runs.sequence files.sequence → IsWithin runs.unsequence files.unsequence
        → IsMemoryOf store engine.store → AreSeriesOfJob (run_paths runs files) store series
        → value_in marks place (file_layers told (run_files runs files)) ≡ Some value
        → HasSchema series.schemas place value }
{}
