//! The laws. The functions do nothing; their contracts say them.
ghost use Rattle.std.specs.Prelude.{◌↔◌, ℕ, IsSome, List, []};
ghost use Rattle.std.specs.declared.option.Option.{Option};
ghost use Rattle.std.specs.List.{AllByRecursion};
ghost use Rattle.tsdb_base.specs.declared.ids.Stamp.{Stamp};
ghost use Rattle.tsdb_tasks.specs.Files.{NewFile, file_built};
ghost use Rattle.tsdb_compactions.specs.Jobs.{IsCompactionOf};
ghost use Rattle.tsdb_compactions.specs.Outputs.{IsBuiltFor, TellsInputs};
ghost use Rattle.tsdb_state.specs.StoredEngine.{IsKeptWhole};
ghost use Rattle.tsdb_base.specs.Lists.{IsWithOne};
ghost use Rattle.tsdb_state.specs.Places.{Content};
ghost use Rattle.tsdb_memory.specs.LogState.{IsStoredIn, Outside};
ghost use Rattle.tsdb_memory.specs.Replacing.{CanCommitReplacement};
ghost use Rattle.tsdb_model.specs.World.{World};
ghost use Rattle.tsdb_memory.specs.Least.{IsLeastOf};
ghost use Rattle.tsdb_memory.specs.StateOfMemory.{file_borns};
ghost use Rattle.tsdb_tasks.specs.Outputs.{IsNewOutput, output_file, with_output};
ghost use Rattle.tsdb_state.specs.State.{Compaction, EngineState, ToldContents};
ghost use Rattle.tsdb_state.specs.Steps.{EndsCompaction, IsOutput, IsOutputPlace, committed, compaction_record, ended};
ghost use Rattle.tsdb_state.specs.Worlds.{StandsFor};

use tsdb_compactions::{Built, Job};
use tsdb_outside::Files;

/// The output of a compaction that is out can be told: the engine is stored in the same state with it, it is kept, and
/// the state stands for the same worlds. A record may be in doubt.
pub fn a_built_output_can_be_told()
    ensures stored { (outside : Outside) (engine : EngineState) (job : Compaction) (others : List Compaction)
        (content : Content) (file : NewFile) → IsStoredIn outside engine → IsWithOne job others engine.compactions
        → IsNewOutput outside.told job content file → IsStoredIn (with_output content file outside) engine }
    ensures kept { (outside : Outside) (engine : EngineState) (job : Compaction) (others : List Compaction)
        (content : Content) (file : NewFile) → IsStoredIn outside engine → IsWithOne job others engine.compactions
        → IsNewOutput outside.told job content file
        → AllByRecursion (IsKeptWhole (with_output content file outside).kept (with_output content file outside).told)
        (output_file file) }
    ensures worlds { (outside : Outside) (engine : EngineState) (job : Compaction) (others : List Compaction)
        (content : Content) (file : NewFile) (world : World) → IsStoredIn outside engine
        → IsWithOne job others engine.compactions → IsNewOutput outside.told job content file
        → (StandsFor outside.told engine.store world
        ↔ StandsFor (with_output content file outside).told engine.store world) }
{}

/// A compaction that is out can be committed with its output, or without one where no place has a winner, at the place
/// that its output has.
pub fn a_job_with_its_output_can_be_committed()
    ensures output { (outside : Outside) (engine : EngineState) (job : Compaction) (others : List Compaction)
        (content : Content) (file : NewFile) (place : ℕ) (listed : Option Stamp) → IsStoredIn outside engine
        → IsWithOne job others engine.compactions → IsNewOutput outside.told job content file
        → IsOutputPlace job.space job engine.store place
        → IsLeastOf listed (file_borns (committed job others (output_file file) place engine).store)
        → CanCommitReplacement (compaction_record job (output_file file) place) listed (with_output content file outside) engine
        job others (output_file file) place }
    ensures none { (outside : Outside) (engine : EngineState) (job : Compaction) (others : List Compaction) (place : ℕ)
        (listed : Option Stamp) → IsWithOne job others engine.compactions → IsOutput outside.told job []
        → IsOutputPlace job.space job engine.store place
        → IsLeastOf listed (file_borns (committed job others [] place engine).store)
        → CanCommitReplacement (compaction_record job [] place) listed outside engine job others [] place }
{}

/// A compaction that is out may end without its record: the engine is stored with its output on its way out, or without
/// one.
pub fn a_job_may_end_without_its_record()
    ensures ends { (outside : Outside) (engine : EngineState) (job : Compaction) (others : List Compaction)
        (content : Content) (file : NewFile) → IsWithOne job others engine.compactions
        → IsNewOutput outside.told job content file → EndsCompaction job others (output_file file) engine }
    ensures stored { (outside : Outside) (engine : EngineState) (job : Compaction) (others : List Compaction)
        (content : Content) (file : NewFile) → IsStoredIn outside engine → IsWithOne job others engine.compactions
        → IsNewOutput outside.told job content file
        → IsStoredIn (with_output content file outside) (ended job others (output_file file) engine) }
    ensures none { (outside : Outside) (engine : EngineState) (job : Compaction) (others : List Compaction)
        → IsStoredIn outside engine → IsWithOne job others engine.compactions
        → IsStoredIn outside (ended job others [] engine) }
{}

/// A file that was built for a job is the new output of its compaction, where its token and the rights to read the
/// inputs tell bytes.
pub fn a_file_built_for_a_job_is_its_output<F: Files>(_job: &Job<F>, _built: &Built<F>)
    ensures { (told : ToldContents) (compaction : Compaction) → IsCompactionOf _job.now compaction
        → IsBuiltFor F.Right.file F.Sealed.file F.Sealed.rights _job.now _built.now
        → TellsInputs F.Right.file told _job.now → IsSome (F.Sealed.file _built.now.sealed).bytes
        → (content : Content) × IsNewOutput told compaction content (file_built F.Sealed.file _built.now) }
{}
