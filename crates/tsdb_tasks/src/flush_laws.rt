//! The laws. The functions do nothing; their contracts say them.
ghost use Rattle.std.specs.Prelude.{◌≡◌, ◌↔◌, ◌≤◌, ℕ, List, ◌∷◌, ◌++◌, map};
ghost use Rattle.std.specs.declared.option.Option.{Option};
ghost use Rattle.std.specs.List.{AllByRecursion};
ghost use Rattle.tsdb_base.specs.declared.ids.Stamp.{Stamp};
ghost use Rattle.tsdb_tasks.specs.Coming.{AreSentOut, HaveCome, StandLast};
ghost use Rattle.tsdb_tasks.specs.Files.{AreAllThere, AreFilesOfJob, IsOutAs, NewFiles, TellBytes, state_files};
ghost use Rattle.tsdb_tasks.specs.Files.{with_files};
ghost use Rattle.tsdb_fileset.specs.StateOfFiles.{AreFilesOf, TellTheirBytes};
ghost use Rattle.tsdb_state.specs.StoredEngine.{IsKeptWhole, built_files};
ghost use Rattle.tsdb_compactions.specs.FlushJob.{FlushJob};
ghost use Rattle.tsdb_fileset.specs.Files.{KeptFiles};
ghost use Rattle.tsdb_base.specs.Lists.{Among, IsWithOne};
ghost use Rattle.tsdb_memory.specs.Flushes.{CanCommit};
ghost use Rattle.tsdb_memory.specs.LogState.{IsStoredIn, Outside};
ghost use Rattle.tsdb_model.specs.World.{World};
ghost use Rattle.tsdb_memory.specs.Least.{IsLeastOf};
ghost use Rattle.tsdb_memory.specs.StateOfMemory.{file_borns};
ghost use Rattle.tsdb_outside.specs.Files.{Store};
ghost use Rattle.tsdb_state.specs.Jobs.{drawn_by};
ghost use Rattle.tsdb_state.specs.State as state;
ghost use Rattle.tsdb_state.specs.State.{EngineState, FrozenContent};
ghost use Rattle.tsdb_state.specs.Steps.{EndsFlush, committed_flush, ended_flush, number_or_none};
ghost use Rattle.tsdb_state.specs.Worlds.{StandsFor};

/// What a flush has built can be told: the engine is stored in the same state with its files kept, told as the parts of
/// the flush, and known by what is kept of them; and it stands for the same worlds. A record may be in doubt.
pub fn a_built_file_can_be_told()
    ensures stored { (store : Store) (job : FlushJob) (files : NewFiles) (outside : Outside) (engine : EngineState)
        (flush : state.FlushState) (others : List state.FlushState) → IsStoredIn outside engine
        → IsOutAs job flush others engine → AreFilesOfJob store job files
        → IsStoredIn (with_files flush files outside) engine }
    ensures kept { (store : Store) (job : FlushJob) (files : NewFiles) (outside : Outside) (engine : EngineState)
        (flush : state.FlushState) (others : List state.FlushState) → IsStoredIn outside engine
        → IsOutAs job flush others engine → AreFilesOfJob store job files → TellBytes files
        → AllByRecursion (IsKeptWhole (with_files flush files outside).kept (with_files flush files outside).told)
        (state_files files) }
    ensures worlds { (store : Store) (job : FlushJob) (files : NewFiles) (outside : Outside) (engine : EngineState)
        (flush : state.FlushState) (others : List state.FlushState) (world : World) → IsStoredIn outside engine
        → IsOutAs job flush others engine → AreFilesOfJob store job files
        → (StandsFor outside.told engine.store world ↔ StandsFor (with_files flush files outside).told engine.store
        world) }
{}

/// A flush all of whose files are told can be committed where the oldest frozen pair has its born. The least born of
/// the
/// files that are listed then is that of those before and of the flush.
pub fn a_flush_whose_files_are_told_can_be_committed()
    ensures commit { (store : Store) (job : FlushJob) (files : NewFiles) (outside : Outside) (engine : EngineState)
        (flush : state.FlushState) (others : List state.FlushState) (oldest : FrozenContent)
        (newer : List FrozenContent)
        (listed : Option Stamp) → IsStoredIn outside engine → IsOutAs job flush others engine
        → AreFilesOfJob store job files
        → AreAllThere job files → TellBytes files → engine.store.frozen ≡ oldest ∷ newer → oldest.born ≡ job.born.0
        → IsLeastOf listed (file_borns (committed_flush flush others engine).store)
        → CanCommit (number_or_none flush.sequence) (number_or_none flush.unsequence) listed
        (with_files flush files outside) engine flush others }
    ensures least { (outside : Outside) (engine : EngineState) (flush : state.FlushState)
        (others : List state.FlushState)
        (born : ℕ) (oldest : FrozenContent) (newer : List FrozenContent) (listed : Option Stamp)
        → IsStoredIn outside engine
        → IsWithOne flush others engine.flushes → engine.store.frozen ≡ oldest ∷ newer → oldest.born ≡ born
        → IsLeastOf listed (file_borns engine.store ++ map (λ number. born) (drawn_by flush))
        → IsLeastOf listed (file_borns (committed_flush flush others engine).store) }
{}

/// A flush may end without its record: the engine is stored with the files that are there on their way out.
pub fn a_flush_may_end_without_its_record()
    ensures ends { (store : Store) (job : FlushJob) (files : NewFiles) (engine : EngineState) (flush : state.FlushState)
        (others : List state.FlushState) → IsOutAs job flush others engine → AreFilesOfJob store job files
        → EndsFlush flush others (state_files files) engine }
    ensures stored { (store : Store) (job : FlushJob) (files : NewFiles) (outside : Outside) (engine : EngineState)
        (flush : state.FlushState) (others : List state.FlushState) → IsStoredIn outside engine
        → IsOutAs job flush others engine → AreFilesOfJob store job files → TellBytes files
        → IsStoredIn (with_files flush files outside) (ended_flush flush others (state_files files) engine) }
{}

/// The pair of a flush that is out is frozen no longer exactly where the oldest frozen pair has another born. Some
/// pair was
/// frozen at a stamp or before it exactly where the oldest one was.
pub fn a_pair_that_is_frozen_is_the_oldest()
    ensures frozen { (job : FlushJob) (outside : Outside) (engine : EngineState) (flush : state.FlushState)
        (others : List state.FlushState) (oldest : FrozenContent) (newer : List FrozenContent)
        → IsStoredIn outside engine
        → IsOutAs job flush others engine → engine.store.frozen ≡ oldest ∷ newer
        → ((oldest.born ≡ job.born.0) ↔ Among job.born.0 (map (λ pair. pair.born) engine.store.frozen)) }
    ensures due { (outside : Outside) (engine : EngineState) (upto : ℕ) (oldest : FrozenContent)
        (newer : List FrozenContent)
        → IsStoredIn outside engine → engine.store.frozen ≡ oldest ∷ newer
        → ((oldest.born ≤ upto) ↔ ((pair : FrozenContent) × Among pair engine.store.frozen × (pair.born ≤ upto))) }
{}

/// Files of a flush that stand last in their lists are those of the state after its commit. Files that were sent out
/// are
/// those of a state in which the flush ended without its record. They go on to tell what is kept.
pub fn the_files_of_a_flush_join_those_of_the_state()
    ensures listed { (store : Store) (job : FlushJob) (files : NewFiles) (old new : KeptFiles) (outside : Outside)
        (engine : EngineState) (flush : state.FlushState) (others : List state.FlushState) (oldest : FrozenContent)
        (newer : List FrozenContent) → IsStoredIn outside engine → AreFilesOf old outside.known engine
        → IsOutAs job flush others engine → AreFilesOfJob store job files → AreAllThere job files
        → engine.store.frozen ≡ oldest ∷ newer → oldest.born ≡ job.born.0 → HaveCome (drawn_by flush) files old new
        → StandLast files old new
        → AreFilesOf new (with_files flush files outside).known (committed_flush flush others engine) }
    ensures sent_out { (store : Store) (job : FlushJob) (files : NewFiles) (old new : KeptFiles) (outside : Outside)
        (engine : EngineState) (flush : state.FlushState) (others : List state.FlushState) → IsStoredIn outside engine
        → AreFilesOf old outside.known engine → IsOutAs job flush others engine → AreFilesOfJob store job files
        → HaveCome (drawn_by flush) files old new → AreSentOut files old new
        → AreFilesOf new (with_files flush files outside).known (ended_flush flush others (state_files files) engine) }
    ensures told { (store : Store) (job : FlushJob) (files : NewFiles) (old new : KeptFiles) (outside : Outside)
        (engine : EngineState) (flush : state.FlushState) (others : List state.FlushState) → IsStoredIn outside engine
        → IsOutAs job flush others engine → AreFilesOfJob store job files → TellBytes files
        → TellTheirBytes old outside.kept
        → HaveCome (drawn_by flush) files old new
        → TellTheirBytes new (with_files flush files outside).kept }
    ensures all { (store : Store) (job : FlushJob) (files : NewFiles) (flush : state.FlushState) (others : List
        state.FlushState)
        (engine : EngineState) → IsOutAs job flush others engine → AreFilesOfJob store job files → AreAllThere job files
        → state_files files ≡ built_files flush }
{}
