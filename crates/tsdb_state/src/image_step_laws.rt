//! Each step keeps an engine stored. The functions do nothing; their contracts are the laws. A step that appends a
//! record has it behind the acknowledged ones.
ghost use Rattle.std.specs.Prelude.{◌≡◌, ℕ, ℤ, List, [], ◌∷◌, ◌++◌};
ghost use Rattle.std.specs.List.{AllByRecursion};
ghost use Rattle.tsdb_base.specs.declared.point.Range.{Range};
ghost use Rattle.tsdb_state.specs.StoredEngine.{AreOutgoing, IsKeptWhole, IsStored, built_files, without_numbers};
ghost use Rattle.tsdb_base.specs.Lists.{IsWithOne};
ghost use Rattle.tsdb_log.specs.Spelling.{IsRecord};
ghost use Rattle.tsdb_log.specs.declared.record.CellRecord.{CellRecord};
ghost use Rattle.tsdb_log.specs.declared.record.LogRecord.{LogRecord};
ghost use Rattle.tsdb_model.specs.declared.command.Schema.{Schema};
ghost use Rattle.tsdb_outside.specs.Files.{StoredFile};
ghost use Rattle.tsdb_state.specs.Commands.{KeepsBytes};
ghost use Rattle.tsdb_state.specs.Records.{CanCreate, CanDelete, CanFreeze, CanInsert};
ghost use Rattle.tsdb_state.specs.State.{Compaction, EngineState, KnownFiles, File, FlushState, PinState, ToldContents};
ghost use Rattle.tsdb_state.specs.Steps.{Begins, CommitsCompaction, CommitsFlush, EndsCompaction, EndsFlush, Sweeps};
ghost use Rattle.tsdb_state.specs.Steps.{TakesFlush, TakesPin, began, committed, committed_flush, compaction_record};
ghost use Rattle.tsdb_state.specs.Steps.{ended, ended_flush, failed, flush_record, pinned, settled, swept, took_flush};
ghost use Rattle.tsdb_state.specs.Steps.{unpinned, wrote};

/// A command or a freeze that was written.
pub fn commands_are_stored()
    ensures create { (items : List LogRecord) (kept : List StoredFile) (told : ToldContents) (known : KnownFiles)
        (state : EngineState) (schema : Schema) → IsStored items kept told known state → CanCreate schema state.store
        → IsRecord (LogRecord.Create schema.path schema.data_type schema.encoding)
        → IsStored (items ++ LogRecord.Create schema.path schema.data_type schema.encoding ∷ []) kept told known
        (wrote (LogRecord.Create schema.path schema.data_type schema.encoding) state) }
    ensures insert { (items : List LogRecord) (kept : List StoredFile) (told : ToldContents) (known : KnownFiles)
        (state : EngineState) (time : ℤ) (cells : List CellRecord) → IsStored items kept told known state
        → CanInsert time cells state.store → KeepsBytes time cells state.store
        → IsRecord (LogRecord.Insert time cells)
        → IsStored (items ++ LogRecord.Insert time cells ∷ []) kept told known
        (wrote (LogRecord.Insert time cells) state) }
    ensures delete { (items : List LogRecord) (kept : List StoredFile) (told : ToldContents) (known : KnownFiles)
        (state : EngineState) (path : List ℕ) (range : Range) → IsStored items kept told known state
        → CanDelete path state.store → IsRecord (LogRecord.Delete path range)
        → IsStored (items ++ LogRecord.Delete path range ∷ []) kept told known
        (wrote (LogRecord.Delete path range) state) }
    ensures freeze { (items : List LogRecord) (kept : List StoredFile) (told : ToldContents) (known : KnownFiles)
        (state : EngineState) → IsStored items kept told known state → CanFreeze state.store
        → IsRecord LogRecord.Freeze
        → IsStored (items ++ LogRecord.Freeze ∷ []) kept told known (wrote LogRecord.Freeze state) }
{}

/// A flush that is taken; that ends without its record, with files that are kept; that is committed; or whose commit is
/// in doubt.
pub fn flushes_are_stored()
    ensures take { (items : List LogRecord) (kept : List StoredFile) (told : ToldContents) (known : KnownFiles)
        (state : EngineState) (flush : FlushState) → IsStored items kept told known state → TakesFlush flush state
        → IsStored items kept told known (took_flush flush state) }
    ensures end { (items : List LogRecord) (kept : List StoredFile) (told : ToldContents) (known : KnownFiles)
        (state : EngineState) (flush : FlushState) (others : List FlushState) (built : List File)
        → IsStored items kept told known state → EndsFlush flush others built state
        → AllByRecursion (IsKeptWhole kept told) built
        → IsStored items kept told known (ended_flush flush others built state) }
    ensures commit { (items : List LogRecord) (kept : List StoredFile) (told : ToldContents) (known : KnownFiles)
        (state : EngineState) (flush : FlushState) (others : List FlushState)
        → IsStored items kept told known state → CommitsFlush told known flush others state
        → IsRecord (flush_record flush) → AllByRecursion (IsKeptWhole kept told) (built_files flush)
        → IsStored (items ++ flush_record flush ∷ []) kept told known (committed_flush flush others state) }
    ensures fail { (items : List LogRecord) (kept : List StoredFile) (told : ToldContents) (known : KnownFiles)
        (state : EngineState) (flush : FlushState) (others : List FlushState)
        → IsStored items kept told known state → CommitsFlush told known flush others state
        → IsRecord (flush_record flush) → AllByRecursion (IsKeptWhole kept told) (built_files flush)
        → IsStored items kept told known
        (failed (flush_record flush) (ended_flush flush others (built_files flush) state)) }
{}

/// A compaction that begins; that ends without its record; that is committed; or whose commit is in doubt.
pub fn compactions_are_stored()
    ensures begin { (items : List LogRecord) (kept : List StoredFile) (told : ToldContents) (known : KnownFiles)
        (state : EngineState) (job : Compaction) → IsStored items kept told known state → Begins told job state
        → IsStored items kept told known (began job state) }
    ensures end { (items : List LogRecord) (kept : List StoredFile) (told : ToldContents) (known : KnownFiles)
        (state : EngineState) (job : Compaction) (others : List Compaction) (built : List File)
        → IsStored items kept told known state → EndsCompaction job others built state
        → AllByRecursion (IsKeptWhole kept told) built
        → IsStored items kept told known (ended job others built state) }
    ensures commit { (items : List LogRecord) (kept : List StoredFile) (told : ToldContents) (known : KnownFiles)
        (state : EngineState) (job : Compaction) (others : List Compaction) (output : List File) (place : ℕ)
        → IsStored items kept told known state → CommitsCompaction told known job others output place state
        → IsRecord (compaction_record job output place) → AllByRecursion (IsKeptWhole kept told) output
        → IsStored (items ++ compaction_record job output place ∷ []) kept told known
        (committed job others output place state) }
    ensures fail { (items : List LogRecord) (kept : List StoredFile) (told : ToldContents) (known : KnownFiles)
        (state : EngineState) (job : Compaction) (others : List Compaction) (output : List File) (place : ℕ)
        → IsStored items kept told known state → CommitsCompaction told known job others output place state
        → IsRecord (compaction_record job output place) → AllByRecursion (IsKeptWhole kept told) output
        → IsStored items kept told known
        (failed (compaction_record job output place) (ended job others output state)) }
{}

/// A pin that is taken or given back, and a sweep: the files that it removed need not be kept.
pub fn pins_and_sweeps_are_stored()
    ensures pin { (items : List LogRecord) (kept : List StoredFile) (told : ToldContents) (known : KnownFiles)
        (state : EngineState) (pin : PinState) → IsStored items kept told known state → TakesPin known pin state
        → IsStored items kept told known (pinned pin state) }
    ensures unpin { (items : List LogRecord) (kept : List StoredFile) (told : ToldContents) (known : KnownFiles)
        (state : EngineState) (pin : PinState) (others : List PinState) → IsStored items kept told known state
        → IsWithOne pin others state.pins → IsStored items kept told known (unpinned pin others state) }
    ensures sweep { (items : List LogRecord) (kept : List StoredFile) (told : ToldContents) (known : KnownFiles)
        (state : EngineState) (numbers : List ℕ) → IsStored items kept told known state → Sweeps numbers state
        → AreOutgoing numbers state
        → IsStored items (without_numbers numbers kept) told known (swept numbers state) }
{}

/// A command or a freeze whose append failed, and a doubt that was settled.
pub fn doubts_are_stored()
    ensures create { (items : List LogRecord) (kept : List StoredFile) (told : ToldContents) (known : KnownFiles)
        (state : EngineState) (schema : Schema) → IsStored items kept told known state → CanCreate schema state.store
        → IsRecord (LogRecord.Create schema.path schema.data_type schema.encoding)
        → IsStored items kept told known
        (failed (LogRecord.Create schema.path schema.data_type schema.encoding) state) }
    ensures insert { (items : List LogRecord) (kept : List StoredFile) (told : ToldContents) (known : KnownFiles)
        (state : EngineState) (time : ℤ) (cells : List CellRecord) → IsStored items kept told known state
        → CanInsert time cells state.store → KeepsBytes time cells state.store
        → IsRecord (LogRecord.Insert time cells)
        → IsStored items kept told known (failed (LogRecord.Insert time cells) state) }
    ensures delete { (items : List LogRecord) (kept : List StoredFile) (told : ToldContents) (known : KnownFiles)
        (state : EngineState) (path : List ℕ) (range : Range) → IsStored items kept told known state
        → CanDelete path state.store → IsRecord (LogRecord.Delete path range)
        → IsStored items kept told known (failed (LogRecord.Delete path range) state) }
    ensures freeze { (items : List LogRecord) (kept : List StoredFile) (told : ToldContents) (known : KnownFiles)
        (state : EngineState) → IsStored items kept told known state → CanFreeze state.store
        → IsRecord LogRecord.Freeze → IsStored items kept told known (failed LogRecord.Freeze state) }
    ensures settle { (items : List LogRecord) (kept : List StoredFile) (told : ToldContents) (known : KnownFiles)
        (state : EngineState) → IsStored items kept told known state
        → IsStored items kept told known (settled state) }
{}
