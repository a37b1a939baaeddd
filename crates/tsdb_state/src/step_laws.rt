//! Laws of the steps of an engine: each keeps it in order, whatever jobs and pins are out. The functions do nothing;
//! their contracts are the laws.
ghost use Rattle.std.specs.List.{AllByRecursion};
ghost use Rattle.std.specs.Prelude.{◌≡◌, ◌++◌, ℕ, ℤ, List, Some};
ghost use Rattle.tsdb_base.specs.declared.point.Range.{Range};
ghost use Rattle.tsdb_base.specs.Lists.{Among, IsWithOne, count};
ghost use Rattle.tsdb_log.specs.declared.record.CellRecord.{CellRecord};
ghost use Rattle.tsdb_log.specs.declared.record.LogRecord.{LogRecord};
ghost use Rattle.tsdb_model.specs.declared.command.Schema.{Schema};
ghost use Rattle.tsdb_state.specs.Commands.{KeepsBytes};
ghost use Rattle.tsdb_state.specs.Jobs.{held_numbers};
ghost use Rattle.tsdb_state.specs.Order.{DoubtInOrder, FollowsWorld, IsInOrder};
ghost use Rattle.tsdb_state.specs.Records.{CanCreate, CanDelete, CanFollow, CanFreeze, CanInsert, after, names};
ghost use Rattle.tsdb_state.specs.Records.{numbers_of};
ghost use Rattle.tsdb_state.specs.State.{Compaction, EngineState, KnownFiles, File, FlushState, PinState, ToldContents};
ghost use Rattle.tsdb_state.specs.Steps.{Begins, CommitsCompaction, CommitsFlush, EndsCompaction, EndsFlush, Sweeps};
ghost use Rattle.tsdb_state.specs.Steps.{TakesFlush, TakesPin, began, committed, committed_flush, compaction_record};
ghost use Rattle.tsdb_state.specs.Steps.{ended, ended_flush, failed, flush_record, pinned, settled, swept, took_flush};
ghost use Rattle.tsdb_state.specs.Steps.{unpinned, wrote};
ghost use Rattle.tsdb_state.specs.StoreOrder.{StoreInOrder};
ghost use Rattle.tsdb_state.specs.Worlds.{KeepsWorld};

/// A command that was written keeps an engine in order.
pub fn commands_keep_order()
    ensures create { (told : ToldContents) (known : KnownFiles) (named : List ℕ) (state : EngineState) (schema : Schema)
        → IsInOrder told known named state → CanCreate schema state.store
        → IsInOrder told known named
        (wrote (LogRecord.Create schema.path schema.data_type schema.encoding) state) }
    ensures insert { (told : ToldContents) (known : KnownFiles) (named : List ℕ) (state : EngineState) (time : ℤ)
        (cells : List CellRecord)
        → IsInOrder told known named state → CanInsert time cells state.store → KeepsBytes time cells state.store
        → IsInOrder told known named (wrote (LogRecord.Insert time cells) state) }
    ensures delete { (told : ToldContents) (known : KnownFiles) (named : List ℕ) (state : EngineState) (path : List ℕ)
        (range : Range)
        → IsInOrder told known named state → CanDelete path state.store
        → IsInOrder told known named (wrote (LogRecord.Delete path range) state) }
{}

/// A freeze keeps an engine in order. Its world is that of the store, which the store's law says.
pub fn freeze_keeps_the_engine_in_order()
    ensures { (told : ToldContents) (known : KnownFiles) (named : List ℕ) (state : EngineState)
        → IsInOrder told known named state → CanFreeze state.store
        → IsInOrder told known named (wrote LogRecord.Freeze state) }
{}

/// A flush that is taken, that ends without its record, or that is committed keeps an engine in order; a committed one
/// keeps the world, and the others leave the store as it is.
pub fn flushes_keep_order()
    ensures take { (told : ToldContents) (known : KnownFiles) (named : List ℕ) (state : EngineState)
        (flush : FlushState)
        → IsInOrder told known named state → TakesFlush flush state
        → IsInOrder told known named (took_flush flush state) }
    ensures end { (told : ToldContents) (known : KnownFiles) (named : List ℕ) (state : EngineState) (flush : FlushState)
        (others : List FlushState) (built : List File)
        → IsInOrder told known named state → EndsFlush flush others built state
        → IsInOrder told known named (ended_flush flush others built state) }
    ensures commit { (told : ToldContents) (known : KnownFiles) (named : List ℕ) (state : EngineState)
        (flush : FlushState)
        (others : List FlushState)
        → IsInOrder told known named state → CommitsFlush told known flush others state
        → IsInOrder told known (names (flush_record flush) ++ named) (committed_flush flush others state) }
    ensures world { (told : ToldContents) (known : KnownFiles) (named : List ℕ) (state : EngineState)
        (flush : FlushState)
        (others : List FlushState)
        → IsInOrder told known named state → CommitsFlush told known flush others state
        → KeepsWorld told state.store (committed_flush flush others state).store }
{}

/// A compaction that begins, that ends without its record, or that is committed keeps an engine in order; a committed
/// one keeps the world, and the others leave the store as it is.
pub fn compactions_keep_order()
    ensures begin { (told : ToldContents) (known : KnownFiles) (named : List ℕ) (state : EngineState) (job : Compaction)
        → IsInOrder told known named state → Begins told job state
        → IsInOrder told known named (began job state) }
    ensures end { (told : ToldContents) (known : KnownFiles) (named : List ℕ) (state : EngineState) (job : Compaction)
        (others : List Compaction) (built : List File)
        → IsInOrder told known named state → EndsCompaction job others built state
        → IsInOrder told known named (ended job others built state) }
    ensures commit { (told : ToldContents) (known : KnownFiles) (named : List ℕ) (state : EngineState)
        (job : Compaction)
        (others : List Compaction) (output : List File) (place : ℕ)
        → IsInOrder told known named state → CommitsCompaction told known job others output place state
        → IsInOrder told known (names (compaction_record job output place) ++ named)
        (committed job others output place state) }
    ensures world { (told : ToldContents) (known : KnownFiles) (named : List ℕ) (state : EngineState) (job : Compaction)
        (others : List Compaction) (output : List File) (place : ℕ)
        → IsInOrder told known named state → CommitsCompaction told known job others output place state
        → KeepsWorld told state.store (committed job others output place state).store }
{}

/// Pins and sweeps keep an engine in order, and leave the store as it is. What is swept nobody has a right on.
pub fn pins_and_sweeps_keep_order()
    ensures pin { (told : ToldContents) (known : KnownFiles) (named : List ℕ) (state : EngineState) (pin : PinState)
        → IsInOrder told known named state → TakesPin known pin state
        → IsInOrder told known named (pinned pin state) }
    ensures unpin { (told : ToldContents) (known : KnownFiles) (named : List ℕ) (state : EngineState) (pin : PinState)
        (others : List PinState)
        → IsInOrder told known named state → IsWithOne pin others state.pins
        → IsInOrder told known named (unpinned pin others state) }
    ensures sweep { (told : ToldContents) (known : KnownFiles) (named : List ℕ) (state : EngineState) (numbers : List ℕ)
        → IsInOrder told known named state → Sweeps numbers state
        → IsInOrder told known named (swept numbers state) }
    ensures free { (told : ToldContents) (known : KnownFiles) (named : List ℕ) (state : EngineState) (numbers : List ℕ)
        → IsInOrder told known named state → Sweeps numbers state
        → AllByRecursion (λ number. count number (held_numbers state.compactions state.pins) ≡ 0) numbers }
{}

/// An append that failed keeps an engine in order, with its record in doubt: the record can follow, and the store after
/// it is in order, and has the world of the command or, without one, the same world.
pub fn failed_appends_keep_order()
    ensures fail { (told : ToldContents) (known : KnownFiles) (named : List ℕ) (state : EngineState) (item : LogRecord)
        → IsInOrder told known named state → DoubtInOrder told named state.store state.outgoing item
        → IsInOrder told known named (failed item state) }
    ensures settle { (told : ToldContents) (known : KnownFiles) (named : List ℕ) (state : EngineState)
        → IsInOrder told known named state → IsInOrder told known named (settled state) }
    ensures in_doubt { (told : ToldContents) (known : KnownFiles) (named : List ℕ) (state : EngineState)
        (item : LogRecord)
        → IsInOrder told known named state → state.doubt ≡ Some item
        → CanFollow named item state.store × StoreInOrder told (after item state.store)
        × FollowsWorld told item state.store }
{}

/// A command or a freeze that can be written may be in doubt.
pub fn commands_may_be_in_doubt()
    ensures create { (told : ToldContents) (known : KnownFiles) (named : List ℕ) (state : EngineState) (schema : Schema)
        → IsInOrder told known named state → CanCreate schema state.store
        → DoubtInOrder told named state.store state.outgoing
        (LogRecord.Create schema.path schema.data_type schema.encoding) }
    ensures insert { (told : ToldContents) (known : KnownFiles) (named : List ℕ) (state : EngineState) (time : ℤ)
        (cells : List CellRecord)
        → IsInOrder told known named state → CanInsert time cells state.store → KeepsBytes time cells state.store
        → DoubtInOrder told named state.store state.outgoing (LogRecord.Insert time cells) }
    ensures delete { (told : ToldContents) (known : KnownFiles) (named : List ℕ) (state : EngineState) (path : List ℕ)
        (range : Range)
        → IsInOrder told known named state → CanDelete path state.store
        → DoubtInOrder told named state.store state.outgoing (LogRecord.Delete path range) }
    ensures freeze { (told : ToldContents) (known : KnownFiles) (named : List ℕ) (state : EngineState)
        → IsInOrder told known named state → CanFreeze state.store
        → DoubtInOrder told named state.store state.outgoing LogRecord.Freeze }
{}

/// A commit whose append failed: the job ends, its files go out, and its record may be in doubt.
pub fn failed_commits_keep_order()
    ensures flush { (told : ToldContents) (known : KnownFiles) (named : List ℕ) (state : EngineState)
        (flush : FlushState)
        (others : List FlushState) (built : List File)
        → IsInOrder told known named state → CommitsFlush told known flush others state
        → EndsFlush flush others built state
        → AllByRecursion (λ number. Among number (numbers_of built)) (names (flush_record flush))
        → IsInOrder told known named (failed (flush_record flush) (ended_flush flush others built state)) }
    ensures compaction { (told : ToldContents) (known : KnownFiles) (named : List ℕ) (state : EngineState)
        (job : Compaction)
        (others : List Compaction) (output : List File) (place : ℕ)
        → IsInOrder told known named state → CommitsCompaction told known job others output place state
        → IsInOrder told known named
        (failed (compaction_record job output place) (ended job others output state)) }
{}

/// What a commit appends can follow in the log.
pub fn commits_can_follow()
    ensures flush { (told : ToldContents) (known : KnownFiles) (named : List ℕ) (state : EngineState)
        (flush : FlushState)
        (others : List FlushState)
        → IsInOrder told known named state → CommitsFlush told known flush others state
        → CanFollow named (flush_record flush) state.store }
    ensures compaction { (told : ToldContents) (known : KnownFiles) (named : List ℕ) (state : EngineState)
        (job : Compaction)
        (others : List Compaction) (output : List File) (place : ℕ)
        → IsInOrder told known named state → CommitsCompaction told known job others output place state
        → CanFollow named (compaction_record job output place) state.store }
{}

/// A step that appends no record leaves the store as it is, and so the world.
pub fn other_steps_leave_the_store()
    ensures flush { (flush : FlushState) (others : List FlushState) (built : List File) (state : EngineState)
        → ((took_flush flush state).store ≡ state.store)
        × ((ended_flush flush others built state).store ≡ state.store) }
    ensures compaction { (job : Compaction) (others : List Compaction) (built : List File) (state : EngineState)
        → ((began job state).store ≡ state.store) × ((ended job others built state).store ≡ state.store) }
    ensures pin { (pin : PinState) (others : List PinState) (state : EngineState)
        → ((pinned pin state).store ≡ state.store) × ((unpinned pin others state).store ≡ state.store) }
    ensures sweep { (numbers : List ℕ) (state : EngineState) → (swept numbers state).store ≡ state.store }
    ensures doubt { (item : LogRecord) (state : EngineState)
        → ((failed item state).store ≡ state.store) × ((settled state).store ≡ state.store) }
{}
