//! What a stop leaves of a stored engine. The functions do nothing; their contracts are the laws.
ghost use Rattle.std.specs.Prelude.{◌≡◌, ◌⊎◌, ℕ, ◌<◌, ◌≤◌, List, [], ◌++◌, map, None, Some};
ghost use Rattle.std.specs.declared.option.Option.{Option};
ghost use Rattle.std.specs.List.{All, AllByRecursion};
ghost use Rattle.std.specs.Option.{option_map};
ghost use Rattle.tsdb_frames.specs.Log.{HasRecordsOrOneMore, IsLogOn, IsSettled};
ghost use Rattle.tsdb_outside.specs.Moments.{LeavesFirstThen, LeavesOnly};
ghost use Rattle.tsdb_state.specs.StoredEngine.{IsKeptWhole, IsStored, LeadsTo, LeavesOneOf, kept_bytes};
ghost use Rattle.tsdb_base.specs.Lists.{count};
ghost use Rattle.tsdb_log.specs.Spelling.{IsRecord, spelling};
ghost use Rattle.tsdb_log.specs.declared.record.LogRecord.{LogRecord};
ghost use Rattle.tsdb_model.specs.State as plain;
ghost use Rattle.tsdb_outside.specs.Disk.{Image, in_slot};
ghost use Rattle.tsdb_outside.specs.Files.{StoredFile};
ghost use Rattle.tsdb_outside.specs.declared.disk.Slot.{Slot};
ghost use Rattle.tsdb_state.specs.Replays.{Replays};
ghost use Rattle.tsdb_state.specs.Stores.{BytesByNumber, HoldsKept, IsSound, IsStateOf, Recorded, store_steps};
ghost use Rattle.tsdb_state.specs.Jobs.{EntriesMatch, NumbersInOrder};
ghost use Rattle.tsdb_base.specs.Limits.{end_of_numbers};
ghost use Rattle.tsdb_state.specs.NewStore.{opened};
ghost use Rattle.tsdb_state.specs.Order.{all_files};
ghost use Rattle.tsdb_state.specs.State.{EngineState, KnownFiles, ToldContents};
ghost use Rattle.tsdb_state.specs.StoreOrder.{StoreInOrder};
ghost use Rattle.tsdb_state.specs.Steps.{failed};

use tsdb_outside::Disk;

/// Whatever a stop leaves of a stored engine stands for its state, or for that of the record in doubt, with whatever
/// files hold the kept ones.
pub fn a_stop_leaves_one_of_two_states<D: Disk>(_disk: &D)
    ensures { (items : List LogRecord) (kept : List StoredFile) (told : ToldContents) (known : KnownFiles)
        (state : EngineState)
        (at : plain.State) (next : Option plain.State) (slot : Slot) (gate : ℕ) (image : Image)
        → IsStored items kept told known state → IsStateOf told state.store at
        → LeadsTo told state.store state.doubt next
        → IsLogOn (D.state _disk.now) slot gate (map spelling items) (option_map spelling state.doubt)
        → (D.state _disk.now).may_leave image → LeavesOneOf kept slot at next image }
{}

/// At each moment of an append a stop leaves the state, or that of the record that was in doubt, or that of the record
/// that is appended. `state` is the engine before it, `doubtful` the one that a failed append leaves.
pub fn an_append_leaves_the_old_state_or_the_next<D: Disk>(_old: &D, _new: &D)
    ensures { (items : List LogRecord) (kept : List StoredFile) (told : ToldContents) (known : KnownFiles)
        (state doubtful : EngineState) (item : LogRecord) (at after : plain.State) (next : Option plain.State)
        (slot : Slot)
        → IsStored items kept told known state → IsStored items kept told known (failed item doubtful)
        → doubtful.store ≡ state.store → IsStateOf told state.store at
        → LeadsTo told state.store state.doubt next → LeadsTo told state.store (Some item) (Some after)
        → LeavesFirstThen (D.state _old.now) (D.state _new.now)
        (λ image. HasRecordsOrOneMore (map spelling items) (option_map spelling state.doubt) (in_slot slot image))
        (λ image. HasRecordsOrOneMore (map spelling items) (Some (spelling item)) (in_slot slot image))
        → LeavesOnly (D.state _old.now) (D.state _new.now)
        (λ image. LeavesOneOf kept slot at next image ⊎ LeavesOneOf kept slot at (Some after) image) }
{}

/// What is kept besides the files of an engine is free: files that a caller has built, or that were swept.
pub fn files_kept_besides_are_free()
    ensures others { (items : List LogRecord) (kept others : List StoredFile) (told : ToldContents) (known : KnownFiles)
        (state : EngineState) → IsStored items kept told known state
        → AllByRecursion (λ file. kept_bytes others file.number ≡ kept_bytes kept file.number) (all_files state)
        → IsStored items others told known state }
    ensures more { (items : List LogRecord) (kept more : List StoredFile) (told : ToldContents) (known : KnownFiles)
        (state : EngineState) → IsStored items kept told known state → IsStored items (kept ++ more) told known state }
{}

/// What is told of a file that the engine does not have, and what is kept of it in memory, is free. Nothing may be in
/// doubt then.
pub fn what_is_told_of_other_files_is_free()
    ensures { (items : List LogRecord) (kept : List StoredFile) (told other : ToldContents) (known entries : KnownFiles)
        (state : EngineState) → IsStored items kept told known state → state.doubt ≡ None
        → AllByRecursion (λ file. told file.number ≡ other file.number) (all_files state)
        → AllByRecursion (λ file. known file.number ≡ entries file.number)
        (state.store.sequence ++ state.store.unsequence)
        → IsStored items kept other entries state }
{}

/// The numbers of a replay are in order, with a next one above all that its records have named: listed files have
/// numbers that were named, each once.
pub fn a_replay_has_its_numbers_in_order()
    ensures { (items : List LogRecord) (recorded : Recorded) (next : ℕ)
        → Replays store_steps store_steps.new_store items recorded → 1 ≤ next → next ≤ end_of_numbers
        → ((number : ℕ) → 1 ≤ count number recorded.named → number < next)
        → NumbersInOrder recorded.named next ((recorded.store.sequence ++ recorded.store.unsequence) ++ []) [] }
{}

/// An engine that was just opened over the replay of a log, in order and with its listed files kept, is stored.
pub fn an_opened_engine_is_stored()
    ensures { (items : List LogRecord) (kept : List StoredFile) (told : ToldContents) (known : KnownFiles)
        (recorded : Recorded)
        (next : ℕ) → All IsRecord items → Replays store_steps store_steps.new_store items recorded
        → StoreInOrder told recorded.store
        → AllByRecursion (IsKeptWhole kept told) (recorded.store.sequence ++ recorded.store.unsequence)
        → NumbersInOrder recorded.named next ((recorded.store.sequence ++ recorded.store.unsequence) ++ []) []
        → EntriesMatch told known (recorded.store.sequence ++ recorded.store.unsequence)
        → IsStored items kept told known (opened next recorded.store) }
{}

/// A stored engine with nothing in doubt leaves a sound store, where its slot is settled.
pub fn a_settled_engine_leaves_a_sound_store<D: Disk>(_disk: &D)
    ensures { (items : List LogRecord) (kept : List StoredFile) (told : ToldContents) (known : KnownFiles)
        (state : EngineState)
        (at : plain.State) (slot : Slot) (gate : ℕ) (files : BytesByNumber)
        → IsStored items kept told known state → state.doubt ≡ None → IsStateOf told state.store at
        → IsLogOn (D.state _disk.now) slot gate (map spelling items) None → IsSettled slot (D.state _disk.now)
        → HoldsKept kept files → IsSound slot (D.state _disk.now) files at }
{}
