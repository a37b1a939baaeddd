//! The laws of replay. No body uses them. They are said of every kind of state in which a record leads to one state at
//! most.
ghost use Rattle.std.specs.Prelude.{◌≡◌, ℕ, List, []};
ghost use Rattle.std.specs.Prelude.{◌∷◌, ◌++◌, map, Option, Some, IfSome};
ghost use Rattle.std.specs.List.{All};
ghost use Rattle.std.specs.Option.{option_map};
ghost use Rattle.tsdb_frames.specs.Log.{HasRecordsOrOneMore};
ghost use Rattle.tsdb_log.specs.Spelling.{IsRecord, spelling};
ghost use Rattle.tsdb_log.specs.declared.record.LogRecord.{LogRecord};
ghost use Rattle.tsdb_model.specs.State as plain;
ghost use Rattle.tsdb_outside.specs.Disk.{Image, in_slot};
ghost use Rattle.tsdb_outside.specs.declared.disk.Slot.{Slot};
ghost use Rattle.tsdb_state.specs.Damage.{IsDamaged};
ghost use Rattle.tsdb_state.specs.Replays.{HasReplay, IsDeterminate, IsReplayOf, IsReplayOfOneOf, Replays, RecordSteps};
ghost use Rattle.tsdb_state.specs.Stores.{BytesByNumber, IsSound, IsStoreOf, LeadsToState, Recorded, StoreStandsFor};
ghost use Rattle.tsdb_state.specs.Stores.{StandsForOneOf, no_changes, store_steps, store_steps_determinate};

use tsdb_outside::Disk;

/// A kind of state that records are replayed to.
pub trait Replayed {
    /// The states.
    ghost state: { Type 0 };

    /// What records do to them.
    ghost steps: { RecordSteps state };

    /// A record leads from a state to one state at most.
    ghost determinate: { IsDeterminate steps };
}

/// A log is replayed to one state at most.
pub fn log_is_replayed_to_one_state<R: Replayed>()
    ensures { (bytes : List ℕ) (one other : R.state) → IsReplayOf R.steps bytes one → IsReplayOf R.steps bytes other
        → one ≡ other }
{}

/// A log is damaged at one place at most, and one that is damaged has no replay.
pub fn log_is_damaged_at_one_place<R: Replayed>()
    ensures once { (at place : ℕ) (bytes : List ℕ) → IsDamaged R.steps at bytes → IsDamaged R.steps place bytes
        → at ≡ place }
    ensures none { (at : ℕ) (bytes : List ℕ) (state : R.state) → IsDamaged R.steps at bytes
        → ¬ IsReplayOf R.steps bytes state }
{}

/// A record more leads from the state of a log to the state that it leads to.
pub fn replay_goes_on<R: Replayed>()
    ensures { (items : List LogRecord) (item : LogRecord) (old middle new : R.state)
        → Replays R.steps old items middle → R.steps.Leads item middle new
        → Replays R.steps old (items ++ item ∷ []) new }
{}

/// A slot with the records of a state, or with these and the one in doubt, stands for the state, or for that with the
/// record in doubt.
pub fn record_in_doubt_leads_on<R: Replayed>()
    ensures { (items : List LogRecord) (doubt : Option LogRecord) (state : R.state) (bytes : List ℕ)
        → All IsRecord items → Replays R.steps R.steps.new_store items state → IfSome doubt (HasReplay R.steps state)
        → HasRecordsOrOneMore (map spelling items) (option_map spelling doubt) bytes
        → IsReplayOfOneOf R.steps doubt bytes state }
{}

/// The records of a store, which lead to what each of them does.
pub struct StoreRecords;

impl Replayed for StoreRecords {
    ghost state = { Recorded };

    ghost steps = { store_steps };

    ghost determinate = { store_steps_determinate };
}

/// A log stands for one state at most with the files that are there.
pub fn store_stands_for_one_state()
    ensures { (files : BytesByNumber) (bytes : List ℕ) (one other : plain.State)
        → StoreStandsFor files bytes one → StoreStandsFor files bytes other → one ≡ other }
{}

/// Files that the log does not list say nothing.
pub fn strays_say_nothing()
    ensures { (files more : BytesByNumber) (bytes : List ℕ) (at : plain.State)
        → ((number : ℕ) (file : List ℕ) → files number ≡ Some file → more number ≡ Some file)
        → StoreStandsFor files bytes at → StoreStandsFor more bytes at }
{}

/// A slot with the records of a store, or with these and the one in doubt, stands for the state of the store, or for
/// the one that the record in doubt leads to.
pub fn store_in_doubt_stands_for_one_of_two_states()
    ensures { (files : BytesByNumber) (items : List LogRecord) (doubt : Option LogRecord) (recorded : Recorded)
        (at : plain.State) (next : Option plain.State) (bytes : List ℕ) → All IsRecord items
        → Replays store_steps store_steps.new_store items recorded → IsStoreOf files recorded.store at
        → LeadsToState files recorded doubt next
        → HasRecordsOrOneMore (map spelling items) (option_map spelling doubt) bytes
        → StandsForOneOf files bytes at next }
{}

/// Whatever a stop leaves of a sound store stands for its state.
pub fn a_stop_leaves_the_state_of_a_sound_store<D: Disk>(_disk: &D)
    ensures { (slot : Slot) (files : BytesByNumber) (at : plain.State) (image : Image)
        → IsSound slot (D.state _disk.now) files at → (D.state _disk.now).may_leave image
        → StoreStandsFor files (in_slot slot image) at }
{}

/// The log of a new store, which is one closed gate, stands for the world without series.
pub fn a_new_log_stands_for_no_series()
    ensures { (files : BytesByNumber) → StoreStandsFor files (0 ∷ []) no_changes }
{}
