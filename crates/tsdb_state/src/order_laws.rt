//! Laws of a state in order: the parts that the order is made of, each by its name, and what follows for values. The
//! functions do nothing; their contracts are the laws.
ghost use Rattle.std.specs.List.{AllByRecursion};
ghost use Rattle.std.specs.Prelude.{◌≡◌, ◌≢◌, ◌<◌, ◌≤◌, ◌∷◌, ◌++◌, ℕ, ℤ, List, [], Some, map};
ghost use Rattle.tsdb_base.specs.Values.{type_of};
ghost use Rattle.tsdb_base.specs.declared.value.Value.{Value};
ghost use Rattle.tsdb_state.specs.Layers.{HasPoint, survivor};
ghost use Rattle.tsdb_base.specs.Lists.{Among, EachPair};
ghost use Rattle.tsdb_state.specs.Marks.{marks_up_to};
ghost use Rattle.tsdb_state.specs.LayerOrder.{IsAbove, IsBeforeInTime, IsBelow, Rises};
ghost use Rattle.tsdb_state.specs.Places.{PointPlace};
ghost use Rattle.tsdb_log.specs.declared.record.CellRecord.{CellRecord};
ghost use Rattle.tsdb_model.specs.World.{World};
ghost use Rattle.tsdb_state.specs.Jobs.{AreApart, EntriesMatch, HasKind, IsFlushOut, KeepsItsMarks, KeepsRoom};
ghost use Rattle.tsdb_state.specs.Jobs.{RightsMatch, Stands, drawn_numbers, held_numbers};
ghost use Rattle.tsdb_state.specs.Limit.{IsWithinPairLimit};
ghost use Rattle.tsdb_state.specs.Order.{IsInOrder, all_files};
ghost use Rattle.tsdb_state.specs.Records.{CanInsert, inserted, numbers_of, cell_place};
ghost use Rattle.tsdb_state.specs.State.{EngineState, KnownFiles, FrozenContent, PinState, StoreState, ToldContents};
ghost use Rattle.tsdb_state.specs.Steps.{PinStandsFor, TakesPin};
ghost use Rattle.tsdb_state.specs.StoreOrder.{HasLiveValues, SeriesInOrder, StampsInOrder, StoreInOrder};
ghost use Rattle.tsdb_state.specs.Views.{file_layers, flushed_layers, layer_of, pairs_of, sequence_layer};
ghost use Rattle.tsdb_state.specs.Views.{sequence_layers, unsequence_layer, working_pair};
ghost use Rattle.tsdb_state.specs.Worlds.{StandsFor, value_at_place};

/// The parts of the order that speak of times, for each device: sequence parts rise, from files to the working pair.
/// All but the working sequence part is at most at the watermark, and that is above it. Unsequence times of files, and
/// of a frozen pair, lie below the sequence times of the pairs from there on.
pub fn order_of_times()
    ensures sequence_parts_rise { (told : ToldContents) (state : StoreState)
        → StoreInOrder told state → Rises (sequence_layers told state) }
    ensures below_the_watermark { (told : ToldContents) (state : StoreState)
        → StoreInOrder told state → IsBelow state.watermarks (flushed_layers told state) }
    ensures above_the_watermark { (told : ToldContents) (state : StoreState)
        → StoreInOrder told state → IsAbove state.watermarks (layer_of state.working.sequence) }
    ensures unsequence_files_below_sequence { (told : ToldContents) (state : StoreState)
        → StoreInOrder told state
        → IsBeforeInTime (file_layers told state.unsequence) (map sequence_layer (pairs_of state)) }
    ensures unsequence_pairs_below_sequence { (told : ToldContents) (state : StoreState) (before : List FrozenContent)
        (pair : FrozenContent) (behind : List FrozenContent)
        → StoreInOrder told state → state.frozen ≡ before ++ pair ∷ behind
        → IsBeforeInTime (unsequence_layer pair ∷ [])
        (sequence_layer pair ∷ map sequence_layer (behind ++ working_pair state ∷ [])) }
{}

/// The parts that speak of borns and versions, of types, and of the limit of the working pair.
pub fn order_of_stamps_and_points()
    ensures borns_and_versions { (told : ToldContents) (state : StoreState) → StoreInOrder told state
        → StampsInOrder state.stamp state.marks state.sequence state.unsequence state.frozen state.working }
    ensures typed_points { (told : ToldContents) (state : StoreState) → StoreInOrder told state
        → SeriesInOrder told state.schemas state.sequence state.unsequence state.frozen state.working }
    ensures pair_limit { (told : ToldContents) (state : StoreState) → StoreInOrder told state
        → IsWithinPairLimit state.working }
    ensures live_series { (told : ToldContents) (state : StoreState) → StoreInOrder told state
        → HasLiveValues told state }
{}

/// The parts that speak of jobs and pins that are out.
pub fn order_of_jobs()
    ensures distinct_file_numbers { (told : ToldContents) (known : KnownFiles) (named : List ℕ) (state : EngineState)
        → IsInOrder told known named state → EachPair (λ number other. number ≢ other)
        (numbers_of (all_files state) ++ drawn_numbers state.flushes state.compactions) }
    ensures inputs_stand { (told : ToldContents) (known : KnownFiles) (named : List ℕ) (state : EngineState)
        → IsInOrder told known named state → AllByRecursion
        (λ job. Stands job.space told state.store.sequence state.store.unsequence job) state.compactions }
    ensures claims_match { (told : ToldContents) (known : KnownFiles) (named : List ℕ) (state : EngineState)
        → IsInOrder told known named state → EachPair AreApart state.compactions }
    ensures marks_of_a_job { (told : ToldContents) (known : KnownFiles) (named : List ℕ) (state : EngineState)
        → IsInOrder told known named state → AllByRecursion
        (KeepsItsMarks told state.store.stamp state.store.marks) state.compactions }
    ensures room_kept { (told : ToldContents) (known : KnownFiles) (named : List ℕ) (state : EngineState)
        → IsInOrder told known named state → KeepsRoom state.room state.flushes state.compactions }
    ensures flush_jobs { (told : ToldContents) (known : KnownFiles) (named : List ℕ) (state : EngineState)
        → IsInOrder told known named state → AllByRecursion
        (IsFlushOut state.store.stamp state.store.frozen state.store.working) state.flushes }
    ensures entries { (told : ToldContents) (known : KnownFiles) (named : List ℕ) (state : EngineState)
        → IsInOrder told known named state → EntriesMatch told known
        (state.store.sequence ++ state.store.unsequence) }
    ensures rights { (told : ToldContents) (known : KnownFiles) (named : List ℕ) (state : EngineState)
        → IsInOrder told known named state → RightsMatch state.rights (all_files state)
        (held_numbers state.compactions state.pins) }
{}

/// Sequence files of a device do not overlap: each time that it has in a file is less than each in a later one.
pub fn sequence_files_do_not_overlap()
    ensures { (told : ToldContents) (state : StoreState)
        → StoreInOrder told state → Rises (file_layers told state.sequence) }
{}

/// Of two points of a series at one time the one written last wins: once a row is in, each of its values is what the
/// state has at its place, whatever was written, flushed, deleted or compacted before.
pub fn last_write_wins()
    ensures { (told : ToldContents) (time : ℤ) (cells : List CellRecord) (state : StoreState) (cell : CellRecord)
        → StoreInOrder told state → CanInsert time cells state → Among cell cells
        → value_at_place told (inserted time cells state) (cell_place state.schemas time cell) ≡ Some cell.value }
{}

/// A row leaves every other place as it was.
pub fn other_values_stay()
    ensures { (told : ToldContents) (time : ℤ) (cells : List CellRecord) (state : StoreState) (place : PointPlace)
        → StoreInOrder told state → CanInsert time cells state
        → AllByRecursion (λ cell. cell_place state.schemas time cell ≢ place) cells
        → value_at_place told (inserted time cells state) place ≡ value_at_place told state place }
{}

/// A pin stands for the world at its step. It names no state, so it does whatever steps follow: no step changes what is
/// told of a file, and none sweeps a file that a pin has a right on.
pub fn a_pin_stands_for_its_world()
    ensures { (told : ToldContents) (known : KnownFiles) (named : List ℕ) (state : EngineState) (pin : PinState)
        (world : World)
        → IsInOrder told known named state → TakesPin known pin state → StandsFor told state.store world
        → PinStandsFor told pin world }
{}
