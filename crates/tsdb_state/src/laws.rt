//! Laws of the records of a log: what each of them does to a store in order. The functions do nothing; their contracts
//! are the laws.
ghost use Rattle.std.specs.Prelude.{◌≡◌, ◌≢◌, ◌⊎◌, ◌≤◌, ◌∷◌, ℕ, ℤ, List, []};
ghost use Rattle.tsdb_base.specs.declared.answers.Answer.{Answer};
ghost use Rattle.tsdb_base.specs.declared.point.Range.{Range};
ghost use Rattle.tsdb_log.specs.declared.record.CellRecord.{CellRecord};
ghost use Rattle.tsdb_model.specs.Apply.{accepted, reply_of};
ghost use Rattle.tsdb_model.specs.World.{World};
ghost use Rattle.tsdb_model.specs.declared.command.Command.{Command};
ghost use Rattle.tsdb_model.specs.declared.command.Row.{Row};
ghost use Rattle.tsdb_model.specs.declared.command.Schema.{Schema};
ghost use Rattle.tsdb_model.specs.declared.reply.Reply.{Reply};
ghost use Rattle.tsdb_state.specs.Commands.{AreCells, KeepsBytes};
ghost use Rattle.tsdb_state.specs.Records.{CanCreate, CanDelete, CanFreeze, CanInsert, IsNumberOf, created, deleted};
ghost use Rattle.tsdb_state.specs.Layers.{value_in};
ghost use Rattle.tsdb_state.specs.Places.{PointPlace};
ghost use Rattle.tsdb_state.specs.Jobs.{HasKind, KeepsItsMarks, Stands, job_inputs};
ghost use Rattle.tsdb_state.specs.Records.{flushed, froze, inserted, replaced};
ghost use Rattle.tsdb_state.specs.State.{Compaction, File, FrozenContent, StoreState, ToldContents};
ghost use Rattle.tsdb_state.specs.Steps.{IsOutput, IsOutputPlace, replacement};
ghost use Rattle.tsdb_state.specs.Views.{file_layers};
ghost use Rattle.tsdb_state.specs.StoreOrder.{StoreInOrder};
ghost use Rattle.tsdb_state.specs.Worlds.{KeepsWorld, StandsFor};

/// A series that joins keeps a store in order.
pub fn create_keeps_order()
    ensures { (told : ToldContents) (schema : Schema) (state : StoreState)
        → StoreInOrder told state → CanCreate schema state → StoreInOrder told (created schema state) }
{}

/// The plain map accepts a series that is not there, and after it a store that stood for a world stands for the map's
/// world after it.
pub fn create_follows_the_map()
    ensures reply { (told : ToldContents) (schema : Schema) (state : StoreState) (world : World)
        → StoreInOrder told state → CanCreate schema state → StandsFor told state world
        → reply_of world (Command.Create schema) ≡ Reply.Plain Answer.Done }
    ensures world { (told : ToldContents) (schema : Schema) (state : StoreState) (world : World)
        → StoreInOrder told state → CanCreate schema state → StandsFor told state world
        → StandsFor told (created schema state) (accepted world (Command.Create schema)) }
{}

/// A row keeps a store in order, where the working pair was empty or stays within its bytes.
pub fn insert_keeps_order()
    ensures { (told : ToldContents) (time : ℤ) (cells : List CellRecord) (state : StoreState)
        → StoreInOrder told state → CanInsert time cells state → KeepsBytes time cells state
        → StoreInOrder told (inserted time cells state) }
{}

/// The plain map accepts the row of a record, and after it a store that stood for a world stands for the map's world
/// after it: each value stands at the row's time, whatever was written, flushed, deleted or compacted before.
pub fn insert_follows_the_map()
    ensures reply { (told : ToldContents) (device : List ℕ) (row : Row) (cells : List CellRecord) (state : StoreState)
        (world : World)
        → StoreInOrder told state → CanInsert row.time cells state → StandsFor told state world
        → AreCells state.schemas device row.cells cells
        → reply_of world (Command.Insert device row) ≡ Reply.Plain Answer.Done }
    ensures world { (told : ToldContents) (device : List ℕ) (row : Row) (cells : List CellRecord) (state : StoreState)
        (world : World)
        → StoreInOrder told state → CanInsert row.time cells state → StandsFor told state world
        → AreCells state.schemas device row.cells cells
        → StandsFor told (inserted row.time cells state) (accepted world (Command.Insert device row)) }
{}

/// A deletion keeps a store in order.
pub fn delete_keeps_order()
    ensures { (told : ToldContents) (path : List ℕ) (range : Range) (state : StoreState)
        → StoreInOrder told state → CanDelete path state → StoreInOrder told (deleted path range state) }
{}

/// The plain map accepts a deletion from a series that is there, and after it a store that stood for a world stands for
/// the map's world after it: the points in the range are gone, wherever they were, and all others stay.
pub fn delete_follows_the_map()
    ensures reply { (told : ToldContents) (path : List ℕ) (range : Range) (state : StoreState) (world : World)
        → StoreInOrder told state → CanDelete path state → StandsFor told state world
        → reply_of world (Command.Delete path range) ≡ Reply.Plain Answer.Done }
    ensures world { (told : ToldContents) (path : List ℕ) (range : Range) (state : StoreState) (world : World)
        → StoreInOrder told state → CanDelete path state → StandsFor told state world
        → StandsFor told (deleted path range state) (accepted world (Command.Delete path range)) }
{}

/// A freeze keeps a store in order, and its world.
pub fn freeze_keeps_order_and_world()
    ensures order { (told : ToldContents) (state : StoreState)
        → StoreInOrder told state → CanFreeze state → StoreInOrder told (froze state) }
    ensures world { (told : ToldContents) (state : StoreState)
        → StoreInOrder told state → CanFreeze state → KeepsWorld told state (froze state) }
{}

/// A flush of the oldest frozen pair, whose files have its parts, keeps a store in order, and its world.
pub fn flush_keeps_order_and_world()
    ensures order { (told : ToldContents) (state : StoreState) (oldest : FrozenContent) (newer : List FrozenContent)
        (sequence unsequence : ℕ)
        → state.frozen ≡ oldest ∷ newer
        → IsNumberOf sequence oldest.pair.sequence → IsNumberOf unsequence oldest.pair.unsequence
        → (sequence ≢ 0 → told sequence ≡ oldest.pair.sequence)
        → (unsequence ≢ 0 → told unsequence ≡ oldest.pair.unsequence)
        → StoreInOrder told state → StoreInOrder told (flushed sequence unsequence state) }
    ensures world { (told : ToldContents) (state : StoreState) (oldest : FrozenContent) (newer : List FrozenContent)
        (sequence unsequence : ℕ)
        → state.frozen ≡ oldest ∷ newer
        → IsNumberOf sequence oldest.pair.sequence → IsNumberOf unsequence oldest.pair.unsequence
        → (sequence ≢ 0 → told sequence ≡ oldest.pair.sequence)
        → (unsequence ≢ 0 → told unsequence ≡ oldest.pair.unsequence)
        → StoreInOrder told state → KeepsWorld told state (flushed sequence unsequence state) }
{}

/// A compaction whose output has what its inputs had at its beginning keeps a store in order and its world, whatever
/// was put, deleted or flushed since.
pub fn compaction_keeps_order_and_world()
    ensures order { (told : ToldContents) (state : StoreState) (job : Compaction) (output : List File) (place : ℕ)
        → StoreInOrder told state → KeepsItsMarks told state.stamp state.marks job → IsOutput told job output
        → 1 ≤ job.output → (output ≡ []) ⊎ (output ≡ record { number = job.output; born = job.born } ∷ [])
        → HasKind job.space job → Stands job.space told state.sequence state.unsequence job
        → IsOutputPlace job.space job state place
        → StoreInOrder told (replaced (replacement job output place) state) }
    ensures world { (told : ToldContents) (state : StoreState) (job : Compaction) (output : List File) (place : ℕ)
        → StoreInOrder told state → KeepsItsMarks told state.stamp state.marks job → IsOutput told job output
        → 1 ≤ job.output → (output ≡ []) ⊎ (output ≡ record { number = job.output; born = job.born } ∷ [])
        → HasKind job.space job → Stands job.space told state.sequence state.unsequence job
        → IsOutputPlace job.space job state place
        → KeepsWorld told state (replaced (replacement job output place) state) }
{}

/// The output of a job has, under the marks of now, the value of its last input with a surviving point, whatever was
/// deleted since the job began.
pub fn an_output_has_its_inputs_value()
    ensures { (told : ToldContents) (state : StoreState) (job : Compaction) (output : List File) (place : PointPlace)
        → KeepsItsMarks told state.stamp state.marks job → IsOutput told job output
        → (output ≡ []) ⊎ (output ≡ record { number = job.output; born = job.born } ∷ [])
        → value_in state.marks place (file_layers told output)
        ≡ value_in state.marks place (file_layers told (job_inputs job)) }
{}
