//! The laws. The functions do nothing; their contracts say them.
ghost use Rattle.std.specs.Prelude.{ℕ, List};
ghost use Rattle.tsdb_memory.specs.MapAnswers.{FollowsMap, IsInsertAnswer, IsMapAnswer};
ghost use Rattle.tsdb_base.specs.declared.answers.Answer.{Answer};
ghost use Rattle.tsdb_base.specs.declared.point.Range.{Range};
ghost use Rattle.tsdb_log.specs.declared.record.LogRecord.{LogRecord};
ghost use Rattle.tsdb_memory.specs.Answers.{IsCreateAnswer, IsDeleteAnswer};
ghost use Rattle.tsdb_memory.specs.Commands.{create_record};
ghost use Rattle.tsdb_model.specs.Commands.{IsSchema};
ghost use Rattle.tsdb_model.specs.World.{World};
ghost use Rattle.tsdb_model.specs.declared.command.Command.{Command};
ghost use Rattle.tsdb_model.specs.declared.command.Row.{Row};
ghost use Rattle.tsdb_model.specs.declared.command.Schema.{Schema};
ghost use Rattle.tsdb_memory.specs.StateOfMemory.{IsMemoryOf};
ghost use Rattle.tsdb_memory.specs.Store.{MemoryState};
ghost use Rattle.tsdb_state.specs.Records.{CanFreeze, froze};
ghost use Rattle.tsdb_state.specs.State.{StoreState, ToldContents};
ghost use Rattle.tsdb_state.specs.StoreOrder.{StoreInOrder};
ghost use Rattle.tsdb_state.specs.Worlds.{StandsFor};

/// A creation that is answered by what is in memory is answered as the map does, and leads to the map's world.
pub fn a_creation_follows_the_map()
    ensures { (told : ToldContents) (store : MemoryState) (state : StoreState) (schema : Schema) (answer : Answer)
        → IsMemoryOf store state → StoreInOrder told state → IsSchema schema
        → IsCreateAnswer store schema.path answer
        → FollowsMap told state (Command.Create schema) (create_record schema) answer }
{}

/// So is a deletion.
pub fn a_deletion_follows_the_map()
    ensures { (told : ToldContents) (store : MemoryState) (state : StoreState) (path : List ℕ) (range : Range)
        (answer : Answer)
        → IsMemoryOf store state → StoreInOrder told state → IsDeleteAnswer store path answer
        → FollowsMap told state (Command.Delete path range) (LogRecord.Delete path range) answer }
{}

/// A row that is answered by what is in memory is answered as the map does. To what world its record leads is a law of the
/// state.
pub fn a_row_follows_the_map()
    ensures { (told : ToldContents) (store : MemoryState) (state : StoreState) (world : World) (device : List ℕ)
        (row : Row)
        (answer : Answer)
        → IsMemoryOf store state → StoreInOrder told state → StandsFor told state world
        → IsInsertAnswer store device row.cells answer → IsMapAnswer world (Command.Insert device row) answer }
{}

/// A freeze keeps the world.
pub fn a_freeze_keeps_the_world()
    ensures { (told : ToldContents) (state : StoreState) (world : World) → StoreInOrder told state → CanFreeze state
        → StandsFor told state world → StandsFor told (froze state) world }
{}
