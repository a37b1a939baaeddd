//! Laws of rows: what was read and fits is what its record needs. The functions do nothing; their contracts are the
//! laws.
ghost use Rattle.std.specs.Prelude.{◌≡◌, ◌<◌, ◌≤◌, ◌↔◌, ℕ, List, Result, map};
ghost use Rattle.tsdb_base.specs.declared.answers.Answer.{Answer};
ghost use Rattle.tsdb_log.specs.declared.record.CellRecord.{CellRecord};
ghost use Rattle.tsdb_model.specs.Apply.{reply_of};
ghost use Rattle.tsdb_model.specs.World.{World};
ghost use Rattle.tsdb_model.specs.declared.command.Command.{Command};
ghost use Rattle.tsdb_model.specs.declared.command.Row.{Row};
ghost use Rattle.tsdb_model.specs.declared.reply.Reply.{Reply};
ghost use Rattle.tsdb_memory.specs.Model.{IsSoundMemory};
ghost use Rattle.tsdb_memory.specs.StateOfMemory.{IsMemoryOf, series_entry};
ghost use Rattle.tsdb_memory.specs.Store.{MemoryState};
ghost use Rattle.tsdb_memtable.specs.Pairs.{HasRisingSeries, Pair};
ghost use Rattle.tsdb_memory.specs.Fits.{FitsPair, HasCounts, HasNoPairPoint};
ghost use Rattle.tsdb_memory.specs.RowReading.{AreOfDifferentSeries, AreOfDevice, IsRowRead, row_answer};
ghost use Rattle.tsdb_state.specs.Commands.{AreCells, KeepsBytes};
ghost use Rattle.tsdb_state.specs.Limit.{IsEmptyPair};
ghost use Rattle.tsdb_base.specs.Limits.{end_of_numbers, max_pair_points};
ghost use Rattle.tsdb_state.specs.Records.{CanInsert};
ghost use Rattle.tsdb_state.specs.State.{PairContent as PairState, StoreState, ToldContents};
ghost use Rattle.tsdb_state.specs.StoreOrder.{StoreInOrder};
ghost use Rattle.tsdb_state.specs.Worlds.{StandsFor};

/// The plain map answers to a row what reading it answers: a row is read as cells exactly where the map accepts it, and
/// else refused as by the map.
pub fn reading_follows_the_map()
    ensures { (told : ToldContents) (memory : MemoryState) (state : StoreState) (world : World) (device : List ℕ)
        (row : Row)
        (read : Result (List CellRecord) Answer)
        → IsMemoryOf memory state → StoreInOrder told state → StandsFor told state world
        → IsRowRead (map series_entry memory.series) device row.cells read
        → reply_of world (Command.Insert device row) ≡ Reply.Plain (row_answer read) }
{}

/// The working pair of a state has as many points and bytes as the one in memory.
pub fn counts_of_a_state()
    ensures { (memory : MemoryState) (state : StoreState)
        → IsSoundMemory memory → HasRisingSeries memory.working → IsMemoryOf memory state
        → HasCounts memory.working state.working }
{}

/// Cells that were read can be put where the row fits the working pair, or where that is empty.
pub fn a_row_can_be_put()
    ensures within { (memory : MemoryState) (state : StoreState) (device : List ℕ) (row : Row) (cells : List CellRecord)
        (limit : ℕ)
        → IsMemoryOf memory state → HasCounts memory.working state.working
        → AreCells (map series_entry memory.series) device row.cells cells → AreOfDifferentSeries cells
        → AreOfDevice memory.series device cells
        → state.stamp < end_of_numbers → limit ≤ max_pair_points → FitsPair limit row memory.working
        → CanInsert row.time cells state × KeepsBytes row.time cells state }
    ensures alone { (memory : MemoryState) (state : StoreState) (device : List ℕ) (row : Row) (cells : List CellRecord)
        → IsMemoryOf memory state
        → AreCells (map series_entry memory.series) device row.cells cells → AreOfDifferentSeries cells
        → AreOfDevice memory.series device cells
        → state.stamp < end_of_numbers → IsEmptyPair state.working
        → CanInsert row.time cells state × KeepsBytes row.time cells state }
{}

/// A pair in memory has no point exactly where that of the state is empty. So a row that does not fit finds a pair that
/// can be frozen.
pub fn a_pair_without_points_is_empty()
    ensures { (pair : Pair) (shown : PairState) → HasCounts pair shown → HasNoPairPoint pair ↔ IsEmptyPair shown }
{}
