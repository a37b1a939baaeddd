//! Laws of the plain model. The functions do nothing; their contracts are the laws.
ghost use Rattle.std.specs.Prelude.{◌≡◌, ◌≢◌, ◌⊎◌, ℤ, ℕ, List, None, Some, false, true, slice_get};
ghost use Rattle.tsdb_base.specs.declared.answers.Answer.{Answer};
ghost use Rattle.tsdb_base.specs.declared.point.Range.{Range};
ghost use Rattle.tsdb_model.specs.declared.command.Cell.{Cell};
ghost use Rattle.tsdb_model.specs.declared.command.Command.{Command};
ghost use Rattle.tsdb_model.specs.declared.command.Row.{Row};
ghost use Rattle.tsdb_model.specs.declared.reply.Reply.{Reply};
ghost use Rattle.tsdb_model.specs.Apply.{reply_of, series_of, value_of, world_after};
ghost use Rattle.tsdb_model.specs.World.{is_in, Series, value_at, World};
ghost use Rattle.tsdb_map.specs.Laws.{IsCellPath};
ghost use Rattle.tsdb_model.specs.Commands.{IsRow};
ghost use Rattle.tsdb_path.specs.Nodes.{child_of};

/// Each value of a row that is accepted is what its series has at the row's time from then on, whatever it had there.
pub fn last_write_wins_in_map()
    ensures { (world : World) (device : List ℕ) (row : Row) (k : ℕ) (cell : Cell) (series : Series)
        → IsRow row → reply_of world (Command.Insert device row) ≡ Reply.Plain Answer.Done
        → slice_get row.cells k ≡ Some cell → series_of world device cell.measurement ≡ Some series
        → value_at (world_after world (Command.Insert device row)) (child_of device cell.measurement) row.time
        ≡ value_of cell.value series.data_type }
{}

/// A write leaves every series that it does not name, and every other time, as it was.
pub fn other_values_stay_in_map()
    ensures { (world : World) (device path : List ℕ) (row : Row) (time : ℤ)
        → (¬ IsCellPath device row.cells path) ⊎ (time ≢ row.time)
        → value_at (world_after world (Command.Insert device row)) path time ≡ value_at world path time }
{}

/// An insert that is refused changes no series.
pub fn refused_insert_changes_nothing()
    ensures { (world : World) (device : List ℕ) (row : Row)
        → reply_of world (Command.Insert device row) ≢ Reply.Plain Answer.Done
        → world_after world (Command.Insert device row) ≡ world }
{}

/// A deletion leaves no value at a time of its range.
pub fn deletion_removes_its_range()
    ensures { (world : World) (series : List ℕ) (range : Range) (time : ℤ) → is_in range time ≡ true
        → value_at (world_after world (Command.Delete series range)) series time ≡ None }
{}

/// A deletion leaves every other series, and every time outside its range, as it was.
pub fn deletion_keeps_the_rest()
    ensures { (world : World) (series path : List ℕ) (range : Range) (time : ℤ)
        → (path ≢ series) ⊎ (is_in range time ≡ false)
        → value_at (world_after world (Command.Delete series range)) path time ≡ value_at world path time }
{}
