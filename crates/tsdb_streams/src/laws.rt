//! What a merge of surviving points has. The functions do nothing; their contracts are the laws.
ghost use Rattle.std.specs.List.{AllZip};
ghost use Rattle.std.specs.Prelude.{◌≡◌, ◌↔◌, ℕ, ℤ, List, All, Contains, Some, flat_map, map};
ghost use Rattle.tsdb_base.specs.declared.point.Point.{Point};
ghost use Rattle.tsdb_base.specs.declared.value.Value.{Value};
ghost use Rattle.tsdb_state.specs.Layers.{Layer, value_in};
ghost use Rattle.tsdb_marks.specs.declared.marks.Mark.{Mark};
ghost use Rattle.tsdb_merge.specs.Winners.{IsMergeOf};
ghost use Rattle.tsdb_streams.specs.Pieces.{HaveNoCommonTime, joined};
ghost use Rattle.tsdb_streams.specs.Survivors.{AreSurvivors, place_at};

/// Each point of the merge of the layers' survivors is the value at its place.
pub fn merged_survivors_are_the_values()
    ensures { (marks : List Mark) (path : List ℕ) (layers : List Layer) (lists : List (List Point)) (points : List Point)
        → AllZip (AreSurvivors marks path) layers lists → IsMergeOf lists points
        → All (λ point. value_in marks (place_at path point.time) layers ≡ Some point.value) points }
{}

/// The merge of the layers' survivors has a point for each value of the series.
pub fn merged_survivors_are_all()
    ensures { (marks : List Mark) (path : List ℕ) (layers : List Layer) (lists : List (List Point)) (points : List Point)
        → AllZip (AreSurvivors marks path) layers lists → IsMergeOf lists points
        → (time : ℤ) (value : Value) → value_in marks (place_at path time) layers ≡ Some value
        → Contains points (record { time = time; value = value }) }
{}

/// Sources in pieces, of each of which no two have a time in common, are merged as their pieces are, one by one.
pub fn pieces_merge_as_their_sources()
    ensures { (sources : List (List (List Point))) (points : List Point) → All HaveNoCommonTime sources →
        IsMergeOf (map joined sources) points ↔ IsMergeOf (flat_map (λ pieces. pieces) sources) points }
{}
