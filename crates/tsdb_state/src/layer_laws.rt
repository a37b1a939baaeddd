//! What moves of layers do to values. The functions do nothing; their contracts are the laws.
ghost use Rattle.std.specs.FinMap.{get};
ghost use Rattle.std.specs.List.{AllByRecursion};
ghost use Rattle.std.specs.Prelude.{◌≡◌, ◌≢◌, ◌⊎◌, ◌≤◌, ◌∷◌, ◌++◌, ℕ, List, [], None, Some, cond, map, not, true};
ghost use Rattle.tsdb_base.specs.declared.point.Range.{Range};
ghost use Rattle.tsdb_base.specs.declared.value.Value.{Value};
ghost use Rattle.tsdb_state.specs.Layers.{Layer, survivor, value_in};
ghost use Rattle.tsdb_base.specs.Lists.{Among};
ghost use Rattle.tsdb_state.specs.Marks.{marks_up_to, purge, survives};
ghost use Rattle.tsdb_state.specs.LayerOrder.{IsBeforeInTime};
ghost use Rattle.tsdb_state.specs.Places.{Content, PointPlace, cut_content, is_within, put_content};
ghost use Rattle.tsdb_marks.specs.declared.marks.Mark.{Mark};

/// Layers with the same survivors have the same value.
pub fn same_survivors_have_one_value()
    ensures { (marks others : List Mark) (place : PointPlace) (layers changed : List Layer)
        → map (survivor marks place) layers ≡ map (survivor others place) changed
        → value_in marks place layers ≡ value_in others place changed }
{}

/// A layer without a point at the place may join or leave.
pub fn a_layer_without_points_may_leave()
    ensures { (marks : List Mark) (place : PointPlace) (below : List Layer) (layer : Layer) (above : List Layer)
        → get layer.content place ≡ None
        → value_in marks place (below ++ layer ∷ above) ≡ value_in marks place (below ++ above) }
{}

/// Neighbouring runs of layers, of which one has no value at the place, change places.
pub fn neighbours_change_places()
    ensures { (marks : List Mark) (place : PointPlace) (below run other above : List Layer)
        → (value_in marks place run ≡ None) ⊎ (value_in marks place other ≡ None)
        → value_in marks place (below ++ ((run ++ other) ++ above))
        ≡ value_in marks place (below ++ ((other ++ run) ++ above)) }
{}

/// Of two runs of which the one is before the other in time, one at most has a value at a place.
pub fn earlier_layers_share_no_place()
    ensures { (marks : List Mark) (place : PointPlace) (earlier later : List Layer) → IsBeforeInTime earlier later
        → (value_in marks place earlier ≡ None) ⊎ (value_in marks place later ≡ None) }
{}

/// A run becomes one layer, or none, that has its value.
pub fn a_run_becomes_one_layer()
    ensures { (marks : List Mark) (place : PointPlace) (below run output above : List Layer)
        → value_in marks place output ≡ value_in marks place run
        → value_in marks place (below ++ (output ++ above)) ≡ value_in marks place (below ++ (run ++ above)) }
{}

/// The output of a job, which has its inputs' value under the marks at its beginning, has their value under any later
/// marks by which no input's survivor up to that beginning is another.
pub fn an_output_keeps_the_value()
    ensures { (marks at_beginning : List Mark) (place : PointPlace) (born : ℕ) (inputs output : List Layer)
        → AllByRecursion (λ layer. layer.born ≤ born) inputs → AllByRecursion (λ layer. layer.born ≡ born) output
        → map (survivor at_beginning place) inputs ≡ map (survivor (marks_up_to born marks) place) inputs
        → value_in [] place output ≡ value_in at_beginning place inputs
        → value_in marks place output ≡ value_in marks place inputs }
{}

/// A value that is put into a layer that is newer than all marks, and above which no layer has a value at its place, is
/// the value of its place. No other place has another value.
pub fn a_point_is_put()
    ensures here { (marks : List Mark) (place : PointPlace) (value : Value) (born : ℕ) (content : Content)
        (below above : List Layer)
        → survives marks place born ≡ true → value_in marks place above ≡ None
        → value_in marks place (below ++ record { born = born; content = put_content place value content } ∷ above)
        ≡ Some value }
    ensures elsewhere { (marks : List Mark) (place other : PointPlace) (value : Value) (born : ℕ) (content : Content)
        (below above : List Layer)
        → other ≢ place
        → value_in marks other (below ++ record { born = born; content = put_content place value content } ∷ above)
        ≡ value_in marks other (below ++ record { born = born; content = content } ∷ above) }
{}

/// A range that is cut leaves the points outside it alone.
pub fn a_range_is_cut()
    ensures { (path : List ℕ) (range : Range) (content : Content) (place : PointPlace)
        → get (cut_content path range content) place ≡ cond (not (is_within path range place))
        (get content place) None }
{}

/// A purge keeps the values of layers whose borns it looked at.
pub fn marks_are_purged()
    ensures { (borns : List ℕ) (marks : List Mark) (place : PointPlace) (layers : List Layer)
        → AllByRecursion (λ layer. Among layer.born borns) layers
        → value_in (purge borns marks) place layers ≡ value_in marks place layers }
{}
