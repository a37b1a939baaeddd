//! What a pin has in the worlds that it stands for. The functions do nothing; their contracts are the laws.
ghost use Rattle.std.specs.List.{AllByRecursion as Each};
ghost use Rattle.std.specs.Prelude.{◌≡◌, ℕ, List, map};
ghost use Rattle.tsdb_base.specs.declared.point.Range.{Range as RangeSeen};
ghost use Rattle.tsdb_pin.specs.Files.{KeptFiles};
ghost use Rattle.tsdb_model.specs.Apply.{columns_of, item_values};
ghost use Rattle.tsdb_model.specs.World.{World};
ghost use Rattle.tsdb_model.specs.declared.command.Item.{Item};
ghost use Rattle.tsdb_memory.specs.StateOfMemory.{IsMemoryOf, series_entry};
ghost use Rattle.tsdb_memory.specs.Store.{MemoryState};
ghost use Rattle.tsdb_pins.specs.Replies.{IsMapFault, IsMapPin};
ghost use Rattle.tsdb_pins.specs.Worlds.{HasPointsOf, columns_in, values_in};
ghost use Rattle.tsdb_pin.specs.Items.{AreFit, AreItemsRefused};
ghost use Rattle.tsdb_pin.specs.Pins.{IsPinFor};
ghost use Rattle.tsdb_pin.specs.StateOfPin.{IsPinOf};
ghost use Rattle.tsdb_pin.specs.declared.pin.PinFault.{PinFault};
ghost use Rattle.tsdb_state.specs.State as state;
ghost use Rattle.tsdb_state.specs.Steps.{PinStandsFor};
ghost use Rattle.tsdb_state.specs.Worlds.{StandsFor};

use tsdb_outside::Files;
use tsdb_pin::Pin;

/// The sources of each column have the points of its series in the worlds that the pin stands for.
pub fn sources_have_the_points_of_the_world<F: Files>(pin: &Pin<F>)
    ensures { (told : state.ToldContents) (shown : state.PinState) (world : World)
        → IsPinOf pin.now shown → PinStandsFor told shown world
        → Each (HasPointsOf told world pin.now.range pin.now.marks.marks) pin.now.columns }
{}

/// The columns of a pin for some items have what the plain map reads for these items.
pub fn columns_are_those_of_the_items<F: Files>(pin: &Pin<F>)
    ensures rows { (files : KeptFiles) (store : MemoryState) (device : List ℕ) (items : List Item) (range : RangeSeen)
        (world : World) → IsPinFor F.Right.file files store device items range pin.now
        → columns_in world pin.now.range pin.now.columns ≡ columns_of world device items range }
    ensures values { (files : KeptFiles) (store : MemoryState) (device : List ℕ) (items : List Item) (range : RangeSeen)
        (world : World) → IsPinFor F.Right.file files store device items range pin.now
        → values_in world pin.now.range pin.now.columns ≡ item_values world device items range }
{}

/// The plain map answers the select of these items with what their pin has.
pub fn a_pin_is_answered_as_by_the_map<F: Files>(pin: &Pin<F>)
    ensures { (told : state.ToldContents) (memory : MemoryState) (engine : state.StoreState) (files : KeptFiles)
        (device : List ℕ)
        (items : List Item) (range : RangeSeen) (world : World)
        → IsMemoryOf memory engine → StandsFor told engine world → AreFit (map series_entry memory.series) device items
        → IsPinFor F.Right.file files memory device items range pin.now → IsMapPin world device items range pin.now }
{}

/// Items that are refused are refused by the plain map too, for the same reason.
pub fn a_refusal_is_that_of_the_map()
    ensures { (told : state.ToldContents) (memory : MemoryState) (engine : state.StoreState) (device : List ℕ)
        (items : List Item)
        (range : RangeSeen) (world : World) (fault : PinFault)
        → IsMemoryOf memory engine → StandsFor told engine world
        → AreItemsRefused (map series_entry memory.series) device items fault
        → IsMapFault world device items range fault }
{}
