//! What is told of files, and the rights and the series of a pin. The functions do nothing; their contracts are the laws.
ghost use Rattle.std.specs.Prelude.{◌≡◌, ◌≤◌, ℕ, List, Some};
ghost use Rattle.tsdb_base.specs.declared.point.Point.{Point};
ghost use Rattle.tsdb_base.specs.declared.point.Range.{Range as RangeSeen};
ghost use Rattle.tsdb_streams.specs.Files.{HasPages};
ghost use Rattle.tsdb_pin.specs.Files.{KeptFiles};
ghost use Rattle.tsdb_pin.specs.Places.{AreOfStore};
ghost use Rattle.tsdb_model.specs.declared.command.Item.{Item};
ghost use Rattle.tsdb_memory.specs.Store.{MemoryState as MemorySeen};
ghost use Rattle.tsdb_outside.specs.Files.{NamedFile, Store};
ghost use Rattle.tsdb_path.specs.Nodes.{device_of, measurement_of, node_count};
ghost use Rattle.tsdb_pin.specs.Pins.{AreColumnsHeld, IsPinFor};
ghost use Rattle.tsdb_pin.specs.StateOfPin.{ArePointsOf};
ghost use Rattle.tsdb_pins.specs.Reading.{AreColumnsOf, HaveNodes};
ghost use Rattle.tsdb_state.specs.Stores.{BytesByNumber as Kept, IsWhole};
ghost use Rattle.tsdb_streams.specs.Pieces.{joined};
ghost use Rattle.tsdb_state.specs.State.{File, ToldContents};

use tsdb_outside::Files;
use tsdb_pin::Pin;

/// The pages of a series in a whole file have the points that are told of the file.
pub fn pages_have_the_points_of_their_file()
    ensures { (path : List ℕ) (name : NamedFile) (lists : List (List Point)) (files : Kept) (told : ToldContents)
        (file : File)
        (bytes : List ℕ) → 2 ≤ node_count path → HasPages (device_of path, measurement_of path) name lists
        → IsWhole files told file → name.bytes ≡ Some bytes → files file.number ≡ Some bytes
        → ArePointsOf path (joined lists) (told file.number) }
{}

/// The rights of a pin are on files of the store that the kept files are of.
pub fn rights_are_of_the_store<F: Files>(pin: &Pin<F>)
    ensures { (files : KeptFiles) (store : Store) → AreColumnsHeld F.Right.file files pin.now.columns
        → AreOfStore store files.places → AreColumnsOf F.Right.file store pin.now.columns }
{}

/// The series of a pin for some items are of a device with a measurement.
pub fn series_have_a_device<F: Files>(pin: &Pin<F>)
    ensures { (files : KeptFiles) (memory : MemorySeen) (device : List ℕ) (items : List Item) (range : RangeSeen)
        → IsPinFor F.Right.file files memory device items range pin.now → HaveNodes pin.now.columns }
{}
