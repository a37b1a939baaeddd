//! The laws of pages and files. No body uses them. Depends on the definitions alone.
ghost use Rattle.std.specs.Prelude.{◌≡◌, ℕ, ◌<◌, ◌^◌, true, All, List, length};
ghost use Rattle.tsdb_base.specs.declared.point.Point.{Point};
ghost use Rattle.tsdb_base.specs.declared.value.DataType.{DataType};
ghost use Rattle.tsdb_base.specs.declared.value.Encoding.{Encoding};
ghost use Rattle.tsdb_base.specs.Values.{is_suitable};
ghost use Rattle.tsdb_index.specs.declared.index.IndexEntry.{IndexEntry};
ghost use Rattle.tsdb_index.specs.Entries.{IsIndex};
ghost use Rattle.tsdb_index.specs.Faults.{IsIndexRead};
ghost use Rattle.tsdb_pages.specs.declared.tree.Tree.{Tree};
ghost use Rattle.tsdb_pages.specs.File.{AreEntriesIn, HasSums, IsFile, IsFileIn, data_field, version_in};
ghost use Rattle.tsdb_pages.specs.Pages.{ArePoints, IsInRange, body};
ghost use Rattle.tsdb_pages.specs.Places.{HasEnds, HasPlaces};
ghost use Rattle.tsdb_pages.specs.Reading.{IsBody};
ghost use Rattle.tsdb_pages.specs.Trees.{IsMade, IsTree};

/// Two pages with the same body are equal.
pub fn one_page()
    ensures { (data_type : DataType) (encoding : Encoding) → is_suitable data_type encoding ≡ true →
        (bytes : List ℕ) (xs ys : List Point) →
        IsBody data_type encoding bytes xs → IsBody data_type encoding bytes ys → xs ≡ ys }
{}

/// The body of a page has fewer than 2^32 bytes, so its length has four.
pub fn body_is_short()
    ensures { (data_type : DataType) (encoding : Encoding) → is_suitable data_type encoding ≡ true →
        (points : List Point) → ArePoints data_type points → All IsInRange points →
        length (body encoding points) < 2 ^ 32 }
{}

/// A tree has one file in each version.
pub fn one_file()
    ensures { (version : ℕ) (tree : Tree) (x y : List ℕ) → IsFileIn version tree x → IsFileIn version tree y → x ≡ y }
{}

/// A file says its version.
pub fn one_version()
    ensures { (tree : Tree) (bytes : List ℕ) (file : IsFile tree bytes) → version_in bytes ≡ file.version }
{}

/// Two trees with the same file, in whatever version, are equal.
pub fn one_tree()
    ensures { (a b : Tree) (bytes : List ℕ) → IsTree a → IsMade a → IsTree b → IsMade b →
        IsFile a bytes → IsFile b bytes → a ≡ b }
{}

/// Each chunk and each page of a tree's file stands where the tree's index says.
pub fn entries_stand()
    ensures { (tree : Tree) (bytes : List ℕ) (entries : List IndexEntry) →
        IsFile tree bytes → AreEntriesIn tree entries → All (HasPlaces tree bytes) entries }
{}

/// The tail of a tree's file says where the root stands, and the root where the first leaf does.
pub fn file_ends()
    ensures { (tree : Tree) (bytes : List ℕ) (file : IsFile tree bytes) →
        HasEnds file.version tree bytes file.entries file.root file.index_bytes }
{}

/// The entries of a tree, with the sums of a version, are those of an index.
pub fn entries_are_index()
    ensures { (version : ℕ) (tree : Tree) (entries : List IndexEntry) → IsTree tree → IsMade tree →
        AreEntriesIn tree entries → All (HasSums version) entries →
        length (data_field version tree) < 2 ^ 64 → IsIndex version entries }
{}

/// What is read of the index of a tree's file are the tree's entries.
pub fn read_entries()
    ensures { (tree : Tree) (bytes : List ℕ) (entries : List IndexEntry) → IsTree tree → IsMade tree →
        (file : IsFile tree bytes) → length (data_field file.version tree) < 2 ^ 64 →
        IsIndexRead file.version (length (data_field file.version tree)) file.root file.index_bytes entries → AreEntriesIn tree entries }
{}
