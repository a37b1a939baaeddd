//! The laws of an index. No body uses them. Depends on the definitions alone.
ghost use Rattle.std.specs.Prelude.{◌≡◌, ℕ, List, All};
ghost use Rattle.tsdb_index.specs.declared.index.IndexEntry.{IndexEntry as Entry};
ghost use Rattle.tsdb_index.specs.Entries.{IsEntry};
ghost use Rattle.tsdb_index.specs.Spelling.{IsIndexSpelling, RootBegins};

/// Two indexes of one version with the same bytes at the same place have the same entries.
pub fn one_index()
    ensures { (version place root : ℕ) (bytes : List ℕ) (xs ys : List Entry) →
        All (IsEntry version) xs → All (IsEntry version) ys →
        IsIndexSpelling place root xs bytes → IsIndexSpelling place root ys bytes → xs ≡ ys }
{}

/// The entries of an index have one spelling at a place, and one place of its root.
pub fn one_spelling()
    ensures { (place root_x root_y : ℕ) (entries : List Entry) (x y : List ℕ) →
        IsIndexSpelling place root_x entries x → IsIndexSpelling place root_y entries y → (x ≡ y) × (root_x ≡ root_y) }
{}

/// The bytes of an index have the root behind the leaves, and the root says where the first leaf stands.
pub fn root_begins()
    ensures { (place root : ℕ) (entries : List Entry) (bytes : List ℕ) →
        IsIndexSpelling place root entries bytes → RootBegins place root entries bytes }
{}
