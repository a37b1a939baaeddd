//! The series of a kept file, and the search for one of them. Depends on tsdb_base and tsdb_path.
ghost use Rattle.std.specs.Prelude.{◌≡◌, ◌↔◌, IsTrue};
ghost use Rattle.std.specs.List.{list_any};
ghost use Rattle.tsdb_path.specs.Order.{AreInTreeOrder};
ghost use Rattle.tsdb_flush.specs.Places.{is_path};

use std::marker::Model;
use tsdb_base::List;
use tsdb_path::{Path, compare_in_tree};

/// Whether each of the paths comes before the next in the order of a tree.
fn are_in_order(paths: &[Path]) -> bool
    ensures { IsTrue result ↔ AreInTreeOrder paths.now }
{
    paths.is_sorted_by(|path, next| compare_in_tree(path, next).is_lt())
}

/// Whether the path is one of those, by a binary search.
fn has_among_rising(paths: &[Path], path: &Path) -> bool
    requires { AreInTreeOrder paths.now }
    ensures { result ≡ list_any (is_path path.now) paths.now }
{
    match paths.binary_search_by(|other| compare_in_tree(other, path)) {
        Ok(at) => path.cmp(&paths[at]).is_eq(),
        Err(_) => false,
    }
}

/// Whether the path is one of those, in whatever order they stand.
fn has_among(paths: &[Path], path: &Path) -> bool
    ensures { result ≡ list_any (is_path path.now) paths.now }
{
    paths.iter().any(|other| path.cmp(other).is_eq())
}

/// The paths of the series of a file, and whether they stand in the order of a tree. Those of a file that a store has
/// built or taken up do; nobody promises it of a list that is handed in, so it is looked at once.
#[derive(Drop)]
pub(crate) struct SeriesPaths {
    paths: List<Path>,
    in_order: bool,
}

impl Model for SeriesPaths {
    ghost use Rattle.std.specs.Prelude.{ℕ, List, IsTrue, ◌↔◌};
    ghost use Rattle.tsdb_path.specs.Order.{AreInTreeOrder};

    ghost Value = { List (List ℕ) };

    ghost view = { λ series. series.paths };

    ghost invariant = { λ series. IsTrue series.in_order ↔ AreInTreeOrder series.paths };
}

impl SeriesPaths {
    /// The series with these paths.
    pub(crate) fn new(paths: List<Path>) -> SeriesPaths
        ensures { result ≡ paths }
    {
        let in_order = are_in_order(paths.items());
        SeriesPaths { paths, in_order }
    }

    /// The paths, in their order.
    pub(crate) fn items(&self) -> &[Path]
        ensures { result.now ≡ self.now }
    {
        self.paths.items()
    }

    /// Whether the path is one of them: by a binary search, where they stand in the order of a tree.
    pub(crate) fn has(&self, path: &Path) -> bool
        ensures { result ≡ list_any (is_path path.now) self.now }
    {
        if self.in_order {
            has_among_rising(self.paths.items(), path)
        } else {
            has_among(self.paths.items(), path)
        }
    }
}
