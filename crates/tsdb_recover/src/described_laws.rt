//! The laws. The functions do nothing; their contracts say them.
ghost use Rattle.std.specs.Prelude.{ℕ, List};
ghost use Rattle.tsdb_flush.specs.BuiltParts.{entry_of};
ghost use Rattle.tsdb_recover.specs.DescribedTrees.{tree_part};
ghost use Rattle.tsdb_flush.specs.BuiltFile.{IsFileEntryOf, paths_of};
ghost use Rattle.tsdb_state.specs.Places.{Content};
ghost use Rattle.tsdb_pages.specs.Trees.{IsMade, IsTree};
ghost use Rattle.tsdb_pages.specs.declared.tree.Tree.{Tree};
ghost use Rattle.tsdb_plan.specs.declared.entry.FileEntry.{FileEntry};
ghost use Rattle.tsdb_state.specs.Stores.{IsTreeContent};
ghost use Rattle.tsdb_state.specs.Jobs.{Describes};

/// What is kept of the file of a tree says the points of the tree: how many, which series, and the hulls of its devices.
pub fn the_entry_of_a_file_says_its_points()
    ensures { (tree : Tree) (number born : ℕ) (bytes : List ℕ) (entry : FileEntry) (content : Content)
        → IsTree tree → IsMade tree → IsFileEntryOf number born bytes (tree_part tree) entry
        → IsTreeContent tree content
        → Describes (entry_of entry (paths_of (tree_part tree))) content }
{}
