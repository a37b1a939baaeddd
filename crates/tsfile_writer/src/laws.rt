//! The law of trees with pages filled in turn. No body uses it. Depends on the definitions alone.
ghost use Rattle.std.specs.Prelude.{ℕ, List};
ghost use Rattle.tsdb_pages.specs.declared.tree.Tree.{Tree};
ghost use Rattle.tsdb_pages.specs.File.{IsFile};
ghost use Rattle.tsfile_writer.specs.BuilderInput.{IsTreeOf, GivenSeries};

/// All trees of the same series have one file. So `write_tree` gives the bytes of `finish` for such a tree.
pub fn one_file_of_series()
    ensures { (given : List GivenSeries) (a b : Tree) (bytes : List ℕ) → IsTreeOf given a → IsTreeOf given b →
        IsFile a bytes → IsFile b bytes }
{}
