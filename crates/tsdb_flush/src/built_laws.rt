//! The laws. The functions do nothing; their contracts say them.
ghost use Rattle.std.specs.Prelude.{ℕ, List};
ghost use Rattle.tsdb_base.specs.declared.ids.SeriesId.{SeriesId};
ghost use Rattle.tsdb_base.specs.declared.ids.Space.{Space};
ghost use Rattle.tsdb_flush.specs.BuiltParts.{IsContentOfPart, IsJobOf, IsPart, entry_of};
ghost use Rattle.tsdb_flush.specs.BuiltFile.{IsFileEntryOf, IsFileOf, paths_of};
ghost use Rattle.tsdb_flush.specs.Parts.{Filled, filled_part};
ghost use Rattle.tsdb_memory.specs.Places.{Content};
ghost use Rattle.tsdb_model.specs.declared.command.Schema.{Schema};
ghost use Rattle.tsdb_memory.specs.StateOfMemory.{IsPairContent as IsShownAs};
ghost use Rattle.tsdb_memtable.specs.Pairs.{Pair};
ghost use Rattle.tsfile_writer.specs.File.{IsFile};
ghost use Rattle.tsfile_writer.specs.Trees.{IsMade, IsTree};
ghost use Rattle.tsfile_writer.specs.Tree.{Tree};
ghost use Rattle.tsdb_plan.specs.declared.entry.FileEntry.{FileEntry};
ghost use Rattle.tsdb_memory.specs.Stores.{IsTreeContent};
ghost use Rattle.tsdb_memory.specs.Jobs.{Describes};

/// The bytes of a built file are those of a tree that has the points of the part.
pub fn a_built_file_has_the_points_of_its_part()
    ensures { (part : List Filled) (bytes : List ℕ) (content : Content) → IsPart part → IsFileOf part bytes
        → IsContentOfPart part content
        → (tree : Tree) × IsTree tree × IsMade tree × IsFile tree bytes × IsTreeContent tree content }
{}

/// What is kept of a built file says its points: how many, which series, and the hulls of its devices.
pub fn the_entry_of_a_built_file_says_its_points()
    ensures { (part : List Filled) (number born : ℕ) (bytes : List ℕ) (entry : FileEntry) (content : Content)
        → IsPart part → IsFileEntryOf number born bytes part entry → IsContentOfPart part content
        → Describes (entry_of entry (paths_of part)) content }
{}

/// The part that a job writes has the points that a content of the pair in memory has.
pub fn the_part_of_a_job_is_the_content_of_its_pair()
    ensures { (series : List Schema) (space : Space) (pair : Pair) (schemas : List Schema) (numbers : List SeriesId)
        (content : Content) → IsJobOf series pair schemas numbers → IsShownAs series space pair content
        → IsContentOfPart (filled_part space pair schemas numbers) content }
{}
