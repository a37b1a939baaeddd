//! The law. The function does nothing; its contract says it.
ghost use Rattle.tsdb_recover.specs.Adopting.{IsReadOf};
ghost use Rattle.tsdb_index.specs.declared.index.FileMeta.{FileMeta};
ghost use Rattle.tsdb_state.specs.Stores.{BytesByNumber, IsWhole};
ghost use Rattle.tsdb_state.specs.State.{File, ToldContents};
ghost use Rattle.tsfile_reader.specs.Meta.{IsMetaOf};

/// What was read of a whole file is of a tree that has the points that are told of the file.
pub fn what_is_read_of_a_whole_file_is_of_its_points()
    ensures { (files : BytesByNumber) (told : ToldContents) (file : File) (meta : FileMeta)
        (whole : IsWhole files told file)
        → IsMetaOf whole.tree whole.bytes meta → IsReadOf meta (told file.number) }
{}
