//! The two lists of files, by number and born. Depends on tsdb_base.
ghost use Rattle.std.specs.Prelude.{◌≡◌, ◌<◌, ◌++◌, OnOk, vec_capacity, vec_len};
ghost use Rattle.tsdb_memory.specs.Least.{least_with as least_of_all};
ghost use Rattle.tsdb_redo.specs.Lists.{AreListsOf, HaveRoom, KeepsRecordedLists, borns_of_files, listed_files};
ghost use Rattle.tsdb_state.specs.NewStore.{new_store};
ghost use Rattle.tsdb_state.specs.Records.{new_file};
ghost use Rattle.tsdb_state.specs.State.{StoreState};

use std::alloc::Global;
use tsdb_base::{FileNumber, Memory, Stamp};
use tsdb_memory::lesser;

/// A listed file: its number, and the stamp at the freeze of its points.
#[derive(Clone, Copy, Debug, PartialEq, Eq)]
pub struct ListedFile {
    pub number: FileNumber,
    pub born: Stamp,
}

/// The files of both spaces in their orders, and the least of their borns.
#[derive(Drop)]
pub struct FileLists {
    pub sequence: Vec<ListedFile>,
    pub unsequence: Vec<ListedFile>,
    pub least: Option<Stamp>,
}

impl FileLists {
    /// No file.
    pub fn new(alloc: Global) -> FileLists
        ensures { AreListsOf result new_store }
    {
        FileLists {
            sequence: Vec::new(alloc),
            unsequence: Vec::new(alloc),
            least: None,
        }
    }

    /// Makes room for one file more in each list.
    pub fn reserve(&mut self) -> Result<(), Memory>
        ensures kept { KeepsRecordedLists self.old self.new }
        ensures room { OnOk result (HaveRoom self.new) }
    {
        self.sequence.reserve(1)?;
        self.unsequence.reserve(1)?;
        Ok(())
    }

    /// The files of a flush go to the ends of their lists; 0 stands for none. It takes no memory.
    pub fn add_flushed(&mut self, sequence: FileNumber, unsequence: FileNumber, born: Stamp)
        requires { HaveRoom self.old }
        ensures { (state : StoreState) → AreListsOf self.old state → AreListsOf self.new (record state {
          sequence = state.sequence ++ new_file sequence.0 born.0;
          unsequence = state.unsequence ++ new_file unsequence.0 born.0;
        }) }
    {
        push_new(&mut self.sequence, &mut self.least, sequence, born);
        push_new(&mut self.unsequence, &mut self.least, unsequence, born);
    }
}

/// Puts the file of a new number at the end of a list; 0 stands for none. It takes no memory.
fn push_new(files: &mut Vec<ListedFile>, least: &mut Option<Stamp>, number: FileNumber, born: Stamp)
    requires { vec_len files.old < vec_capacity files.old }
    ensures files { listed_files files.new.items ≡ listed_files files.old.items ++ new_file number.0 born.0 }
    ensures least { least.new ≡ least_of_all least.old (borns_of_files (new_file number.0 born.0)) }
{
    if number.0 == 0 {
        return;
    }
    match files.push(ListedFile { number, born }) {
        Ok(()) => (),
        Err(_full) => unreachable!(),
    }
    *least = Some(lesser(*least, born));
}

/// The least of the borns so far and those of some files more.
pub(crate) fn least_with(least: Option<Stamp>, files: &[ListedFile]) -> Option<Stamp>
    ensures { result ≡ least_of_all least (borns_of_files (listed_files files.now)) }
{
    let mut least = least;
    for file in files {
        least = Some(lesser(least, file.born));
    }
    least
}
