//! Files that are replaced: whether they stand as a record says, and what becomes of the lists. Depends on `lists`.
ghost use Rattle.std.specs.Prelude.{◌≡◌, ◌+◌, ◌≤◌, ◌<◌, ◌↔◌, ◌++◌, IsTrue, IfSome, None, length, take, drop};
ghost use Rattle.std.specs.Prelude.{vec_capacity, vec_len};
ghost use Rattle.tsdb_base.specs.declared.ids.Space.TheVariants.{Sequence, Unsequence};
ghost use Rattle.tsdb_redo.specs.Lists.{AreEnough, AreInputs, AreListsOf, AreOldInputs, CanReplaceIn, HasReplacedLists};
ghost use Rattle.tsdb_redo.specs.Lists.{HaveRoom, listed_files, replacement_of, state_of};
ghost use Rattle.tsdb_state.specs.Records.{new_file as new_file_of, number_list};
ghost use Rattle.tsdb_state.specs.Records.{replace as replaced_list, replace_in};
ghost use Rattle.tsdb_state.specs.State.{StoreState};

use crate::lists::{FileLists, ListedFile, least_with};
use tsdb_base::{FileNumber, List, Space, Stamp};

/// What the record of replaced files says.
#[derive(Drop)]
pub struct Replacing {
    pub born: Stamp,
    pub space: Space,
    pub place: u64,
    pub output: FileNumber,
    pub sequence: List<FileNumber>,
    pub unsequence: List<FileNumber>,
}

impl FileLists {
    /// Whether the inputs stand side by side in their lists as the record says, none of them younger than the output.
    pub fn can_replace(&self, item: &Replacing) -> bool
        ensures { IsTrue result ↔ CanReplaceIn item.now.space (replacement_of item.now) (state_of self.now) }
    {
        match item.space {
            Space::Sequence => self.can_make_sequence(item),
            Space::Unsequence => self.can_make_unsequence(item),
        }
    }

    /// The same of an output in the sequence list: of two or more sequence files, or of the first unsequence files with
    /// any number of sequence files.
    fn can_make_sequence(&self, item: &Replacing) -> bool
        ensures { IsTrue result ↔ CanReplaceIn Sequence (replacement_of item.now) (state_of self.now) }
    {
        let sequence = item.sequence.items();
        let unsequence = item.unsequence.items();
        if !are_enough(sequence, unsequence) {
            return false;
        }
        if !stand_at(&self.sequence, item.place, sequence, item.born) {
            return false;
        }
        stand_at(&self.unsequence, 0, unsequence, item.born)
    }

    /// The same of an output in the unsequence list: of two or more unsequence files.
    fn can_make_unsequence(&self, item: &Replacing) -> bool
        ensures { IsTrue result ↔ CanReplaceIn Unsequence (replacement_of item.now) (state_of self.now) }
    {
        let unsequence = item.unsequence.items();
        if !item.sequence.items().is_empty() || unsequence.len() < 2 {
            return false;
        }
        stand_at(&self.unsequence, item.place, unsequence, item.born)
    }

    /// The inputs leave their lists, and the output stands in their place. It takes no memory.
    pub fn replace(&mut self, item: &Replacing)
        requires room { HaveRoom self.old }
        requires inputs { CanReplaceIn item.now.space (replacement_of item.now) (state_of self.old) }
        ensures { (state : StoreState) → AreListsOf self.old state
            → AreListsOf self.new (replace_in item.now.space (replacement_of item.now) state) }
    {
        self.replace_files(item);
        self.least = least_with(least_with(None, &self.sequence), &self.unsequence);
    }

    fn replace_files(&mut self, item: &Replacing)
        requires room { HaveRoom self.old }
        requires inputs { CanReplaceIn item.now.space (replacement_of item.now) (state_of self.old) }
        ensures { HasReplacedLists item.now.space (replacement_of item.now) self.old self.new }
    {
        match item.space {
            Space::Sequence => self.replace_sequence(item),
            Space::Unsequence => self.replace_unsequence(item),
        }
    }

    fn replace_sequence(&mut self, item: &Replacing)
        requires room { HaveRoom self.old }
        requires inputs { CanReplaceIn Sequence (replacement_of item.now) (state_of self.old) }
        ensures { HasReplacedLists Sequence (replacement_of item.now) self.old self.new }
    {
        let count = item.sequence.items().len();
        let place = item.place as usize;
        replace(&mut self.sequence, place, count, item.output, item.born);
        remove(&mut self.unsequence, 0, item.unsequence.items().len());
    }

    fn replace_unsequence(&mut self, item: &Replacing)
        requires room { HaveRoom self.old }
        requires inputs { CanReplaceIn Unsequence (replacement_of item.now) (state_of self.old) }
        ensures { HasReplacedLists Unsequence (replacement_of item.now) self.old self.new }
    {
        let count = item.unsequence.items().len();
        let place = item.place as usize;
        replace(&mut self.unsequence, place, count, item.output, item.born);
    }
}

/// Whether an output in the sequence list can have so many inputs.
fn are_enough(sequence: &[FileNumber], unsequence: &[FileNumber]) -> bool
    ensures { IsTrue result ↔ AreEnough (number_list sequence.now) (number_list unsequence.now) }
{
    if unsequence.is_empty() {
        return sequence.len() >= 2;
    }
    true
}

/// Whether files with these numbers stand side by side in the list from the place on, none of them younger than this.
fn stand_at(files: &[ListedFile], place: u64, numbers: &[FileNumber], born: Stamp) -> bool
    ensures { IsTrue result ↔ AreOldInputs place (number_list numbers.now) born.0 (listed_files files.now) }
{
    match part_at(files, place, numbers.len()) {
        Some(part) => are_inputs(part, numbers, born),
        None => false,
    }
}

/// So many files of the list from the place on, where it has them.
fn part_at(files: &[ListedFile], place: u64, count: usize) -> Option<&[ListedFile]>
    ensures some { IfSome result (λ part. (place + count ≤ length files.now)
        × (part.now ≡ take count (drop place files.now))) }
    ensures none { result ≡ None → length files.now < place + count }
{
    if place > files.len() as u64 {
        return None;
    }
    let rest = &files[place as usize..];
    if count > rest.len() {
        return None;
    }
    Some(&rest[..count])
}

/// Whether these files have these numbers, and none of them is younger than this.
fn are_inputs(files: &[ListedFile], numbers: &[FileNumber], born: Stamp) -> bool
    requires { length files.now ≡ length numbers.now }
    ensures { IsTrue result ↔ AreInputs files.now numbers.now born }
{
    for place in 0..numbers.len() {
        let file = files[place];
        if file.number != numbers[place] {
            return false;
        }
        if file.born.0 > born.0 {
            return false;
        }
    }
    true
}

/// So many files leave the list from the place on. It takes no memory.
fn remove(files: &mut Vec<ListedFile>, place: usize, count: usize)
    requires { place + count ≤ length files.old.items }
    ensures items { files.new.items ≡ take place files.old.items ++ drop (place + count) files.old.items }
    ensures len { vec_len files.new + count ≡ vec_len files.old }
    ensures capacity { vec_capacity files.new ≡ vec_capacity files.old }
{
    let left = files.len() - count;
    files.copy_within(place + count.., place);
    files.truncate(left);
}

/// So many files leave the list from the place on, and the file of a new number stands there; 0 stands for none. It
/// takes no memory.
fn replace(files: &mut Vec<ListedFile>, place: usize, count: usize, output: FileNumber, born: Stamp)
    requires place { place + count ≤ length files.old.items }
    requires room { vec_len files.old < vec_capacity files.old }
    ensures { listed_files files.new.items
        ≡ replaced_list place count (new_file_of output.0 born.0) (listed_files files.old.items) }
{
    remove(files, place, count);
    if output.0 == 0 {
        return;
    }
    let file = ListedFile {
        number: output,
        born,
    };
    match files.insert(place, file) {
        Ok(()) => (),
        Err(_full) => unreachable!(),
    }
}
