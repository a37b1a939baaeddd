//! A stored file in memory with the record of its life, and the tokens that name it. The node of the record is made as
//! the file is stored and goes with its `Sealed`, so that `keep` and `remove` take no memory. Depends on
//! `tsdb_outside`.
ghost use Rattle.std.specs.Prelude.{◌≡◌, ◌≢◌, ℕ, ◌+◌, ◌-◌, ◌<◌, ◌^◌, ◌∷◌, ◌++◌, [], length, map, filter, take, drop};
ghost use Rattle.std.specs.Prelude.{slice_index_or, Contains, IfOk, IfSome, MatchOption, OnErr, OnOk, Some, None};
ghost use Rattle.std.specs.Arc.{arc_value};
ghost use Rattle.mem_outside.specs.declared.entry.StoredEntry.{StoredEntry};
ghost use Rattle.mem_outside.specs.Entry.{entry_file, named_file, is_there, entry_files, last_place, last_of, removed};
ghost use Rattle.mem_outside.specs.Entry.{handed_in, TakesFileNode, failed_at, is_left, is_cut, half_file, files_left};
ghost use Rattle.tsdb_outside.specs.Files.{stored_file_numbers};

use crate::record::StopKind;
use std::alloc::{AllocError, Global};
use std::collections::LinkedList;
use std::sync::Arc;
use tsdb_base::{FileNumber, Memory};
use tsdb_outside::{ReadRight, SealedFile};

/// A stored file, with the places in the row of the calls that stored it (0 where it was handed in) and removed it.
#[derive(Drop)]
pub struct StoredEntry {
    pub number: u64,
    pub bytes: Arc<Vec<u8>>,
    pub put_at: u64,
    pub removed_at: Option<u64>,
}

impl StoredEntry {
    // Whether a stop behind this many counted calls leaves it.
    fn is_there(&self, moment: u64) -> bool
        ensures { result ≡ is_there moment self.now }
    {
        self.put_at <= moment
            && match self.removed_at {
                Some(at) => moment < at,
                None => true,
            }
    }

    // Whether a stop of this kind behind this many counted calls leaves it whole.
    fn is_left(&self, kind: StopKind, moment: u64) -> bool
        ensures { result ≡ is_left kind moment self.now }
    {
        match kind {
            StopKind::Written | StopKind::Scrambled => self.is_there(moment),
            StopKind::Unwritten => self.put_at <= moment,
        }
    }

    // Whether the call that put it failed.
    fn has_failed(&self) -> bool
        ensures { result ≡ failed_at self.now.put_at self.now.removed_at }
    {
        match self.removed_at {
            Some(at) => at == self.put_at,
            None => false,
        }
    }

    // Whether such a stop leaves a part of it.
    fn is_cut(&self, kind: StopKind, moment: u64) -> bool
        ensures { result ≡ is_cut kind moment self.now }
    {
        match kind {
            StopKind::Written | StopKind::Unwritten => false,
            StopKind::Scrambled => {
                self.put_at.saturating_sub(moment) == 1
                    || self.put_at <= moment && self.has_failed()
            }
        }
    }

    // The first half of the file, as one that was handed in.
    fn half(&self, alloc: Global) -> Result<StoredEntry, AllocError>
        ensures { IfOk result (λ half. entry_file half ≡ half_file self.now) }
    {
        let bytes = self.bytes[..self.bytes.len() / 2].to_vec(alloc)?;
        Ok(StoredEntry {
            number: self.number,
            bytes: Arc::new(alloc, bytes)?,
            put_at: 0,
            removed_at: None,
        })
    }

    // The greatest place in the row that it has.
    fn last_place(&self) -> u64
        ensures { result ≡ last_place self.now }
    {
        match self.removed_at {
            Some(at) => self.put_at.max(at),
            None => self.put_at,
        }
    }

    // The same file, as one that was handed in.
    fn copy(&self) -> Result<StoredEntry, AllocError>
        ensures { IfOk result (λ copy. entry_file copy ≡ entry_file self.now) }
    {
        Ok(StoredEntry {
            number: self.number,
            bytes: Arc::try_clone(&self.bytes)?,
            put_at: 0,
            removed_at: None,
        })
    }
}

/// The entries of files that are handed in.
pub fn new_entries(
    alloc: Global,
    files: Vec<(FileNumber, Vec<u8>)>,
) -> Result<LinkedList<StoredEntry>, AllocError>
    ensures { IfOk result (λ entries. entry_files entries ≡ map handed_in files.items) }
{
    let mut entries = LinkedList::new(alloc);
    for (number, bytes) in files {
        entries.push_back(StoredEntry {
            number: number.0,
            bytes: Arc::new(alloc, bytes)?,
            put_at: 0,
            removed_at: None,
        })?;
    }
    Ok(entries)
}

/// The greatest place in the row of these entries, or 0.
pub fn last_of(entries: &LinkedList<StoredEntry>) -> u64
    ensures { result ≡ last_of entries.now }
{
    entries
        .iter()
        .fold(0, |last, entry| last.max(entry.last_place()))
}

// Copies the entries that such a stop leaves whole.
fn copy_whole(
    entries: &LinkedList<StoredEntry>,
    kind: StopKind,
    moment: u64,
    into: &mut LinkedList<StoredEntry>,
) -> Result<(), AllocError>
    ensures { OnOk result (entry_files into.new
        ≡ entry_files into.old ++ entry_files (filter (is_left kind moment) entries.now)) }
{
    for entry in entries.iter() {
        if entry.is_left(kind, moment) {
            into.push_back(entry.copy()?)?;
        }
    }
    Ok(())
}

// Copies half of each entry of which such a stop leaves a part.
fn copy_cut(
    alloc: Global,
    entries: &LinkedList<StoredEntry>,
    kind: StopKind,
    moment: u64,
    into: &mut LinkedList<StoredEntry>,
) -> Result<(), AllocError>
    ensures { OnOk result (entry_files into.new
        ≡ entry_files into.old ++ map half_file (filter (is_cut kind moment) entries.now)) }
{
    for entry in entries.iter() {
        if entry.is_cut(kind, moment) {
            into.push_back(entry.half(alloc)?)?;
        }
    }
    Ok(())
}

/// Copies what a stop of this kind behind this many counted calls leaves of these entries.
pub fn copy_left(
    alloc: Global,
    entries: &LinkedList<StoredEntry>,
    kind: StopKind,
    moment: u64,
    into: &mut LinkedList<StoredEntry>,
) -> Result<(), AllocError>
    ensures { OnOk result (entry_files into.new
        ≡ entry_files into.old ++ files_left kind moment entries.now) }
{
    copy_whole(entries, kind, moment, into)?;
    copy_cut(alloc, entries, kind, moment, into)
}

// Marks the first entry as removed by the call at this place.
fn mark_removed(node: &mut LinkedList<StoredEntry>, at: u64)
    requires { length node.old ≡ 1 }
    ensures { node.new ≡ map (removed at) node.old }
{
    if let Some(entry) = node.front_mut() {
        entry.removed_at = Some(at);
    }
}

/// Puts the file with this node behind those that were removed, as one that the call at this place removed.
pub fn put_removed(gone: &mut LinkedList<StoredEntry>, node: LinkedList<StoredEntry>, at: u64)
    requires { length node ≡ 1 }
    ensures { length gone.old + length node < 2 ^ 63 → gone.new ≡ gone.old ++ map (removed at) node }
{
    let mut node = node;
    mark_removed(&mut node, at);
    let _ = gone.append(&mut node);
}

// Takes the node at this place out.
fn take_at(
    entries: &mut LinkedList<StoredEntry>,
    at: usize,
) -> Result<LinkedList<StoredEntry>, AllocError>
    requires at { at < length entries.old }
    requires fits { length entries.old < 2 ^ 63 }
    ensures node { IfOk result (λ node. node ≡ take 1 (drop at entries.old)) }
    ensures rest { OnOk result (entries.new ≡ take at entries.old ++ drop (at + 1) entries.old) }
    ensures err { OnErr result (entries.new ≡ entries.old) }
{
    let mut node = entries.split_off(at)?;
    match node.split_off(1) {
        Ok(mut rest) => {
            let _ = entries.append(&mut rest);
            Ok(node)
        }
        Err(error) => {
            let _ = entries.append(&mut node);
            Err(error)
        }
    }
}

// Where the first file with this number stands.
fn place_of(entries: &LinkedList<StoredEntry>, number: u64) -> Option<usize>
    ensures first { MatchOption result
        ((k : ℕ) (d : StoredEntry) → k < length entries.now → (slice_index_or entries.now k d).number ≢ number)
        (λ at. at < length entries.now × ((d : StoredEntry) → (slice_index_or entries.now at d).number ≡ number)) }
    ensures fits { length entries.now < 2 ^ 63 }
{
    entries.iter().position(|entry| entry.number == number)
}

/// Takes the node of the file with this number out, or none where it is not there.
pub fn take_node(
    entries: &mut LinkedList<StoredEntry>,
    number: u64,
) -> Result<Option<LinkedList<StoredEntry>>, AllocError>
    ensures none { IfOk result (λ found. MatchOption found (¬ Contains (stored_file_numbers (entry_files entries.old)) number)
        (λ node. TakesFileNode number node entries.old entries.new)) }
    ensures same { IfOk result (λ found. found ≡ None → entries.new ≡ entries.old) }
    ensures err { OnErr result (entries.new ≡ entries.old) }
{
    let Some(at) = place_of(entries, number) else {
        return Ok(None);
    };
    Ok(Some(take_at(entries, at)?))
}

/// Names a file in memory. It holds the node of the file's record, and the directory of its store.
pub struct MemSealed {
    node: LinkedList<StoredEntry>,
    directory: Arc<Vec<u8>>,
    rights: u64,
    // It is one node.
    ghost one: { length node ≡ 1 },
}

impl MemSealed {
    ghost use Rattle.mem_outside.specs.Tokens.{sealed_node, sealed_store, sealed_rights, store_of};

    pub(crate) fn new(
        alloc: Global,
        directory: Arc<Vec<u8>>,
        entry: StoredEntry,
    ) -> Result<MemSealed, AllocError>
        ensures node { IfOk result (λ sealed. sealed_node sealed ≡ entry ∷ []) }
        ensures store { IfOk result (λ sealed. sealed_store sealed ≡ store_of (arc_value directory).items) }
        ensures rights { IfOk result (λ sealed. sealed_rights sealed ≡ 0) }
    {
        let mut node = LinkedList::new(alloc);
        node.push_back(entry)?;
        Ok(MemSealed {
            node,
            directory,
            rights: 0,
        })
    }

    pub(crate) fn of_node(directory: Arc<Vec<u8>>, node: LinkedList<StoredEntry>) -> MemSealed
        requires { length node ≡ 1 }
        ensures node { sealed_node result ≡ node }
        ensures store { sealed_store result ≡ store_of (arc_value directory).items }
        ensures rights { sealed_rights result ≡ 0 }
    {
        MemSealed {
            node,
            directory,
            rights: 0,
        }
    }

    pub(crate) fn into_node(self) -> LinkedList<StoredEntry>
        ensures node { result ≡ sealed_node self }
        ensures one { length result ≡ 1 }
    {
        let MemSealed {
            node,
            directory: _,
            rights: _,
        } = self;
        node
    }

    // Gives a right out, where there is a file.
    pub(crate) fn share(&mut self) -> Result<MemRight, Memory>
        ensures right { IfOk result (λ right. named_file (sealed_store self.old) (sealed_node self.old) ≡ record {
          store = store_of (arc_value right.directory).items;
          number = right.number;
          bytes = Some (arc_value right.bytes).items;
        }) }
        ensures node { sealed_node self.new ≡ sealed_node self.old }
        ensures store { sealed_store self.new ≡ sealed_store self.old }
        ensures ok { OnOk result (sealed_rights self.new ≡ sealed_rights self.old + 1) }
        ensures memory { OnErr result (sealed_rights self.new ≡ sealed_rights self.old) }
    {
        let Some(rights) = self.rights.checked_add(1) else {
            return Err(Memory);
        };
        let Some(entry) = self.node.front() else {
            return Err(Memory);
        };
        let right = MemRight {
            directory: Arc::try_clone(&self.directory)?,
            number: entry.number,
            bytes: Arc::try_clone(&entry.bytes)?,
        };
        self.rights = rights;
        Ok(right)
    }

    // Takes a right back.
    pub(crate) fn give_back(&mut self, right: MemRight)
        ensures node { sealed_node self.new ≡ sealed_node self.old }
        ensures store { sealed_store self.new ≡ sealed_store self.old }
        ensures rights { sealed_rights self.new ≡ sealed_rights self.old - 1 }
    {
        let MemRight {
            directory: _,
            number: _,
            bytes: _,
        } = right;
        self.rights = self.rights.saturating_sub(1);
    }
}

impl SealedFile for MemSealed {
    ghost use Rattle.std.proofs.Common.{refl};
    ghost use Rattle.mem_outside.specs.Tokens.{sealed_file, sealed_rights, sealed_store, tells_node};

    ghost file = { sealed_file };

    ghost rights = { sealed_rights };

    ghost tells = { λ sealed. tells_node (sealed_store sealed) sealed.node sealed.one refl };
}

/// Lets its holder read a file in memory.
pub struct MemRight {
    directory: Arc<Vec<u8>>,
    number: u64,
    bytes: Arc<Vec<u8>>,
}

impl MemRight {
    ghost use Rattle.mem_outside.specs.Tokens.{right_bytes};

    pub(crate) fn bytes(&self) -> &[u8]
        ensures { result.now ≡ right_bytes self.now }
    {
        self.bytes.as_slice()
    }
}

impl ReadRight for MemRight {
    ghost use Rattle.std.proofs.Common.{refl};
    ghost use Rattle.mem_outside.specs.Tokens.{right_file};

    ghost file = { right_file };

    ghost tells = { λ _. refl };
}
