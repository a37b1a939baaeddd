//! The files of a store in memory, and their ports. Some of their calls fail, by number. Depends on `entry` and `row`.
ghost use Rattle.std.specs.Prelude.{◌≡◌, ◌↔◌, ℕ, ◌+◌, ◌-◌, ◌^◌, ◌<◌, ◌≤◌, ◌∷◌, ◌++◌, [], min, max, length, take, drop};
ghost use Rattle.std.specs.Prelude.{map, filter, All, Contains, None, Some, IfOk, IfSome, IsErr, IsErrOf, IsOk, MatchOption};
ghost use Rattle.std.specs.Prelude.{OnErr, OnOk};
ghost use Rattle.std.specs.Option.{ForSome};
ghost use Rattle.std.specs.Arc.{arc_value};
ghost use Rattle.std.specs.List.Sorted.{IsStrictlyIncreasing};
ghost use Rattle.tsdb_base.specs.Causes.{Rose};
ghost use Rattle.tsdb_outside.specs.Causes.{HasCause, HasStoreCause};
ghost use Rattle.tsdb_outside.specs.Disk.{WhereTold};
ghost use Rattle.tsdb_outside.specs.Files.{IsFileNumber, Names, stored_file_numbers, plain_numbers, TakesOut, PutsBack};
ghost use Rattle.tsdb_outside.specs.Limits.{FitsSlot};
ghost use Rattle.mem_outside.specs.Entry.{entry_files, files_left, last_of};
ghost use Rattle.mem_outside.specs.Files.{port_faults, port_gone, port_row, port_store, files_faults};
ghost use Rattle.mem_outside.specs.Files.{files_at_rest, files_gone, files_row, files_store, stored_files, AddsRemoved};
ghost use Rattle.mem_outside.specs.Files.{port_bytes_read, port_last, files_last, AddsFailed, IsPutAt};
ghost use Rattle.mem_outside.specs.Row.{never_fails, IsCountedFromOne, IsFailing};
ghost use Rattle.tsdb_outside.specs.declared.faults.StoreFault.TheVariants as fault;
ghost use Rattle.mem_outside.specs.Tokens.{sealed_node, sealed_file, sealed_rights, store_of, right_bytes, right_file};

use crate::entry::{MemRight, MemSealed, StoredEntry, copy_left, last_of, put_removed, take_node};
use crate::record::StopKind;
use crate::row::{CallRow, Drawn};
use std::alloc::{AllocError, Global};
use std::collections::LinkedList;
use std::sync::Arc;
use tsdb_base::{FileNumber, Memory};
use tsdb_outside::{Counted, Failed, Files, Port, StoreFault, list_of_numbers};

/// Where one session or worker writes and reads files in memory. It keeps the record of the files that it removed.
#[derive(Drop)]
pub struct MemPort {
    alloc: Global,
    directory: Arc<Vec<u8>>,
    row: Arc<CallRow>,
    last: Drawn,
    gone: LinkedList<StoredEntry>,
    bytes_read: u64,
    faults: u64,
}

impl MemPort {
    /// How many bytes its reads that succeeded gave. A number that comes to 2^64 - 1 stays there.
    pub fn bytes_read(&self) -> u64
        ensures { result ≡ port_bytes_read self.now }
    {
        self.bytes_read
    }

    // Makes a counted call, which may fail by its number.
    fn call(&mut self) -> Result<(), Failed>
        ensures drawn { IsCountedFromOne (port_last self.new) }
        ensures fails { IsErr result ↔ IsFailing (port_row self.old) (port_last self.new) }
        ensures never { never_fails (port_row self.old) → IsOk result }
        ensures cause { HasCause (port_faults self.old) (port_faults self.new) result }
        ensures no_fault { OnOk result (port_faults self.new ≡ port_faults self.old) }
        ensures bytes_read { port_bytes_read self.new ≡ port_bytes_read self.old }
        ensures gone { port_gone self.new ≡ port_gone self.old }
        ensures row { port_row self.new ≡ port_row self.old }
        ensures same_store { port_store self.new ≡ port_store self.old }
    {
        self.last = self.row.draw_on_files();
        let answer = self.row.answer(self.last);
        if answer.is_err() {
            self.faults = self.faults.saturating_add(1);
        }
        answer
    }
}

impl Counted for MemPort {
    ghost faults = { port_faults };
}

impl Port for MemPort {
    type Sealed = MemSealed;

    type Right = MemRight;

    ghost store = { port_store };

    fn put(&mut self, number: FileNumber, bytes: &[u8]) -> Result<MemSealed, StoreFault>
        ensures file { IfOk result (λ sealed. Names number.0 bytes.now (sealed_file sealed)) }
        ensures store { IfOk result (λ sealed. (sealed_file sealed).store ≡ port_store self.old) }
        ensures no_rights { IfOk result (λ sealed. sealed_rights sealed ≡ 0) }
        ensures cause { HasStoreCause (port_faults self.old) (port_faults self.new) result }

        // It tells the bytes, and fails by its number or without memory alone.
        ensures told { IfOk result (λ sealed. sealed_file sealed
            ≡ record { store = port_store self.old; number = number.0; bytes = Some bytes.now }) }
        ensures no_fault { never_fails (port_row self.old) → port_faults self.new ≡ port_faults self.old }
        ensures same { OnOk result (port_gone self.new ≡ port_gone self.old) }
        ensures no_room { IsErrOf result fault.Memory → port_gone self.new ≡ port_gone self.old }
        ensures row { port_row self.new ≡ port_row self.old }
        ensures same_store { port_store self.new ≡ port_store self.old }

        // The record has the place of the call. One that failed is on it as put and removed by this call.
        ensures place { IfOk result (λ sealed. IsPutAt (port_last self.new).place (sealed_node sealed)) }
        ensures failed { IsErrOf result fault.Failed
            → AddsFailed number.0 bytes.now (port_last self.new).place (port_gone self.old) (port_gone self.new) }
        ensures drawn { IsCountedFromOne (port_last self.new) }
        ensures fails { IsErrOf result fault.Failed → IsFailing (port_row self.old) (port_last self.new) }
        ensures done { OnOk result (¬ IsFailing (port_row self.old) (port_last self.new)) }
        ensures bytes_read { port_bytes_read self.new ≡ port_bytes_read self.old }
    {
        let answer = self.call();
        let bytes = Arc::new(self.alloc, bytes.to_vec(self.alloc)?)?;
        let entry = StoredEntry {
            number: number.0,
            bytes,
            put_at: self.last.place,
            removed_at: None,
        };
        let directory = Arc::try_clone(&self.directory)?;
        let sealed = MemSealed::new(self.alloc, directory, entry)?;
        if answer.is_err() {
            put_removed(&mut self.gone, sealed.into_node(), self.last.place);
            return Err(StoreFault::Failed);
        }
        Ok(sealed)
    }

    fn read(&mut self, right: &MemRight, at: u64, into: &mut [u8]) -> Result<(), Failed>
        requires range { ForSome (right_file right.now).bytes (λ bytes. at + length into.old ≤ length bytes) }
        requires store { (right_file right.now).store ≡ port_store self.old }
        ensures bytes { OnOk result (IfSome (right_file right.now).bytes
            (λ bytes. into.new ≡ take (length into.new) (drop at bytes))) }
        ensures cause { HasCause (port_faults self.old) (port_faults self.new) result }

        // It fails by its number alone.
        ensures drawn { IsCountedFromOne (port_last self.new) }
        ensures bytes_read { OnOk result (port_bytes_read self.new
            ≡ min (port_bytes_read self.old + length into.new) (2 ^ 64 - 1)) }
        ensures none_read { OnErr result (port_bytes_read self.new ≡ port_bytes_read self.old) }
        ensures fails { IsErr result ↔ IsFailing (port_row self.old) (port_last self.new) }
        ensures never { never_fails (port_row self.old) → IsOk result }
        ensures no_fault { never_fails (port_row self.old) → port_faults self.new ≡ port_faults self.old }
        ensures same { port_gone self.new ≡ port_gone self.old }
        ensures row { port_row self.new ≡ port_row self.old }
        ensures same_store { port_store self.new ≡ port_store self.old }
    {
        self.call()?;
        let at = at as usize;
        into.copy_from_slice(&right.bytes()[at..at + into.len()]);
        self.bytes_read = self.bytes_read.saturating_add(into.len() as u64);
        Ok(())
    }

    fn size(&mut self, right: &MemRight) -> Result<u64, Failed>
        ensures length { IfOk result (λ n. ForSome (right_file right.now).bytes (λ bytes. n ≡ length bytes)) }
        ensures limit { IfOk result FitsSlot }
        ensures cause { HasCause (port_faults self.old) (port_faults self.new) result }

        // It fails by its number alone.
        ensures drawn { IsCountedFromOne (port_last self.new) }
        ensures bytes_read { port_bytes_read self.new ≡ port_bytes_read self.old }
        ensures fails { IsErr result ↔ IsFailing (port_row self.old) (port_last self.new) }
        ensures never { never_fails (port_row self.old) → IsOk result }
        ensures no_fault { never_fails (port_row self.old) → port_faults self.new ≡ port_faults self.old }
        ensures same { port_gone self.new ≡ port_gone self.old }
        ensures row { port_row self.new ≡ port_row self.old }
        ensures same_store { port_store self.new ≡ port_store self.old }
    {
        self.call()?;
        Ok(right.bytes().len() as u64)
    }

    fn remove(&mut self, sealed: MemSealed) -> Result<(), Failed>
        requires rights { sealed_rights sealed ≡ 0 }
        requires store { (sealed_file sealed).store ≡ port_store self.old }
        ensures cause { HasCause (port_faults self.old) (port_faults self.new) result }

        // The file is gone whatever it returns, which is by its number alone.
        ensures gone { AddsRemoved (port_last self.new).place (sealed_node sealed)
            (port_gone self.old) (port_gone self.new) }
        ensures drawn { IsCountedFromOne (port_last self.new) }
        ensures fails { IsErr result ↔ IsFailing (port_row self.old) (port_last self.new) }
        ensures bytes_read { port_bytes_read self.new ≡ port_bytes_read self.old }
        ensures row { port_row self.new ≡ port_row self.old }
        ensures same_store { port_store self.new ≡ port_store self.old }
        ensures never { never_fails (port_row self.old) → IsOk result }
        ensures no_fault { OnOk result (port_faults self.new ≡ port_faults self.old) }
        ensures steady { never_fails (port_row self.old) → port_faults self.new ≡ port_faults self.old }
    {
        let answer = self.call();
        put_removed(&mut self.gone, sealed.into_node(), self.last.place);
        answer
    }

    fn share(sealed: &mut MemSealed) -> Result<MemRight, Memory> {
        sealed.share()
    }

    fn give_back(sealed: &mut MemSealed, right: MemRight) {
        sealed.give_back(right);
    }

    /// Files in memory tell their bytes, so it does nothing.
    fn spoiled(&mut self, _right: &MemRight, _at: u64)
        ensures rose { (right_file _right.now).bytes ≡ None → Rose (port_faults self.old) (port_faults self.new) }
        ensures later { port_faults self.old ≤ port_faults self.new }
        ensures same { self.new ≡ self.old }
    {}
}

/// The files of a store in memory. It keeps the record of the files at rest, and of those that were removed.
#[derive(Drop)]
pub struct MemFiles {
    alloc: Global,
    directory: Arc<Vec<u8>>,
    row: Arc<CallRow>,
    last: Drawn,
    at_rest: LinkedList<StoredEntry>,
    gone: LinkedList<StoredEntry>,
    faults: u64,
}

impl MemFiles {
    // The files that are handed in, in a row with calls that fail, of the store in this directory.
    pub(crate) fn new(
        alloc: Global,
        directory: Arc<Vec<u8>>,
        row: Arc<CallRow>,
        at_rest: LinkedList<StoredEntry>,
    ) -> MemFiles
        ensures store { files_store result ≡ store_of (arc_value directory).items }
        ensures at_rest { files_at_rest result ≡ at_rest }
        ensures gone { files_gone result ≡ [] }
        ensures row { files_row result ≡ arc_value row }
        ensures faults { files_faults result ≡ 0 }
    {
        MemFiles {
            alloc,
            directory,
            row,
            last: Drawn {
                place: 0,
                number: 0,
            },
            at_rest,
            gone: LinkedList::new(alloc),
            faults: 0,
        }
    }

    // How often it has failed.
    pub(crate) fn faults(&self) -> u64
        ensures { result ≡ files_faults self.now }
    {
        self.faults
    }

    // Opens them as those of the store in this directory, and counts their faults from 0 again.
    pub(crate) fn open(&mut self, directory: Arc<Vec<u8>>)
        ensures store { files_store self.new ≡ store_of (arc_value directory).items }
        ensures faults { files_faults self.new ≡ 0 }
        ensures at_rest { files_at_rest self.new ≡ files_at_rest self.old }
        ensures gone { files_gone self.new ≡ files_gone self.old }
        ensures row { files_row self.new ≡ files_row self.old }
    {
        self.directory = directory;
        self.faults = 0;
    }

    // The greatest place in the row on its record.
    pub(crate) fn last(&self) -> u64
        ensures { result ≡ max (last_of (files_at_rest self.now)) (last_of (files_gone self.now)) }
    {
        last_of(&self.at_rest).max(last_of(&self.gone))
    }

    // The entries that a stop of this kind behind this many counted calls leaves.
    pub(crate) fn after_stop(
        &self,
        moment: u64,
        kind: StopKind,
    ) -> Result<LinkedList<StoredEntry>, AllocError>
        ensures { IfOk result (λ left. entry_files left
            ≡ files_left kind moment (files_at_rest self.now) ++ files_left kind moment (files_gone self.now)) }
    {
        let mut left = LinkedList::new(self.alloc);
        copy_left(self.alloc, &self.at_rest, kind, moment, &mut left)?;
        copy_left(self.alloc, &self.gone, kind, moment, &mut left)?;
        Ok(left)
    }

    // Makes a counted call, which may fail by its number.
    fn call(&mut self) -> Result<(), Failed>
        ensures drawn { IsCountedFromOne (files_last self.new) }
        ensures fails { IsErr result ↔ IsFailing (files_row self.old) (files_last self.new) }
        ensures never { never_fails (files_row self.old) → IsOk result }
        ensures cause { HasCause (files_faults self.old) (files_faults self.new) result }
        ensures no_fault { OnOk result (files_faults self.new ≡ files_faults self.old) }
        ensures at_rest { files_at_rest self.new ≡ files_at_rest self.old }
        ensures gone { files_gone self.new ≡ files_gone self.old }
        ensures row { files_row self.new ≡ files_row self.old }
        ensures same_store { files_store self.new ≡ files_store self.old }
    {
        self.last = self.row.draw_on_files();
        let answer = self.row.answer(self.last);
        if answer.is_err() {
            self.faults = self.faults.saturating_add(1);
        }
        answer
    }
}

impl Counted for MemFiles {
    ghost faults = { files_faults };
}

impl Files for MemFiles {
    type Sealed = MemSealed;

    type Right = MemRight;

    type Port = MemPort;

    ghost use Rattle.std.proofs.Common.{refl};

    ghost store = { files_store };

    ghost at_rest = { stored_files };

    ghost tells = { λ _. refl };

    fn list(&mut self) -> Result<Vec<FileNumber>, StoreFault>
        ensures numbers { IfOk result (λ list. All IsFileNumber (plain_numbers list.items)) }
        ensures rising { IfOk result (λ list. IsStrictlyIncreasing (plain_numbers list.items)) }
        ensures exact { IfOk result (λ list. IfSome (stored_files self.old) (λ files. (n : ℕ) → IsFileNumber n
            → (Contains (plain_numbers list.items) n ↔ Contains (stored_file_numbers files) n))) }
        ensures same { stored_files self.new ≡ stored_files self.old }
        ensures cause { HasStoreCause (files_faults self.old) (files_faults self.new) result }

        // It fails by its number or without memory alone, and leaves the record.
        ensures drawn { IsCountedFromOne (files_last self.new) }
        ensures fails { IsErrOf result fault.Failed ↔ IsFailing (files_row self.old) (files_last self.new) }
        ensures no_fault { never_fails (files_row self.old) → files_faults self.new ≡ files_faults self.old }
        ensures record { files_at_rest self.new ≡ files_at_rest self.old × files_gone self.new ≡ files_gone self.old }
        ensures row { files_row self.new ≡ files_row self.old }
        ensures same_store { files_store self.new ≡ files_store self.old }
    {
        self.call()?;
        let numbers = self
            .at_rest
            .iter()
            .map(|entry| entry.number)
            .collect(self.alloc)?;
        Ok(list_of_numbers(self.alloc, numbers)?)
    }

    fn fetch(&mut self, number: FileNumber) -> Result<Option<MemSealed>, StoreFault>
        ensures none { IfOk result (λ found. MatchOption found
            (IfSome (stored_files self.old) (λ files. ¬ Contains (stored_file_numbers files) number.0))
            (λ sealed. WhereTold (TakesOut (sealed_file sealed)) (stored_files self.old) (stored_files self.new))) }
        ensures number { IfOk result (λ found. IfSome found (λ sealed.
            (sealed_file sealed).number ≡ number.0 × sealed_rights sealed ≡ 0)) }
        ensures store { IfOk result (λ found. IfSome found (λ sealed.
            (sealed_file sealed).store ≡ files_store self.old)) }
        ensures same { IfOk result (λ found. found ≡ None → stored_files self.new ≡ stored_files self.old) }
        ensures err { OnErr result (stored_files self.new ≡ stored_files self.old) }
        ensures cause { HasStoreCause (files_faults self.old) (files_faults self.new) result }

        // It fails by its number or without memory alone.
        ensures drawn { IsCountedFromOne (files_last self.new) }
        ensures fails { IsErrOf result fault.Failed ↔ IsFailing (files_row self.old) (files_last self.new) }
        ensures no_fault { never_fails (files_row self.old) → files_faults self.new ≡ files_faults self.old }
        ensures gone { files_gone self.new ≡ files_gone self.old }
        ensures row { files_row self.new ≡ files_row self.old }
        ensures same_store { files_store self.new ≡ files_store self.old }
    {
        self.call()?;
        let directory = Arc::try_clone(&self.directory)?;
        match take_node(&mut self.at_rest, number.0)? {
            Some(node) => Ok(Some(MemSealed::of_node(directory, node))),
            None => Ok(None),
        }
    }

    fn port(&mut self) -> Result<MemPort, Memory>
        ensures no_faults { IfOk result (λ port. port_faults port ≡ 0) }
        ensures store { IfOk result (λ port. port_store port ≡ files_store self.old) }
        ensures same { stored_files self.new ≡ stored_files self.old }
        ensures faults { files_faults self.new ≡ files_faults self.old }

        // It has the same row, and nothing on its record.
        ensures row { IfOk result (λ port. port_row port ≡ files_row self.old) }
        ensures gone { IfOk result (λ port. port_gone port ≡ []) }
        ensures all { self.new ≡ self.old }
    {
        Ok(MemPort {
            alloc: self.alloc,
            directory: Arc::try_clone(&self.directory)?,
            row: Arc::try_clone(&self.row)?,
            last: Drawn {
                place: 0,
                number: 0,
            },
            gone: LinkedList::new(self.alloc),
            bytes_read: 0,
            faults: 0,
        })
    }

    fn end_port(&mut self, port: MemPort)
        requires { port_store port ≡ files_store self.old }
        ensures same { stored_files self.new ≡ stored_files self.old }
        ensures later { files_faults self.old ≤ files_faults self.new }
        ensures faults { min (files_faults self.old + port_faults port) (2 ^ 64 - 1) ≤ files_faults self.new }

        // It has the port's record behind its own, as long as both have fewer than 2^63 entries, and no further fault.
        ensures gone { length (files_gone self.old) + length (port_gone port) < 2 ^ 63
            → files_gone self.new ≡ files_gone self.old ++ port_gone port }
        ensures no_more { files_faults self.new ≡ min (files_faults self.old + port_faults port) (2 ^ 64 - 1) }
        ensures at_rest { files_at_rest self.new ≡ files_at_rest self.old }
        ensures row { files_row self.new ≡ files_row self.old }
        ensures same_store { files_store self.new ≡ files_store self.old }
    {
        let mut port = port;
        self.faults = self.faults.saturating_add(port.faults);
        let _ = self.gone.append(&mut port.gone);
    }

    fn keep(&mut self, sealed: MemSealed)
        requires rights { sealed_rights sealed ≡ 0 }
        requires store { (sealed_file sealed).store ≡ files_store self.old }
        ensures stays { WhereTold (PutsBack (sealed_file sealed)) (stored_files self.old) (stored_files self.new) }
        ensures faults { files_faults self.new ≡ files_faults self.old }

        // It has the node of the file behind its own, as long as these are fewer than 2^63.
        ensures at_rest { length (files_at_rest self.old) + length (sealed_node sealed) < 2 ^ 63
            → files_at_rest self.new ≡ files_at_rest self.old ++ sealed_node sealed }
        ensures gone { files_gone self.new ≡ files_gone self.old }
        ensures row { files_row self.new ≡ files_row self.old }
        ensures same_store { files_store self.new ≡ files_store self.old }
    {
        let mut node = sealed.into_node();
        let _ = self.at_rest.append(&mut node);
    }
}
