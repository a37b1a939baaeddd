//! The files of a store, and the ports through which they are written and read. Files keep these rules, whoever
//! implements them:
//!
//! - A stored file has a number from 1 to 2^63 - 1, and bytes that never change.
//! - A file is durable from the `put` that returned `Ok` until its `Sealed` is handed to `remove`, whatever that
//!   returns. So an image of a place has at least the files whose `Sealed` are kept.
//! - A `put` that fails may leave a file that no token names. Nobody puts a number that is in the store.
//! - A file is at rest while it is stored and its `Sealed` is not out. `fetch` hands its `Sealed` out, and is not asked
//!   for a file whose `Sealed` is out already; `keep` takes a `Sealed` back.
//! - A `Sealed` names one file and counts the rights that are out. A `Right` lets its holder read the file. Both are
//!   spent: a `Sealed` by `remove` or `keep`, a `Right` by `give_back`.
//! - Files, ports and tokens know their store, by the directory that it was taken up from. What is handed out is of the
//!   store that handed it out, and goes back to this store. Files that tell what is at rest have tokens that tell their
//!   bytes, and go on to tell.
//! - A port belongs to one session or worker, and counts its own faults from 0. Whoever made it hands it back to the
//!   files that it came from, before they are put down. They take its count over then.
//! - Calls that return `Memory` alone take memory, and no others.
//! - All parts may move to another thread.
//!
//! Depends on `faults`, and on `tsdb_base` for `FileNumber`.
ghost use Rattle.std.specs.Prelude.{◌≡◌, ◌↔◌, ℕ, List, ◌+◌, ◌-◌, ◌^◌, ◌<◌, ◌≤◌, min, length, take, drop, filter, All};
ghost use Rattle.std.specs.Prelude.{Contains, None, IfOk, IfSome, IsTrue, MatchOption, OnErr, OnOk, is_some};
ghost use Rattle.std.specs.declared.option.Option.{Option};
ghost use Rattle.std.specs.Option.{ForSome};
ghost use Rattle.std.specs.List.Sorted.{IsStrictlyIncreasing};
ghost use Rattle.tsdb_base.specs.Causes.{Rose};
ghost use Rattle.tsdb_outside.specs.Causes.{HasCause, HasStoreCause};
ghost use Rattle.tsdb_outside.specs.Disk.{WhereTold};
ghost use Rattle.tsdb_outside.specs.Files.{Store, NamedFile, StoredFile, IsFileNumber, is_number, Names};
ghost use Rattle.tsdb_outside.specs.Files.{stored_file_numbers};
ghost use Rattle.tsdb_outside.specs.Files.{plain_numbers, TakesOut, PutsBack, Tells};
ghost use Rattle.tsdb_outside.specs.Limits.{FitsSlot};

use crate::{Counted, Failed, StoreFault};
use std::alloc::{AllocError, Global};
use tsdb_base::{FileNumber, Memory};

/// A token that names one stored file.
pub trait SealedFile: Send {
    /// The file's store, number and bytes.
    ghost file: { Self → NamedFile };

    /// How many rights to read it are out.
    ghost rights: { Self → ℕ };

    /// It tells its bytes where its store tells what its files hold.
    ghost tells: { (sealed : Self) → Tells (file sealed) };
}

/// A token that lets its holder read one stored file.
pub trait ReadRight: Send {
    /// The file's store, number and bytes.
    ghost file: { Self → NamedFile };

    /// It tells its bytes where its store tells what its files hold.
    ghost tells: { (right : Self) → Tells (file right) };
}

/// Where one session or worker writes and reads files.
pub trait Port: Counted + Send {
    type Sealed: SealedFile;

    type Right: ReadRight;

    /// The store that it belongs to.
    ghost store: { Self → Store };

    /// Stores a file under a number that is not in the store. After `Ok` it is durable, and no right is out; after an
    /// error it may be there.
    fn put(&mut self, number: FileNumber, bytes: &[u8]) -> Result<Self::Sealed, StoreFault>
        ensures file { IfOk result (λ sealed. Names number.0 bytes.now (Self.Sealed.file sealed)) }
        ensures store { IfOk result (λ sealed. (Self.Sealed.file sealed).store ≡ store self.old) }
        ensures no_rights { IfOk result (λ sealed. Self.Sealed.rights sealed ≡ 0) }
        ensures same_store { store self.new ≡ store self.old }
        ensures cause { HasStoreCause (Self.faults self.old) (Self.faults self.new) result };

    /// Fills `into` with the bytes of the file, which is one of its store, from `at` on. After `Failed` it may hold any
    /// bytes.
    fn read(&mut self, right: &Self::Right, at: u64, into: &mut [u8]) -> Result<(), Failed>
        requires range { ForSome (Self.Right.file right.now).bytes (λ bytes. at + length into.old ≤ length bytes) }
        requires store { (Self.Right.file right.now).store ≡ store self.old }
        ensures bytes { OnOk result (IfSome (Self.Right.file right.now).bytes
            (λ bytes. into.new ≡ take (length into.new) (drop at bytes))) }
        ensures same_store { store self.new ≡ store self.old }
        ensures cause { HasCause (Self.faults self.old) (Self.faults self.new) result };

    /// How many bytes the file has.
    fn size(&mut self, right: &Self::Right) -> Result<u64, Failed>
        ensures length { IfOk result (λ n. ForSome (Self.Right.file right.now).bytes (λ bytes. n ≡ length bytes)) }
        ensures limit { IfOk result FitsSlot }
        ensures same_store { store self.new ≡ store self.old }
        ensures cause { HasCause (Self.faults self.old) (Self.faults self.new) result };

    /// Removes a file of its store of which no right is out. Where it returns `Ok` its count of faults is as before.
    fn remove(&mut self, sealed: Self::Sealed) -> Result<(), Failed>
        requires rights { Self.Sealed.rights sealed ≡ 0 }
        requires store { (Self.Sealed.file sealed).store ≡ store self.old }
        ensures same_store { store self.new ≡ store self.old }
        ensures no_fault { OnOk result (Self.faults self.new ≡ Self.faults self.old) }
        ensures cause { HasCause (Self.faults self.old) (Self.faults self.new) result };

    /// Gives a right to read the file out. Without memory all is as before.
    fn share(sealed: &mut Self::Sealed) -> Result<Self::Right, Memory>
        ensures right { IfOk result (λ right. Self.Right.file right ≡ Self.Sealed.file sealed.old) }
        ensures file { Self.Sealed.file sealed.new ≡ Self.Sealed.file sealed.old }
        ensures ok { OnOk result (Self.Sealed.rights sealed.new ≡ Self.Sealed.rights sealed.old + 1) }
        ensures memory { OnErr result (Self.Sealed.rights sealed.new ≡ Self.Sealed.rights sealed.old) };

    /// Takes a right of this file back.
    fn give_back(sealed: &mut Self::Sealed, right: Self::Right)
        requires { Self.Right.file right ≡ Self.Sealed.file sealed.old }
        ensures file { Self.Sealed.file sealed.new ≡ Self.Sealed.file sealed.old }
        ensures rights { Self.Sealed.rights sealed.new ≡ Self.Sealed.rights sealed.old - 1 };

    /// Counts a fault: what the file has at this place is not what was written. Only for a file that does not tell its
    /// bytes; of another one nothing is promised but that the count does not fall.
    fn spoiled(&mut self, right: &Self::Right, at: u64)
        ensures rose { (Self.Right.file right.now).bytes ≡ None → Rose (Self.faults self.old) (Self.faults self.new) }
        ensures same_store { store self.new ≡ store self.old }
        ensures later { Self.faults self.old ≤ Self.faults self.new };
}

/// The files of a store.
pub trait Files: Counted + Send {
    type Sealed: SealedFile;

    type Right: ReadRight;

    type Port: Port<Sealed = Self::Sealed, Right = Self::Right>;

    /// Which store it is.
    ghost store: { Self → Store };

    /// The files at rest, or none where it does not tell.
    ghost at_rest: { Self → Option (List StoredFile) };

    /// It tells the files at rest where its store tells what its files hold.
    ghost tells: { (files : Self) → (store files).tells ≡ is_some (at_rest files) };

    /// The numbers of the files, each once and in rising order. Where the files at rest are told it has these.
    fn list(&mut self) -> Result<Vec<FileNumber>, StoreFault>
        ensures numbers { IfOk result (λ list. All IsFileNumber (plain_numbers list.items)) }
        ensures rising { IfOk result (λ list. IsStrictlyIncreasing (plain_numbers list.items)) }
        ensures exact { IfOk result (λ list. IfSome (Self.at_rest self.old) (λ files. (n : ℕ) → IsFileNumber n
            → (Contains (plain_numbers list.items) n ↔ Contains (stored_file_numbers files) n))) }
        ensures same { Self.at_rest self.new ≡ Self.at_rest self.old }
        ensures same_store { store self.new ≡ store self.old }
        ensures cause { HasStoreCause (Self.faults self.old) (Self.faults self.new) result };

    /// Hands out the `Sealed` of the file with this number, of which none is out, or `None` exactly where the file is
    /// not there.
    fn fetch(&mut self, number: FileNumber) -> Result<Option<Self::Sealed>, StoreFault>
        ensures none { IfOk result (λ found. MatchOption found
            (IfSome (Self.at_rest self.old) (λ files. ¬ Contains (stored_file_numbers files) number.0))
            (λ sealed. WhereTold (TakesOut (Self.Sealed.file sealed)) (Self.at_rest self.old) (Self.at_rest self.new))) }
        ensures number { IfOk result (λ found. IfSome found (λ sealed.
            (Self.Sealed.file sealed).number ≡ number.0 × Self.Sealed.rights sealed ≡ 0)) }
        ensures store { IfOk result (λ found. IfSome found (λ sealed.
            (Self.Sealed.file sealed).store ≡ store self.old)) }
        ensures same { IfOk result (λ found. found ≡ None → Self.at_rest self.new ≡ Self.at_rest self.old) }
        ensures err { OnErr result (Self.at_rest self.new ≡ Self.at_rest self.old) }
        ensures same_store { store self.new ≡ store self.old }
        ensures cause { HasStoreCause (Self.faults self.old) (Self.faults self.new) result };

    /// Makes a port, with no fault so far.
    fn port(&mut self) -> Result<Self::Port, Memory>
        ensures no_faults { IfOk result (λ port. Self.Port.faults port ≡ 0) }
        ensures store { IfOk result (λ port. Self.Port.store port ≡ store self.old) }
        ensures same { Self.at_rest self.new ≡ Self.at_rest self.old }
        ensures same_store { store self.new ≡ store self.old }
        ensures faults { Self.faults self.new ≡ Self.faults self.old };

    /// Takes a port of these files back. Their count rises by at least the port's.
    fn end_port(&mut self, port: Self::Port)
        requires { Self.Port.store port ≡ store self.old }
        ensures same { Self.at_rest self.new ≡ Self.at_rest self.old }
        ensures same_store { store self.new ≡ store self.old }
        ensures later { Self.faults self.old ≤ Self.faults self.new }
        ensures faults { min (Self.faults self.old + Self.Port.faults port) (2 ^ 64 - 1) ≤ Self.faults self.new };

    /// Takes a `Sealed` of its store back of which no right is out. Its file stays, and is at rest.
    fn keep(&mut self, sealed: Self::Sealed)
        requires rights { Self.Sealed.rights sealed ≡ 0 }
        requires store { (Self.Sealed.file sealed).store ≡ store self.old }
        ensures stays { WhereTold (PutsBack (Self.Sealed.file sealed)) (Self.at_rest self.old) (Self.at_rest self.new) }
        ensures same_store { store self.new ≡ store self.old }
        ensures faults { Self.faults self.new ≡ Self.faults self.old };
}

/// Whether a file may have this number.
pub fn is_file_number(number: u64) -> bool
    ensures says { IsTrue result ↔ IsFileNumber number }
    ensures is { result ≡ is_number number }
{
    number >= 1 && number <= 0x7fff_ffff_ffff_ffff
}

// Keeps the numbers that a file may have.
fn keep_file_numbers(numbers: &mut Vec<u64>)
    ensures kept { numbers.new.items ≡ filter is_number numbers.old.items }
{
    numbers.retain(|number| is_file_number(*number));
}

// Sorts the numbers, and keeps each once.
fn sort_once(numbers: &mut Vec<u64>)
    ensures rising { IsStrictlyIncreasing numbers.new.items }
    ensures keeps { (n : ℕ) → Contains numbers.old.items n → Contains numbers.new.items n }
    ensures adds_none { (n : ℕ) → Contains numbers.new.items n → Contains numbers.old.items n }
{
    numbers.sort_unstable();
    numbers.dedup();
}

// The same numbers as numbers of files.
fn into_file_numbers(alloc: Global, numbers: Vec<u64>) -> Result<Vec<FileNumber>, AllocError>
    ensures { IfOk result (λ list. plain_numbers list.items ≡ numbers.items) }
{
    let mut list = Vec::with_capacity(alloc, numbers.len())?;
    for number in &numbers {
        list.push(FileNumber(*number))?;
    }
    Ok(list)
}

/// The list of these numbers as `Files::list` returns it: those that a file may have, each once and in rising order.
pub fn list_of_numbers(alloc: Global, mut numbers: Vec<u64>) -> Result<Vec<FileNumber>, AllocError>
    ensures numbers { IfOk result (λ list. All IsFileNumber (plain_numbers list.items)) }
    ensures rising { IfOk result (λ list. IsStrictlyIncreasing (plain_numbers list.items)) }
    ensures exact { IfOk result (λ list. (n : ℕ) → IsFileNumber n
        → (Contains (plain_numbers list.items) n ↔ Contains numbers.items n)) }
{
    sort_once(&mut numbers);
    keep_file_numbers(&mut numbers);
    into_file_numbers(alloc, numbers)
}
