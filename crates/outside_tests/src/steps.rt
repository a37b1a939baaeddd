//! Calls on the slots and on the files of a store with what each is to answer, as tables. Depends on `copying`.
ghost use Rattle.std.specs.Prelude.{◌≡◌};

use crate::copying::{FileBytes, fetch_and_read, read_shared};
use tsdb_base::FileNumber;
use tsdb_outside::{Failed, Files, Journal, Port, Slot, StoreFault};

/// The first four bytes of a slot, or as many as it has, and how many bytes it has.
pub type SlotBytes = ([u8; 4], u64);

/// A call on a slot, and its answer.
#[derive(Clone, Copy)]
pub enum SlotStep {
    Write(Slot, u64, &'static [u8], Result<(), Failed>),
    Sync(Slot, Result<(), Failed>),
    Read(Slot, SlotBytes),
}

/// A call on files, and its answer.
#[derive(Clone, Copy)]
pub enum FileStep {
    List(&'static [FileNumber]),
    Put(u64, &'static [u8], Result<(), StoreFault>),
    /// From a place on.
    Read(u64, u64, Result<Option<FileBytes>, StoreFault>),
    /// Whether the file was there.
    Remove(u64, Result<bool, StoreFault>),
}

/// Writes into a slot, at a place up to its end.
pub fn write<J: Journal>(journal: &mut J, slot: Slot, at: u64, bytes: &[u8]) -> Result<(), Failed> {
    match journal.length(slot) {
        Ok(length) if at <= length => journal.write_at(slot, at, bytes),
        _ => Err(Failed),
    }
}

/// What a slot has.
pub fn read_slot<J: Journal>(journal: &mut J, slot: Slot) -> Result<SlotBytes, Failed> {
    let mut bytes = [0; 4];
    let length = journal.length(slot)?;
    let count = length.min(4) as usize;
    journal.read_at(slot, 0, &mut bytes[..count])?;
    Ok((bytes, length))
}

fn slot_answers<J: Journal>(journal: &mut J, step: &SlotStep) -> bool {
    match *step {
        SlotStep::Write(slot, at, bytes, answer) => write(journal, slot, at, bytes) == answer,
        SlotStep::Sync(slot, answer) => journal.sync(slot) == answer,
        SlotStep::Read(slot, bytes) => read_slot(journal, slot) == Ok(bytes),
    }
}

/// Whether all steps are answered so, one behind another.
pub fn slots_answer<J: Journal>(journal: &mut J, steps: &[SlotStep]) -> bool {
    let mut answers = true;
    for step in steps {
        answers = answers && slot_answers(journal, step);
    }
    answers
}

/// Puts a file through a port of its own, and keeps it.
pub fn put_and_keep<F: Files>(files: &mut F, number: u64, bytes: &[u8]) -> Result<(), StoreFault> {
    let mut port = files.port()?;
    let sealed = port.put(FileNumber(number), bytes);
    files.end_port(port);
    files.keep(sealed?);
    Ok(())
}

/// Whether this is what there is of a file.
pub fn has_file<F: Files>(files: &mut F, number: u64, wanted: Option<FileBytes>) -> bool {
    match fetch_and_read(files, number, 0) {
        Ok(found) => found == wanted,
        Err(_) => false,
    }
}

/// Removes a file through a port of its own, and says whether it was there.
pub fn fetch_and_remove<F: Files>(files: &mut F, number: u64) -> Result<bool, StoreFault> {
    let mut port = files.port()?;
    let removed = match files.fetch(FileNumber(number)) {
        Ok(Some(sealed)) => match port.remove(sealed) {
            Ok(()) => Ok(true),
            Err(Failed) => Err(StoreFault::Failed),
        },
        Ok(None) => Ok(false),
        Err(fault) => Err(fault),
    };
    files.end_port(port);
    removed
}

// Whether the files have these numbers, in rising order.
fn has_numbers<F: Files>(files: &mut F, numbers: &[FileNumber]) -> bool {
    match files.list() {
        Ok(list) => list.as_slice() == numbers,
        Err(_) => false,
    }
}

fn file_answers<F: Files>(files: &mut F, step: &FileStep) -> bool {
    match *step {
        FileStep::List(numbers) => has_numbers(files, numbers),
        FileStep::Put(number, bytes, answer) => put_and_keep(files, number, bytes) == answer,
        FileStep::Read(number, at, answer) => fetch_and_read(files, number, at) == answer,
        FileStep::Remove(number, answer) => fetch_and_remove(files, number) == answer,
    }
}

/// Whether all steps are answered so, one behind another.
pub fn files_answer<F: Files>(files: &mut F, steps: &[FileStep]) -> bool {
    let mut answers = true;
    for step in steps {
        answers = answers && file_answers(files, step);
    }
    answers
}

// Calls a file spoiled, through a right that it takes back.
fn spoil<P: Port>(port: &mut P, sealed: &mut P::Sealed)
    requires { P.Sealed.rights sealed.old ≡ 0 }
    ensures rights { P.Sealed.rights sealed.new ≡ 0 }
    ensures file { P.Sealed.file sealed.new ≡ P.Sealed.file sealed.old }
    ensures port { P.store port.new ≡ P.store port.old }
{
    if let Ok(right) = P::share(sealed) {
        port.spoiled(&right, 0);
        P::give_back(sealed, right);
    }
}

/// Puts a file of five bytes, reads it from a place on, calls it spoiled, and removes it, all through one port.
pub fn put_read_remove<P: Port>(port: &mut P, number: u64, at: u64) -> Result<FileBytes, StoreFault>
    ensures { P.store port.new ≡ P.store port.old }
{
    let mut sealed = port.put(FileNumber(number), b"abcde")?;
    let read = read_shared(port, &mut sealed, at);
    spoil(port, &mut sealed);
    port.remove(sealed)?;
    read
}

/// Whether the rights of a file show its bytes.
pub fn rights_read<F: Files>(files: &mut F) -> bool {
    match files.port() {
        Ok(mut port) => {
            let first = put_read_remove(&mut port, 1, 0);
            let second = put_read_remove(&mut port, 1, 1);
            files.end_port(port);
            first == Ok((*b"abcd", 5)) && second == Ok((*b"bcde", 5))
        }
        Err(_) => false,
    }
}
