//! The speed of many small files in a store. `bench/bare_files.rs` makes the bare calls of the system that a store makes
//! for them. It depends on `bench`.
ghost use Rattle.std.specs.Prelude.{◌≡◌, All};

use crate::bench::{Bench, Unit};
use std::alloc::AllocFailed;
use tsdb_base::FileNumber;
use tsdb_outside::{Files, Port, StoreFault};

/// How many files there are. All of their tokens are out at once when they are read or removed.
pub const FILES: u64 = 20_000;

/// How many bytes each has.
const BYTES: usize = 1_000;

/// How the table calls a row.
const IN_STORE: &str = "1 kB files, in a store";

/// Puts files of these bytes with the numbers from 1 on.
fn put_all<F: Files>(
    files: &mut F,
    port: &mut F::Port,
    count: u64,
    bytes: &[u8],
) -> Result<(), StoreFault>
    requires { F.Port.store port.old ≡ F.store files.old }
    ensures files { F.store files.new ≡ F.store files.old }
    ensures port { F.Port.store port.new ≡ F.Port.store port.old }
{
    for number in 1..=count {
        let sealed = port.put(FileNumber(number), bytes)?;
        files.keep(sealed);
    }
    Ok(())
}

/// Fetches the files with the numbers from 1 on, and gives their tokens out. A file that is not there is a fault.
fn fetch_all<F: Files>(
    files: &mut F,
    count: u64,
    tokens: &mut Vec<F::Sealed>,
) -> Result<(), StoreFault>
    requires { All (λ sealed. F.Sealed.rights sealed ≡ 0
        × (F.Sealed.file sealed).store ≡ F.store files.old) tokens.old.items }
    ensures tokens { All (λ sealed. F.Sealed.rights sealed ≡ 0
        × (F.Sealed.file sealed).store ≡ F.store files.old) tokens.new.items }
    ensures files { F.store files.new ≡ F.store files.old }
{
    for number in 1..=count {
        let Some(sealed) = files.fetch(FileNumber(number))? else {
            return Err(StoreFault::Failed);
        };
        if let Err(full) = tokens.push(sealed) {
            let AllocFailed { value } = full;
            files.keep(value);
            return Err(StoreFault::Memory);
        }
    }
    Ok(())
}

/// Reads the whole file of a token.
fn read_one<P: Port>(bench: &mut Bench, port: &mut P, sealed: &mut P::Sealed)
    requires rights { P.Sealed.rights sealed.old ≡ 0 }
    requires store { (P.Sealed.file sealed.old).store ≡ P.store port.old }
    ensures rights { P.Sealed.rights sealed.new ≡ 0 }
    ensures file { P.Sealed.file sealed.new ≡ P.Sealed.file sealed.old }
    ensures port { P.store port.new ≡ P.store port.old }
{
    let right = match P::share(sealed) {
        Ok(right) => right,
        Err(fault) => {
            bench.fail(fault);
            return;
        }
    };
    let mut bytes = [0; BYTES];
    let went_well = match port.size(&right) {
        Ok(size) if size == BYTES as u64 => port.read(&right, 0, &mut bytes).is_ok(),
        _ => false,
    };
    bench.require(went_well);
    P::give_back(sealed, right);
}

/// Reads the file of each token and keeps it, or removes it.
fn end_all<F: Files>(
    bench: &mut Bench,
    files: &mut F,
    port: &mut F::Port,
    tokens: Vec<F::Sealed>,
    is_removal: bool,
)
    requires store { F.Port.store port.old ≡ F.store files.old }
    requires tokens { All (λ sealed. F.Sealed.rights sealed ≡ 0
        × (F.Sealed.file sealed).store ≡ F.store files.old) tokens.items }
    ensures files { F.store files.new ≡ F.store files.old }
    ensures port { F.Port.store port.new ≡ F.Port.store port.old }
{
    let mut tokens = tokens;
    while let Some(mut sealed) = tokens.pop() {
        if is_removal {
            bench.note(port.remove(sealed));
        } else {
            read_one(bench, port, &mut sealed);
            files.keep(sealed);
        }
    }
    tokens.destroy_empty();
}

/// The row of `put`, and of `list`.
fn put_and_list<F: Files>(bench: &mut Bench, files: &mut F, port: &mut F::Port, count: u64)
    requires { F.Port.store port.old ≡ F.store files.old }
    ensures files { F.store files.new ≡ F.store files.old }
    ensures port { F.Port.store port.new ≡ F.Port.store port.old }
{
    bench.start();
    bench.note(put_all(files, port, count, &[7; BYTES]));
    bench.row(IN_STORE, "put", count, Unit::Rate);
    bench.start();
    let numbers = bench.list(files.list());
    bench.row(IN_STORE, "list", count, Unit::Rate);
    bench.require(numbers.len() as u64 == count);
}

/// Fetches all files, and then reads or removes them. It prints the row of each step, but of a second `fetch`.
fn fetch_and_end<F: Files>(
    bench: &mut Bench,
    files: &mut F,
    port: &mut F::Port,
    count: u64,
    is_removal: bool,
)
    requires { F.Port.store port.old ≡ F.store files.old }
    ensures files { F.store files.new ≡ F.store files.old }
    ensures port { F.Port.store port.new ≡ F.Port.store port.old }
{
    bench.start();
    let mut tokens = Vec::new(bench.alloc());
    bench.note(fetch_all(files, count, &mut tokens));
    if !is_removal {
        bench.row(IN_STORE, "fetch", count, Unit::Rate);
    }
    bench.start();
    end_all(bench, files, port, tokens, is_removal);
    let step = if is_removal { "remove" } else { "read" };
    bench.row(IN_STORE, step, count, Unit::Rate);
}

/// The rows of so many files, which are removed again.
pub fn rows<F: Files>(bench: &mut Bench, files: &mut F, port: &mut F::Port, count: u64)
    requires { F.Port.store port.old ≡ F.store files.old }
    ensures files { F.store files.new ≡ F.store files.old }
    ensures port { F.Port.store port.new ≡ F.Port.store port.old }
{
    put_and_list(bench, files, port, count);
    fetch_and_end(bench, files, port, count, false);
    fetch_and_end(bench, files, port, count, true);
}
