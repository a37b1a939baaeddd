//! Many stored files of a real store at once. Their tokens hold no descriptor.
ghost use Rattle.std.specs.Prelude.{◌≡◌, All};

use crate::copying::read_shared;
use crate::directories::store_has;
use crate::looks::Look;
use std::alloc::AllocFailed;
use std::fs;
use tsdb_base::FileNumber;
use tsdb_outside::{Files, Port};

// Twice as many as a program may usually have open.
const FILES: u64 = 2_000;

// Puts files with the numbers from 1 on, and gives their tokens out. Whether all were put.
fn put_all<P: Port>(port: &mut P, tokens: &mut Vec<P::Sealed>) -> bool
    requires { All (λ sealed. P.Sealed.rights sealed ≡ 0
        × (P.Sealed.file sealed).store ≡ P.store port.old) tokens.old.items }
    ensures tokens { All (λ sealed. P.Sealed.rights sealed ≡ 0
        × (P.Sealed.file sealed).store ≡ P.store port.old) tokens.new.items }
    ensures port { P.store port.new ≡ P.store port.old }
{
    let mut all = true;
    for number in 1..=FILES {
        match port.put(FileNumber(number), b"abc") {
            Ok(sealed) => {
                if let Err(full) = tokens.push(sealed) {
                    let AllocFailed { value } = full;
                    let _ = port.remove(value);
                    all = false;
                }
            }
            Err(_) => all = false,
        }
    }
    all
}

// Reads the file of each token, and gives the token back. Whether each has its three bytes.
fn read_all<F: Files>(files: &mut F, port: &mut F::Port, tokens: Vec<F::Sealed>) -> bool
    requires store { F.Port.store port.old ≡ F.store files.old }
    requires tokens { All (λ sealed. F.Sealed.rights sealed ≡ 0
        × (F.Sealed.file sealed).store ≡ F.store files.old) tokens.items }
    ensures files { F.store files.new ≡ F.store files.old }
    ensures port { F.Port.store port.new ≡ F.Port.store port.old }
{
    let mut tokens = tokens;
    let mut holds = true;
    while let Some(mut sealed) = tokens.pop() {
        holds = holds && read_shared(port, &mut sealed, 0) == Ok((*b"abc\0", 3));
        files.keep(sealed);
    }
    tokens.destroy_empty();
    holds
}

// How many files this program has open.
fn count_descriptors(rt: &HostRuntime) -> Option<usize> {
    match fs::read_dir(rt, "/proc/self/fd") {
        Ok(entries) => Some(entries.count()),
        Err(_) => None,
    }
}

/// Puts many files and reads them. Whether one descriptor more was open while all tokens were out, the port's own one
/// of the directory, and whether each file has its bytes.
pub fn serves_many<F: Files>(rt: &HostRuntime, files: &mut F) -> bool {
    match files.port() {
        Ok(mut port) => {
            let before = count_descriptors(rt);
            let mut tokens = Vec::new(rt.alloc());
            let put = put_all(&mut port, &mut tokens);
            let after = count_descriptors(rt);
            let read = read_all(files, &mut port, tokens);
            files.end_port(port);
            match (before, after) {
                (Some(before), Some(after)) => put && read && after == before.saturating_add(1),
                _ => false,
            }
        }
        Err(_) => false,
    }
}

#[test]
fn tokens_hold_no_descriptor(rt: HostRuntime) {
    assert!(rt; matches!(store_has(&rt, b"many", &[Look::ManyFiles(&rt)]), Ok(true)));
}
