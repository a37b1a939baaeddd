//! The names of the files of a store: the number in decimal without leading zeros, and `.tsfile`. Also the path of a
//! name in a directory. Depends on `tsdb_outside`.
ghost use Rattle.std.specs.Prelude.{◌≡◌, ◌≢◌, ◌++◌, ◌<◌, ◌^◌, ℕ, List, None, Some, IfOk, IfSome, MatchOption, codes};
ghost use Rattle.std.specs.Fmt.{decimal};
ghost use Rattle.std.specs.String.{string_bytes};
ghost use Rattle.tsdb_outside.specs.Files.{IsFileNumber};
ghost use Rattle.fs_outside.specs.FileName.{file_name};

use std::alloc::{AllocError, Global};
use tsdb_outside::is_file_number;

const SUFFIX: &str = ".tsfile";

/// The name of the file with this number.
pub fn name_of_number(alloc: Global, number: u64) -> Result<String, AllocError>
    ensures { IfOk result (λ name. string_bytes name ≡ file_name number) }
{
    format!(in alloc; "{number}.tsfile")
}

/// The path of a name in a directory, in one allocation.
pub fn path_in(alloc: Global, dir: &str, name: &str) -> Result<String, AllocError> {
    let length = dir.len().saturating_add(name.len());
    let mut path = String::with_capacity(alloc, length.saturating_add(1))?;
    path.push_str(dir)?;
    path.push('/')?;
    path.push_str(name)?;
    Ok(path)
}

// What stands before the suffix, if the name ends in it.
fn before_suffix(name: &str) -> Option<&str>
    ensures { MatchOption result ((front : List ℕ) → name.now ≢ front ++ codes ".tsfile")
        (λ digits. name.now ≡ digits.now ++ codes ".tsfile") }
{
    name.strip_suffix(SUFFIX)
}

// The number that these digits write, if it is one of 64 bits.
fn number_in(digits: &str) -> Option<u64>
    ensures { (n : ℕ) → n < 2 ^ 64 → digits.now ≡ decimal n → result ≡ Some n }
{
    digits.parse::<u64>().ok()
}

/// The number of the file with this name, or `None` exactly where no file of a store has it.
pub fn number_of_name(alloc: Global, name: &str) -> Result<Option<u64>, AllocError>
    ensures number { IfOk result (λ number. IfSome number IsFileNumber) }
    ensures name { IfOk result (λ number. IfSome number (λ n. name.now ≡ file_name n)) }
    ensures none { IfOk result (λ number. number ≡ None → (n : ℕ) → IsFileNumber n → name.now ≢ file_name n) }
{
    let Some(digits) = before_suffix(name) else {
        return Ok(None);
    };
    let Some(number) = number_in(digits) else {
        return Ok(None);
    };
    if is_file_number(number) && name_of_number(alloc, number)?.as_str() == name {
        return Ok(Some(number));
    }
    Ok(None)
}
