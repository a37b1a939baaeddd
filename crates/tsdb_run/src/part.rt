//! One part of the command line: a directory, an option with its number, or a lone `--`. Depends on `word` and
//! `number`.
ghost use Rattle.std.specs.Prelude.{◌≡◌, ◌↔◌, ℕ, List, IfSome, IfNone, IsTrue, codes};
ghost use Rattle.tsdb_run.specs.WordSteps.{argument_of};
ghost use Rattle.tsdb_run.specs.Words as model;
ghost use Rattle.tsdb_run.specs.Words.{HasDigits, IsDirectory, IsOption, IsArgument};

use crate::number::read_number;
use crate::word::Word;
use tsdb_base::limits::{MAX_PAIR_POINTS, MAX_WORKERS};

/// A part of the command line.
#[derive(Drop)]
pub enum WordPart<'a> {
    Directory(&'a [u8]),
    Pair(u64),
    Workers(u64),
    End,
}

/// The part that the words begin with, and the words behind it.
pub fn next_part<'a>(words: &'a [Word]) -> Option<(WordPart<'a>, &'a [Word])>
    ensures found { IfSome result (λ found. IsArgument (argument_of found.0) words.now found.1.now) }
    ensures none { IfNone result ((part : model.Argument) (rest : List (List ℕ)) → ¬ IsArgument part words.now rest) }
{
    let (word, behind) = words.split_first()?;
    if is_directory(word.bytes()) {
        return Some((WordPart::Directory(word.bytes()), behind));
    }
    if is_end(word.bytes()) {
        return Some((WordPart::End, behind));
    }
    match pair(words) {
        Some(found) => Some(found),
        None => workers(words),
    }
}

/// Whether a word can name a directory: it is not empty and no option.
fn is_directory(word: &[u8]) -> bool
    ensures { IsTrue result ↔ IsDirectory word.now }
{
    match word {
        [] => false,
        [first, ..] => *first != b'-',
    }
}

/// Whether a word is `--`.
fn is_end(word: &[u8]) -> bool
    ensures { IsTrue result ↔ (word.now ≡ codes "--") }
{
    matches!(word, [b'-', b'-'])
}

/// The option `--pair` that the words begin with, and the words behind it.
fn pair<'a>(words: &'a [Word]) -> Option<(WordPart<'a>, &'a [Word])>
    ensures found { IfSome result (λ found. IsArgument (argument_of found.0) words.now found.1.now) }
    ensures none { IfNone result ((number : ℕ) (rest : List (List ℕ)) → ¬ IsArgument (model.Pair number) words.now rest) }
{
    let (number, rest) = option(b"--pair", words)?;
    if number < 1 || number > MAX_PAIR_POINTS {
        return None;
    }
    Some((WordPart::Pair(number), rest))
}

/// The option `--workers` that the words begin with, and the words behind it.
fn workers<'a>(words: &'a [Word]) -> Option<(WordPart<'a>, &'a [Word])>
    ensures found { IfSome result (λ found. IsArgument (argument_of found.0) words.now found.1.now) }
    ensures none { IfNone result ((number : ℕ) (rest : List (List ℕ))
        → ¬ IsArgument (model.Workers number) words.now rest) }
{
    let (number, rest) = option(b"--workers", words)?;
    if number > MAX_WORKERS {
        return None;
    }
    Some((WordPart::Workers(number), rest))
}

/// The number of the option of this name that the words begin with, and the words behind it.
fn option<'a>(name: &[u8], words: &'a [Word]) -> Option<(u64, &'a [Word])>
    ensures found { IfSome result (λ found. IsOption name.now found.0 words.now found.1.now) }
    ensures none { IfNone result ((number : ℕ) (rest : List (List ℕ)) → ¬ IsOption name.now number words.now rest) }
{
    let (digits, rest) = digits_of(name, words)?;
    let number = read_number(digits)?;
    Some((number, rest))
}

/// The digits of the option of this name that the words begin with, and the words behind it.
fn digits_of<'a>(name: &[u8], words: &'a [Word]) -> Option<(&'a [u8], &'a [Word])>
    ensures found { IfSome result (λ found. HasDigits name.now found.0.now words.now found.1.now) }
    ensures none { IfNone result ((digits : List ℕ) (rest : List (List ℕ))
        → ¬ HasDigits name.now digits words.now rest) }
{
    let (word, behind) = words.split_first()?;
    match word.bytes().strip_prefix(name)? {
        [] => {
            let (digits, rest) = behind.split_first()?;
            Some((digits.bytes(), rest))
        }
        [b'=', digits @ ..] => Some((digits, behind)),
        _ => None,
    }
}
