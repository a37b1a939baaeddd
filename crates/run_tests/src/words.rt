//! Lists of words of the command line, and what they ask for.
use std::alloc::Global;
use tsdb_base::Memory;
use tsdb_run::{Asked, Word, one_meaning, read_words};

/// Lists of words, with a bar between each two, that ask for a directory, a number of points of a pair and a number of
/// workers.
const GOOD: [(&str, &str, u64, u64); 13] = [
    ("run|d", "d", 10_000, 1),
    // The first lone `--` is dropped, before the directory or behind it.
    ("run|--|d", "d", 10_000, 1),
    ("run|d|--", "d", 10_000, 1),
    ("run|d|--workers=0|--", "d", 10_000, 0),
    // The options in both forms and in any order.
    ("run|d|--pair=4|--workers|0", "d", 4, 0),
    ("run|--workers=4|d|--pair|5", "d", 5, 4),
    ("run|--pair=4|--workers=2|d", "d", 4, 2),
    // The least and greatest numbers, and leading zeros.
    ("run|d|--pair|1", "d", 1, 1),
    ("run|d|--pair|1000000", "d", 1_000_000, 1),
    ("run|d|--pair=0000001", "d", 1, 1),
    ("run|d|--workers=0000000", "d", 10_000, 0),
    ("run|d|--workers|04", "d", 10_000, 4),
    // A directory that looks like something else.
    ("run|run", "run", 10_000, 1),
];

/// Lists of words that ask for nothing, the first of them without words.
const BAD: [&str; 27] = [
    "",
    "run",
    "d",
    "RUN|d",
    "--help",
    "run|--pair",
    // No directory, two directories, or none that a word can name.
    "run|",
    "run|-d",
    "run|--|-d",
    "run|--|--|d",
    "run|d|e",
    "run|--pair|4",
    // An option behind `--`, or twice.
    "run|--|d|--pair|4",
    "run|d|--|--workers=1",
    "run|d|--pair|4|--pair|4",
    "run|d|--workers=1|--workers=1",
    // No number behind an option.
    "run|d|--pair",
    "run|d|--pair=",
    "run|--pair|--|4|d",
    "run|d|--workers|-1",
    "run|d|--pair|+4",
    "run|d|--pair4",
    // A number that is too small, too great or too long.
    "run|d|--pair|0",
    "run|d|--pair=1000001",
    "run|d|--pair|00000001",
    "run|d|--workers|5",
    "run|d|--workers=00000001",
];

/// The words of a list.
fn words_of(alloc: Global, list: &str) -> Result<Vec<Word>, Memory> {
    let mut words = Vec::new(alloc);
    if list.is_empty() {
        return Ok(words);
    }
    for word in list.split("|") {
        words.push(Word::new(alloc, word.as_bytes())?)?;
    }
    Ok(words)
}

/// A directory, a number of points of a pair and a number of workers.
type Wanted<'a> = (&'a [u8], u64, u64);

/// Whether this is asked for.
fn is_asked(asked: &Asked, wanted: Wanted) -> bool {
    let (directory, pair_points, workers) = wanted;
    asked.directory() == directory
        && asked.pair_points() == pair_points
        && asked.workers() == workers
}

/// Whether the words of the list ask for this, or for nothing.
fn ask_for(alloc: Global, list: &str, wanted: Option<Wanted>) -> bool {
    match words_of(alloc, list) {
        Ok(words) => match (read_words(&words), wanted) {
            (Some(asked), Some(wanted)) => is_asked(&asked, wanted),
            (None, None) => true,
            _ => false,
        },
        Err(Memory) => false,
    }
}

/// A body that always answers none, or out of memory, fails here.
#[test]
fn good_words(rt: HostRuntime) {
    for (case, (list, directory, pair_points, workers)) in GOOD.iter().enumerate() {
        let wanted = (directory.as_bytes(), *pair_points, *workers);
        assert!(rt; ask_for(rt.alloc(), list, Some(wanted)), "{case}");
    }
    one_meaning();
}

#[test]
fn bad_words(rt: HostRuntime) {
    for (case, list) in BAD.iter().enumerate() {
        assert!(rt; ask_for(rt.alloc(), list, None), "{case}");
    }
}

/// Whether the word of these bytes has them.
fn keeps(alloc: Global, bytes: &[u8]) -> bool {
    match Word::new(alloc, bytes) {
        Ok(word) => word.bytes() == bytes,
        Err(Memory) => false,
    }
}

#[test]
fn words_need_not_be_texts(rt: HostRuntime) {
    assert!(rt; keeps(rt.alloc(), b"\xff/\x00"));
}
