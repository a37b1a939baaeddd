//! Lists and their bytes in each encoding, empty ones, full ones and those of docs/FORMATS.md, and bytes of no list. It
//! depends on `tsdb_base`.
use tsdb_base::{DataType, Encoding};

/// The most values of a list.
pub const MAX_VALUES: usize = 1000;

/// A list of values of one type.
#[derive(Clone, Copy)]
pub enum List {
    Truths(&'static [bool]),
    Narrow(&'static [i32]),
    Wide(&'static [i64]),
    Texts(&'static [&'static [u8]]),
}

const MIN: i64 = i64::MIN;

const MAX: i64 = i64::MAX;

const A: &[u8] = b"a";

/// A list and its bytes.
pub type Example = (List, &'static [u8]);

pub static PLAIN: [Example; 5] = [
    (List::Truths(&[true, false]), b"\x02\x01\x00"),
    (List::Narrow(&[1, -1]), &[2, 0, 0, 0, 1, 255, 255, 255, 255]),
    (List::Wide(&[MIN]), &[1, 128, 0, 0, 0, 0, 0, 0, 0]),
    (List::Texts(&[b"a", b""]), b"\x02\x00\x01a\x00\x00"),
    (List::Texts(&[]), b"\x00"),
];

pub static RLE: [Example; 8] = [
    (List::Wide(&[]), b"\x00"),
    (List::Wide(&[5, 5, 5, -1]), b"\x04\x03\x0a\x01\x01"),
    (List::Narrow(&[5, 5, 5, -1]), b"\x04\x03\x0a\x01\x01"),
    (List::Truths(&[true, true, false]), &[3, 2, 1, 1, 0]),
    (List::Truths(&[true; 1000]), b"\xe8\x07\xe8\x07\x01"),
    (List::Narrow(&[7; 1000]), b"\xe8\x07\xe8\x07\x0e"),
    (List::Wide(&[7; 1000]), b"\xe8\x07\xe8\x07\x0e"),
    (List::Wide(&[1 << 31]), BEYOND_IN_RUN),
];

pub static TS_2DIFF: [Example; 9] = [
    (List::Wide(&[]), b"\x00"),
    (List::Wide(&[7]), b"\x01\x0e"),
    (List::Wide(&[10, 20, 30]), b"\x03\x14\x14\x00"),
    (List::Wide(&[1, 2, 4, 7]), b"\x04\x02\x02\x02\x24"),
    (List::Narrow(&[1, 2, 4, 7]), b"\x04\x02\x02\x02\x24"),
    (List::Wide(&[MIN, MAX]), LEAST_AND_GREATEST),
    (List::Wide(&[0, MAX, -1]), WIDTH_64),
    (List::Wide(&[7; 1000]), b"\xe8\x07\x0e\x00\x00"),
    (List::Wide(&[1 << 31]), BEYOND_ALONE),
];

pub static DICTIONARY: [Example; 5] = [
    (List::Texts(&[b"a", b"b", b"a"]), TWO_TEXTS),
    (
        List::Texts(&[b"b", b"a"]),
        b"\x02\x02\x00\x01b\x00\x01a\x02",
    ),
    (List::Texts(&[b"a", b"a"]), b"\x02\x01\x00\x01a"),
    (List::Texts(&[A; 1000]), b"\xe8\x07\x01\x00\x01a"),
    (List::Texts(&[]), b"\x00"),
];

/// 2^31, which is no INT32 value.
pub const BEYOND_IN_RUN: &[u8] = &[1, 1, 0x80, 0x80, 0x80, 0x80, 0x10];

const BEYOND_ALONE: &[u8] = &[1, 0x80, 0x80, 0x80, 0x80, 0x10];

const TWO_TEXTS: &[u8] = b"\x03\x02\x00\x01a\x00\x01b\x02";

const LEAST_AND_GREATEST: &[u8] = &[2, 255, 255, 255, 255, 255, 255, 255, 255, 255, 1, 1, 0];

const WIDTH_64: &[u8] = &[
    3, 0, 255, 255, 255, 255, 255, 255, 255, 255, 255, 1, 64, 255, 255, 255, 255, 255, 255, 255,
    255, 0, 0, 0, 0, 0, 0, 0, 0,
];

/// A type, an encoding, and bytes of no list of it.
pub type Refusals = (DataType, Encoding, &'static [&'static [u8]]);

pub static REFUSED: [Refusals; 10] = [
    (
        DataType::Boolean,
        Encoding::Plain,
        &[
            b"",
            b"\x80\x00", // a count that is not the shortest
            b"\x00\x00", // a byte more
            b"\x01\x00\x00", // the same
            b"\x01\x02", // no boolean
            b"\x02\x01", // a value that is not there
        ],
    ),
    (
        DataType::Int32,
        Encoding::Plain,
        &[
            b"\x01\x00\x00\x00",
            b"\x01\x00\x00\x00\x00\x00",
            b"\x01\x00\x00\x00\x00\x00\x00\x00\x05",
        ],
    ),
    (
        DataType::Int64,
        Encoding::Plain,
        &[b"\x01\x00\x00\x00", b"\x01\x00\x00\x00\x00\x00"],
    ),
    (
        DataType::Text,
        Encoding::Plain,
        // no text, one that is cut, and a byte more
        &[b"", b"\x01\x00", b"\x01\x00\x02a", b"\x01\x00\x01ab"],
    ),
    (
        DataType::Boolean,
        Encoding::Rle,
        // 2 for a boolean, runs not joined, and 1,001 values
        &[
            b"\x01\x01\x02",
            b"\x02\x01\x01\x01\x01",
            b"\xe9\x07\xe9\x07\x01",
        ],
    ),
    (
        DataType::Int32,
        Encoding::Rle,
        &[BEYOND_IN_RUN, b"\x04\x01\x0a\x02\x0a\x01\x01"],
    ),
    (
        DataType::Int64,
        Encoding::Rle,
        &[
            b"",
            b"\x04\x01\x0a\x02\x0a\x01\x01", // runs not joined
            b"\x01\x00\x0a\x01\x01", // a run of length 0
            b"\x04\x03\x0a\x01", // a run that is cut
            b"\x03\x03\x0a\x01\x01", // a count that the runs do not add up to
            b"\xe9\x07\xe9\x07\x0a", // 1,001 values
            b"\x01\x81\x00\x0a", // a length that is not the shortest
            b"\x00\x00", // a byte more
        ],
    ),
    (
        DataType::Int32,
        Encoding::Ts2diff,
        &[BEYOND_ALONE, b"\x03\x14\x14\x01\x00"],
    ),
    (
        DataType::Int64,
        Encoding::Ts2diff,
        &[
            b"",
            b"\x03\x14\x14\x01\x00", // a width larger than needed
            b"\x03\x14\x14\x41\x00", // a width over 64
            b"\x04\x02\x02\x02\x64", // a filling bit
            b"\x04\x02\x02\x02\x24\x00", // a byte more
            b"\x04\x02\x00\x02\x39", // a least difference that is not the least
            b"\xe9\x07\x00\x00\x00", // 1,001 values
            b"\x80\x00", // a count that is not the shortest
            b"\x01", // a value that is not there
        ],
    ),
    (
        DataType::Text,
        Encoding::Dictionary,
        &[
            b"",
            b"\x01\x02\x00\x01a\x00\x01b\x00", // a text that is not used
            b"\x02\x02\x00\x01a\x00\x01b\x01", // not the order of first use
            b"\x02\x02\x00\x01a\x00\x01a\x02", // a text twice
            b"\x03\x02\x00\x01a\x00\x01b\x0a", // a filling bit
            b"\x02\x01\x00\x01a\x00", // a byte more
            b"\x03\x02\x00\x01a\x00\x01b", // no places
            b"\x01\x00", // no text
            b"\x03\x03\x00\x01a\x00\x01b\x00\x01c\x34", // a place of no text
            b"\x00\x00", // a byte more
            b"\x82\x00\x01\x00\x01a", // a count that is not the shortest
            b"\xe9\x07\x01\x00\x01a", // 1,001 values
            b"\x01\x01\x00\x02a", // a text that is cut
        ],
    ),
];

/// The PLAIN bytes of 1,000 truth values, which are all false.
pub fn full() -> [u8; MAX_VALUES + 2] {
    let mut bytes = [0; MAX_VALUES + 2];
    bytes[0] = 0xe8;
    bytes[1] = 7;
    bytes
}

/// The bytes of one more.
pub fn too_many() -> [u8; MAX_VALUES + 3] {
    let mut bytes = [0; MAX_VALUES + 3];
    bytes[0] = 0xe9;
    bytes[1] = 7;
    bytes
}
