//! The speed of the four encodings, at pages of 1,000 values. It depends on their crates.

ghost use Rattle.std.specs.Prelude.{◌≤◌, length, vec_len};

use crate::bench::{Bench, Unit};
use crate::numbers::next;
use std::alloc::Global;
use tsdb_base::{Memory, Text};

/// The values of a page.
const PAGE: u64 = 1000;

/// A page of numbers: of any 64 bits, or times about 1,000 apart.
fn page(bench: &mut Bench, is_time: bool) -> Vec<i64>
    ensures { vec_len result ≤ 1000 }
{
    let mut values = Vec::new(bench.alloc());
    let mut seed = 7u64;
    let mut time = 1_700_000_000_000u64;
    for _ in 0..PAGE {
        seed = next(seed);
        time = time.wrapping_add(1000 + (seed >> 60));
        bench.push(&mut values, if is_time { time } else { seed }.cast_signed());
    }
    values.truncate(1000);
    values
}

/// A page of texts of eight bytes, of which `different` differ.
fn texts(bench: &mut Bench, different: u64) -> Vec<Text>
    ensures { vec_len result ≤ 1000 }
{
    let alloc = bench.alloc();
    let mut values = Vec::new(alloc);
    let mut seed = 7u64;
    for _ in 0..PAGE {
        seed = next(seed);
        let place = (seed >> 32).checked_rem(different).unwrap_or(0);
        let bytes = place.wrapping_add(0x3030_3030_3030_3030).to_be_bytes();
        let text = bench.ok(Text::new(alloc, &bytes));
        bench.put(&mut values, text);
    }
    values.truncate(1000);
    values
}

/// A page in one encoding.
#[derive(Clone, Copy)]
enum Form {
    PlainNumbers,
    PlainTexts,
    Runs,
    Differences,
    Dictionary,
}

/// The values of a page: numbers, or texts.
#[derive(Clone, Copy)]
struct Values<'a> {
    numbers: &'a [i64],
    texts: &'a [Text],
}

/// Appends the bytes of a page of texts, which are lent first.
fn append_dictionary(alloc: Global, values: &[Text], into: &mut Vec<u8>) -> Result<(), Memory> {
    let mut texts = Vec::with_capacity(alloc, values.len())?;
    for text in values {
        texts.push(text)?;
    }
    texts.truncate(1000);
    enc_dict::encode_text_into(alloc, &texts, into)
}

/// Appends the bytes of a page.
fn append(alloc: Global, form: Form, page: Values, into: &mut Vec<u8>) -> Result<(), Memory>
    requires numbers { length page.numbers.now ≤ 1000 }
    requires texts { length page.texts.now ≤ 1000 }
{
    match form {
        Form::PlainNumbers => enc_plain::encode_i64_into(page.numbers, into),
        Form::PlainTexts => enc_plain::encode_text_into(page.texts, into),
        Form::Runs => enc_rle::encode_i64_into(page.numbers, into),
        Form::Differences => enc_ts2diff::encode_i64_into(alloc, page.numbers, into),
        Form::Dictionary => append_dictionary(alloc, page.texts, into),
    }
}

/// Decodes a page.
fn decode(bench: &mut Bench, form: Form, bytes: &[u8]) {
    let alloc = bench.alloc();
    match form {
        Form::PlainNumbers => bench.note(enc_plain::decode_i64(alloc, bytes)),
        Form::PlainTexts => bench.note(enc_plain::decode_text(alloc, bytes)),
        Form::Runs => bench.note(enc_rle::decode_i64(alloc, bytes)),
        Form::Differences => bench.note(enc_ts2diff::decode_i64(alloc, bytes)),
        Form::Dictionary => bench.note(enc_dict::decode_text(alloc, bytes)),
    }
}

/// The rows of a page in one encoding.
fn both_rows(bench: &mut Bench, what: &str, form: Form, page: Values)
    requires numbers { length page.numbers.now ≤ 1000 }
    requires texts { length page.texts.now ≤ 1000 }
{
    let alloc = bench.alloc();
    let many = bench.rounds(2000);
    bench.start();
    for _ in 0..many {
        let mut bytes = Vec::new(alloc);
        bench.note(append(alloc, form, page, &mut bytes));
        bench.require(!bytes.is_empty());
    }
    bench.row(what, "encode", many.saturating_mul(PAGE), Unit::Millions);
    let mut bytes = Vec::new(alloc);
    bench.note(append(alloc, form, page, &mut bytes));
    bench.start();
    for _ in 0..many {
        decode(bench, form, &bytes);
    }
    bench.row(what, "decode", many.saturating_mul(PAGE), Unit::Millions);
}

/// A page that is measured, and how the table calls it.
#[derive(Clone, Copy)]
struct Measured {
    what: &'static str,
    form: Form,
    /// Whether its numbers are times.
    is_time: bool,
}

const PAGES: &[Measured] = &[
    Measured {
        what: "PLAIN of INT64",
        form: Form::PlainNumbers,
        is_time: false,
    },
    Measured {
        what: "PLAIN of texts of 8 bytes",
        form: Form::PlainTexts,
        is_time: false,
    },
    Measured {
        what: "RLE of any 64 bits, without runs",
        form: Form::Runs,
        is_time: false,
    },
    Measured {
        what: "RLE of times, without runs",
        form: Form::Runs,
        is_time: true,
    },
    Measured {
        what: "TS_2DIFF of any 64 bits",
        form: Form::Differences,
        is_time: false,
    },
    Measured {
        what: "TS_2DIFF of times",
        form: Form::Differences,
        is_time: true,
    },
    Measured {
        what: "DICTIONARY of 100 texts of 8 bytes",
        form: Form::Dictionary,
        is_time: false,
    },
];

/// The rows of the encodings.
pub fn encodings(bench: &mut Bench) {
    let numbers = page(bench, false);
    let times = page(bench, true);
    let texts = texts(bench, 100);
    let wide = Values {
        numbers: &numbers,
        texts: &texts,
    };
    let rising = Values {
        numbers: &times,
        texts: &texts,
    };
    for one in PAGES {
        match one.is_time {
            true => both_rows(bench, one.what, one.form, rising),
            false => both_rows(bench, one.what, one.form, wide),
        }
    }
}
