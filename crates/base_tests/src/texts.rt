//! Texts: their limit, their order, and that they are keys. It depends on `tsdb_base` and `keys`.
use crate::keys::{is_first, is_found};
use std::alloc::Global;
use tsdb_base::{Memory, Text, TextFault};

const LONG: [u8; 65536] = [7; 65536];

/// A byte of ASCII, one above it, and one that is not visible.
const MIXED: &[u8] = b"a\xff\n";

/// Whether a text keeps its bytes.
fn is_kept(alloc: Global, bytes: &[u8]) -> bool {
    match Text::new(alloc, bytes) {
        Ok(text) => text.bytes() == bytes,
        Err(_) => false,
    }
}

fn is_too_long(alloc: Global, bytes: &[u8]) -> bool {
    matches!(Text::new(alloc, bytes), Err(TextFault::TooLong))
}

#[test]
fn the_limit_of_texts(rt: HostRuntime) {
    let alloc = rt.alloc();
    assert!(rt; is_kept(alloc, MIXED) && is_kept(alloc, &LONG[..65535]));
    assert!(rt; is_too_long(alloc, &LONG));
}

fn text(alloc: Global, bytes: &[u8]) -> Option<Text> {
    Text::new(alloc, bytes).ok()
}

fn is_printed(alloc: Global, text: Option<Text>, wanted: &str) -> bool {
    match text {
        Some(text) => match format!(in alloc; "{text:?} {}", Memory) {
            Ok(printed) => printed.as_str() == wanted,
            Err(_) => false,
        },
        None => false,
    }
}

/// Whether a text of the first bytes is less than one of the second.
fn is_less(alloc: Global, first: &[u8], second: &[u8]) -> bool {
    match (Text::new(alloc, first), Text::new(alloc, second)) {
        (Ok(first), Ok(second)) => first < second,
        _ => false,
    }
}

/// Whether a map finds the mixed text, and gives it before `b`, as texts are in order.
fn are_keys(alloc: Global) -> bool {
    is_found(alloc, text(alloc, MIXED), text(alloc, MIXED))
        && is_first(alloc, text(alloc, MIXED), text(alloc, b"b"))
        && is_less(alloc, b"ab", b"b")
}

#[test]
fn texts_are_printed_and_keys(rt: HostRuntime) {
    let alloc = rt.alloc();
    assert!(rt; is_printed(alloc, text(alloc, MIXED), "\"a\\xff\\x0a\" memory"));
    assert!(rt; are_keys(alloc));
}
