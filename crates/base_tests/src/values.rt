//! Values, their types and encodings, and lists. It depends on `tsdb_base`, `keys` and `rows`.
use crate::keys::crosses_threads;
use crate::rows::{Row, expect_none, first_wrong};
use std::alloc::Global;
use std::test::Fail;
use tsdb_base::{DataType, Encoding, List, Text, Value, suits};

/// Whether the value is its copy, and of the type.
fn is_copied(value: &Value, data_type: DataType) -> bool {
    match value.copy() {
        Ok(copy) => copy == *value && value.data_type() == data_type,
        Err(_) => false,
    }
}

/// A value of each type whose values take no memory.
fn are_copied() -> bool {
    is_copied(&Value::Bool(true), DataType::Boolean)
        && is_copied(&Value::I32(-1), DataType::Int32)
        && is_copied(&Value::I64(i64::MIN), DataType::Int64)
}

fn is_text_copied(alloc: Global) -> bool {
    match Text::new(alloc, b"") {
        Ok(text) => {
            let value = Value::Text(text);
            crosses_threads(&value);
            is_copied(&value, DataType::Text)
        }
        Err(_) => false,
    }
}

#[test]
fn values_and_their_types(rt: HostRuntime) {
    crosses_threads(&DataType::Text);
    assert!(rt; are_copied());
    assert!(rt; is_text_copied(rt.alloc()));
}

/// An encoding, and whether it suits BOOLEAN, INT32, INT64 and TEXT.
impl Row for (Encoding, [bool; 4]) {
    fn is_right(&self, _alloc: Global) -> bool {
        let (encoding, wanted) = *self;
        let found = [
            suits(DataType::Boolean, encoding),
            suits(DataType::Int32, encoding),
            suits(DataType::Int64, encoding),
            suits(DataType::Text, encoding),
        ];
        found == wanted
    }
}

const SUITING: &[(Encoding, [bool; 4])] = &[
    (Encoding::Plain, [true, true, true, true]),
    (Encoding::Dictionary, [false, false, false, true]),
    (Encoding::Rle, [true, true, true, false]),
    (Encoding::Ts2diff, [false, true, true, false]),
];

#[test]
fn encodings_that_suit(rt: HostRuntime) -> Result<(), Fail> {
    expect_none(first_wrong(rt.alloc(), SUITING))
}

/// Whether a list keeps its items, and gives them back.
fn is_kept(alloc: Global, items: &[u64]) -> bool {
    match Vec::from_slice(alloc, items) {
        Ok(kept) => {
            let list = List::of(kept);
            crosses_threads(&list);
            let has_items = list.items() == items;
            list.into_vec().as_slice() == items && has_items
        }
        Err(_) => false,
    }
}

#[test]
fn lists_keep_their_items(rt: HostRuntime) {
    assert!(rt; is_kept(rt.alloc(), &[3, 1, 3]));
}
