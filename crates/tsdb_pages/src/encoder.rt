//! From values to bytes. It depends on the four encodings.
ghost use Rattle.std.specs.Prelude.{◌≡◌, ◌≤◌, ◌++◌, All, length, map, take, true, vec_len, IfOk, OnOk, OnErr};
ghost use Rattle.std.specs.List.{flat_map};
ghost use Rattle.tsdb_base.specs.Limits.{max_values};
ghost use Rattle.tsdb_base.specs.Values.{is_suitable, type_of};
ghost use Rattle.tsdb_base.specs.Fields.{value_field};
ghost use Rattle.enc_plain.specs.Spelling as plain;
ghost use Rattle.enc_dict.specs.Spelling.{lent};
ghost use Rattle.tsdb_pages.specs.ListSpelling.{integer_of, spelling, text_of};
ghost use Rattle.tsdb_pages.specs.ListSteps.{truth_of};

use crate::item::HasValue;
use std::alloc::Global;
use tsdb_base::{DataType, Encoding, Memory, PlainValue, Text, Value};
use tsdb_bits::{all_or_none, put_leb};

/// Appends the bytes of at most 1,000 values of the type, in an encoding that suits it. After `Memory`
/// the list is as it was.
pub fn encode_into<T: HasValue>(
    alloc: Global,
    data_type: DataType,
    encoding: Encoding,
    items: &[T],
    into: &mut Vec<u8>,
) -> Result<(), Memory>
    requires suits { is_suitable data_type encoding ≡ true }
    requires few { length items.now ≤ max_values }
    requires typed { All (λ item. type_of (T.value_of item) ≡ data_type) items.now }
    ensures ok { OnOk result (into.new.items ≡ into.old.items ++ spelling encoding (map T.value_of items.now)) }
    ensures memory { OnErr result (into.new.items ≡ into.old.items) }
{
    match encoding {
        Encoding::Plain => encode_plain_into(items, into),
        Encoding::Rle if data_type == DataType::Boolean => {
            let truths = truths_of(alloc, items)?;
            enc_rle::encode_bool_into(&truths, into)
        }
        Encoding::Rle => {
            let integers = integers_of(alloc, items)?;
            enc_rle::encode_i64_into(&integers, into)
        }
        Encoding::Ts2diff => {
            let integers = integers_of(alloc, items)?;
            enc_ts2diff::encode_i64_into(alloc, &integers, into)
        }
        Encoding::Dictionary => {
            let texts = texts_of(alloc, items)?;
            enc_dict::encode_text_into(alloc, &texts, into)
        }
    }
}

fn encode_plain_into<T: HasValue>(items: &[T], into: &mut Vec<u8>) -> Result<(), Memory>
    ensures ok { OnOk result (into.new.items ≡
        into.old.items ++ plain.spelling value_field (map T.value_of items.now)) }
    ensures memory { OnErr result (into.new.items ≡ into.old.items) }
{
    let start = into.len();
    let appended = append_plain(items, into);
    all_or_none(appended, start, into)
}

/// Appends the bytes. After `Memory` some of them may stand behind what was there.
fn append_plain<T: HasValue>(items: &[T], into: &mut Vec<u8>) -> Result<(), Memory>
    ensures ok { OnOk result (into.new.items ≡
        into.old.items ++ plain.spelling value_field (map T.value_of items.now)) }
    ensures kept { take (vec_len into.old) into.new.items ≡ into.old.items }
{
    put_leb(items.len() as u64, into)?;
    for item in items {
        put_value(item.value(), into)?;
    }
    Ok(())
}

/// Appends the bytes of one value by itself.
fn put_value(value: &Value, into: &mut Vec<u8>) -> Result<(), Memory>
    ensures ok { OnOk result (into.new.items ≡ into.old.items ++ value_field value.now) }
    ensures kept { take (vec_len into.old) into.new.items ≡ into.old.items }
{
    match value {
        Value::Bool(truth) => truth.put(into),
        Value::I32(number) => number.put(into),
        Value::I64(number) => number.put(into),
        Value::Text(text) => text.put(into),
    }
}

/// The truth value of a value, and false for one that has none.
fn truth_in(value: &Value) -> bool
    ensures { result ≡ truth_of value.now }
{
    match value {
        Value::Bool(truth) => *truth,
        Value::I32(_) | Value::I64(_) | Value::Text(_) => false,
    }
}

/// The number of a value, and 0 for one that has none.
fn integer_in(value: &Value) -> i64
    ensures { result ≡ integer_of value.now }
{
    match value {
        Value::I32(number) => i64::from(*number),
        Value::I64(number) => *number,
        Value::Bool(_) | Value::Text(_) => 0,
    }
}

/// The truth values of the items, and false for those that have none.
fn truths_of<T: HasValue>(alloc: Global, items: &[T]) -> Result<Vec<bool>, Memory>
    ensures { IfOk result (λ truths. truths.items ≡ map (λ item. truth_of (T.value_of item)) items.now) }
{
    let mut truths = Vec::with_capacity(alloc, items.len())?;
    for item in items {
        truths.push(truth_in(item.value()))?;
    }
    Ok(truths)
}

/// The numbers of the items, and 0 for those that have none.
fn integers_of<T: HasValue>(alloc: Global, items: &[T]) -> Result<Vec<i64>, Memory>
    ensures { IfOk result (λ integers. integers.items ≡ map (λ item. integer_of (T.value_of item)) items.now) }
{
    let mut integers = Vec::with_capacity(alloc, items.len())?;
    for item in items {
        integers.push(integer_in(item.value()))?;
    }
    Ok(integers)
}

/// The texts of items that have texts, lent.
fn texts_of<T: HasValue>(alloc: Global, items: &[T]) -> Result<Vec<&Text>, Memory>
    requires { All (λ item. type_of (T.value_of item) ≡ DataType.Text) items.now }
    ensures { IfOk result (λ texts. lent texts.items ≡ map (λ item. text_of (T.value_of item)) items.now) }
{
    let mut texts = Vec::with_capacity(alloc, items.len())?;
    for item in items {
        let Value::Text(text) = item.value() else {
            unreachable!()
        };
        texts.push(text)?;
    }
    Ok(texts)
}
