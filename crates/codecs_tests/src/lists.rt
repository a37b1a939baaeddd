//! Each list in its own encoding. It depends on `examples`, `enc_plain`, `enc_rle`, `enc_ts2diff` and `enc_dict`.
use crate::examples::{
    DICTIONARY, Example, List, MAX_VALUES, PLAIN, REFUSED, RLE, Refusals, TS_2DIFF, full, too_many,
};
use std::alloc::Global;
use tsdb_base::{DataType, DecodeFault, Encoding, Memory, Text};

/// A text for each of these bytes.
fn texts_of(alloc: Global, list: &[&[u8]]) -> Option<Vec<Text>> {
    let mut texts = Vec::new(alloc);
    for bytes in list {
        texts.push(Text::new(alloc, bytes).ok()?).ok()?;
    }
    Some(texts)
}

/// Lends each text.
fn lend(alloc: Global, texts: &[Text]) -> Result<Vec<&Text>, Memory> {
    let mut lent = Vec::with_capacity(alloc, texts.len())?;
    for text in texts {
        lent.push(text)?;
    }
    Ok(lent)
}

/// Appends the bytes of lent texts, and says whether they are there.
fn put_lent(alloc: Global, texts: &[&Text], into: &mut Vec<u8>) -> bool {
    texts.len() <= MAX_VALUES && enc_dict::encode_text_into(alloc, texts, into).is_ok()
}

/// Appends the bytes of texts, and says whether they are there.
fn put_texts(alloc: Global, encoding: Encoding, texts: &[Text], into: &mut Vec<u8>) -> bool {
    match encoding {
        Encoding::Plain => {
            texts.len() <= MAX_VALUES && enc_plain::encode_text_into(texts, into).is_ok()
        }
        Encoding::Dictionary => match lend(alloc, texts) {
            Ok(lent) => put_lent(alloc, &lent, into),
            Err(_) => false,
        },
        Encoding::Rle | Encoding::Ts2diff => false,
    }
}

/// Appends the bytes of the list, and says whether they are there.
fn put(alloc: Global, encoding: Encoding, list: List, into: &mut Vec<u8>) -> bool {
    match (encoding, list) {
        (Encoding::Plain, List::Truths(values)) => {
            values.len() <= MAX_VALUES && enc_plain::encode_bool_into(values, into).is_ok()
        }
        (Encoding::Plain, List::Narrow(values)) => {
            values.len() <= MAX_VALUES && enc_plain::encode_i32_into(values, into).is_ok()
        }
        (Encoding::Plain, List::Wide(values)) => {
            values.len() <= MAX_VALUES && enc_plain::encode_i64_into(values, into).is_ok()
        }
        (Encoding::Rle, List::Truths(values)) => {
            values.len() <= MAX_VALUES && enc_rle::encode_bool_into(values, into).is_ok()
        }
        (Encoding::Rle, List::Narrow(values)) => {
            values.len() <= MAX_VALUES && enc_rle::encode_i32_into(values, into).is_ok()
        }
        (Encoding::Rle, List::Wide(values)) => {
            values.len() <= MAX_VALUES && enc_rle::encode_i64_into(values, into).is_ok()
        }
        (Encoding::Ts2diff, List::Narrow(values)) => {
            values.len() <= MAX_VALUES && enc_ts2diff::encode_i32_into(alloc, values, into).is_ok()
        }
        (Encoding::Ts2diff, List::Wide(values)) => {
            values.len() <= MAX_VALUES && enc_ts2diff::encode_i64_into(alloc, values, into).is_ok()
        }
        (_, List::Texts(values)) => match texts_of(alloc, values) {
            Some(texts) => put_texts(alloc, encoding, &texts, into),
            None => false,
        },
        _ => false,
    }
}

/// Whether these values were read.
fn are<T: PartialEq + Drop>(read: Result<Vec<T>, DecodeFault>, values: &[T]) -> bool {
    match read {
        Ok(found) => found.as_slice() == values,
        Err(_) => false,
    }
}

/// Whether these texts were read.
fn are_texts(read: Result<Vec<Text>, DecodeFault>, texts: Option<Vec<Text>>) -> bool {
    match (read, texts) {
        (Ok(found), Some(wanted)) => found == wanted,
        _ => false,
    }
}

/// Whether the bytes are read as the list.
fn is_read(alloc: Global, encoding: Encoding, list: List, bytes: &[u8]) -> bool {
    match (encoding, list) {
        (Encoding::Plain, List::Truths(list)) => are(enc_plain::decode_bool(alloc, bytes), list),
        (Encoding::Plain, List::Narrow(list)) => are(enc_plain::decode_i32(alloc, bytes), list),
        (Encoding::Plain, List::Wide(list)) => are(enc_plain::decode_i64(alloc, bytes), list),
        (Encoding::Plain, List::Texts(list)) => {
            are_texts(enc_plain::decode_text(alloc, bytes), texts_of(alloc, list))
        }
        (Encoding::Rle, List::Truths(list)) => are(enc_rle::decode_bool(alloc, bytes), list),
        (Encoding::Rle, List::Narrow(list)) => are(enc_rle::decode_i32(alloc, bytes), list),
        (Encoding::Rle, List::Wide(list)) => are(enc_rle::decode_i64(alloc, bytes), list),
        (Encoding::Ts2diff, List::Narrow(list)) => {
            are(enc_ts2diff::decode_i32(alloc, bytes), list)
        }
        (Encoding::Ts2diff, List::Wide(list)) => are(enc_ts2diff::decode_i64(alloc, bytes), list),
        (Encoding::Dictionary, List::Texts(list)) => {
            are_texts(enc_dict::decode_text(alloc, bytes), texts_of(alloc, list))
        }
        _ => false,
    }
}

/// Whether the list is written as these bytes, and read from them.
fn is_pair(alloc: Global, encoding: Encoding, list: List, bytes: &[u8]) -> bool {
    let mut into = Vec::new(alloc);
    put(alloc, encoding, list, &mut into)
        && into.as_slice() == bytes
        && is_read(alloc, encoding, list, bytes)
}

fn first_wrong(alloc: Global, encoding: Encoding, examples: &[Example]) -> Option<usize> {
    for (place, (list, bytes)) in examples.iter().enumerate() {
        if !is_pair(alloc, encoding, *list, bytes) {
            return Some(place);
        }
    }
    None
}

#[test]
fn examples(rt: HostRuntime) {
    let alloc = rt.alloc();
    assert_eq!(rt; first_wrong(alloc, Encoding::Plain, &PLAIN), None);
    assert_eq!(rt; first_wrong(alloc, Encoding::Rle, &RLE), None);
    assert_eq!(rt; first_wrong(alloc, Encoding::Ts2diff, &TS_2DIFF), None);
    assert_eq!(rt; first_wrong(alloc, Encoding::Dictionary, &DICTIONARY), None);
}

#[test]
fn the_most_values(rt: HostRuntime) {
    let alloc = rt.alloc();
    let falses = List::Truths(&[false; MAX_VALUES]);
    assert!(rt; is_pair(alloc, Encoding::Plain, falses, &full()));
    assert!(rt; is_refused(alloc, DataType::Boolean, Encoding::Plain, &too_many()));
}

/// Whether the bytes were refused as those of no list.
fn is_bad<T: Drop>(read: Result<Vec<T>, DecodeFault>) -> bool {
    match read {
        Ok(_) => false,
        Err(fault) => fault == DecodeFault::Bad,
    }
}

fn is_refused(alloc: Global, data_type: DataType, encoding: Encoding, bytes: &[u8]) -> bool {
    match (data_type, encoding) {
        (DataType::Boolean, Encoding::Plain) => is_bad(enc_plain::decode_bool(alloc, bytes)),
        (DataType::Int32, Encoding::Plain) => is_bad(enc_plain::decode_i32(alloc, bytes)),
        (DataType::Int64, Encoding::Plain) => is_bad(enc_plain::decode_i64(alloc, bytes)),
        (DataType::Text, Encoding::Plain) => is_bad(enc_plain::decode_text(alloc, bytes)),
        (DataType::Boolean, Encoding::Rle) => is_bad(enc_rle::decode_bool(alloc, bytes)),
        (DataType::Int32, Encoding::Rle) => is_bad(enc_rle::decode_i32(alloc, bytes)),
        (DataType::Int64, Encoding::Rle) => is_bad(enc_rle::decode_i64(alloc, bytes)),
        (DataType::Int32, Encoding::Ts2diff) => is_bad(enc_ts2diff::decode_i32(alloc, bytes)),
        (DataType::Int64, Encoding::Ts2diff) => is_bad(enc_ts2diff::decode_i64(alloc, bytes)),
        (DataType::Text, Encoding::Dictionary) => is_bad(enc_dict::decode_text(alloc, bytes)),
        _ => false,
    }
}

/// The first of these bytes that are not refused.
fn first_taken(alloc: Global, refusals: Refusals) -> Option<usize> {
    let (data_type, encoding, refused) = refusals;
    for (place, bytes) in refused.iter().enumerate() {
        if !is_refused(alloc, data_type, encoding, bytes) {
            return Some(place);
        }
    }
    None
}

#[test]
fn refused(rt: HostRuntime) {
    for (place, refusals) in REFUSED.iter().enumerate() {
        assert_eq!(rt; first_taken(rt.alloc(), *refusals), None, "{place}");
    }
}
