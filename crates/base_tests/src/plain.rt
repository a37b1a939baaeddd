//! Values and fields by themselves as bytes. It depends on `tsdb_base`.
use std::alloc::Global;
use tsdb_base::{DataType, DecodeFault, Encoding, PlainValue, Text, put_all, take_all};

const VALUES: &[u8] =
    b"\x01\x00\x00\x00\x00\x01\xff\xff\xff\xff\x80\x00\x00\x00\x00\x00\x00\x00\x00\x01a";

const FIELDS: &[u8] = b"\x00\x07\x00\x00\x01\x02\x00\x00\x00\x00\x00\x00\x00\x01\x05\x04";

/// What stands behind these values, where the bytes begin with them.
fn behind_all<'a, T: PlainValue + PartialEq>(
    alloc: Global,
    values: &[T],
    bytes: &'a [u8],
) -> Option<&'a [u8]> {
    match take_all::<T>(alloc, values.len(), bytes) {
        Ok((read, rest)) => {
            if read.as_slice() == values {
                Some(rest)
            } else {
                None
            }
        }
        Err(_) => None,
    }
}

/// What stands behind this value, where the bytes begin with it.
fn behind<'a, T: PlainValue + PartialEq>(
    alloc: Global,
    value: &T,
    bytes: &'a [u8],
) -> Option<&'a [u8]> {
    match T::take(alloc, bytes) {
        Ok((read, rest)) => { if read == *value { Some(rest) } else { None } }
        Err(_) => None,
    }
}

fn is_bad<T: PlainValue>(alloc: Global, bytes: &[u8]) -> bool {
    matches!(T::take(alloc, bytes), Err(DecodeFault::Bad))
}

/// Whether the values are written as their bytes.
fn are_values_written(alloc: Global, text: &Text) -> bool {
    let mut bytes = Vec::new(alloc);
    put_all(&[true, false], &mut bytes).is_ok()
        && put_all(&[1, -1], &mut bytes).is_ok()
        && put_all(&[i64::MIN], &mut bytes).is_ok()
        && text.put(&mut bytes).is_ok()
        && bytes.as_slice() == VALUES
}

/// What stands behind the values.
fn behind_values<'a>(alloc: Global, text: &Text, bytes: &'a [u8]) -> Option<&'a [u8]> {
    let bytes = behind_all(alloc, &[true, false], bytes)?;
    let bytes = behind_all(alloc, &[1, -1], bytes)?;
    let bytes = behind(alloc, &i64::MIN, bytes)?;
    behind(alloc, text, bytes)
}

/// Whether the values are written as their bytes, and read from them.
fn values_come_back(alloc: Global) -> bool {
    match Text::new(alloc, b"a") {
        Ok(text) => {
            are_values_written(alloc, &text)
                && behind_values(alloc, &text, VALUES) == Some([].as_slice())
        }
        Err(_) => false,
    }
}

#[test]
fn values_by_themselves(rt: HostRuntime) {
    assert!(rt; values_come_back(rt.alloc()));
    assert!(rt; is_bad::<Text>(rt.alloc(), &[0, 2, 7]));
}

/// Whether the fields are written as their bytes.
fn are_fields_written(alloc: Global) -> bool {
    let mut bytes = Vec::new(alloc);
    (7u16, (258u32, 1u64)).put(&mut bytes).is_ok()
        && (DataType::Text, Encoding::Ts2diff).put(&mut bytes).is_ok()
        && bytes.as_slice() == FIELDS
}

/// What stands behind the fields.
fn behind_fields(alloc: Global, bytes: &[u8]) -> Option<&[u8]> {
    let bytes = behind(alloc, &(7u16, (258u32, 1u64)), bytes)?;
    behind(alloc, &(DataType::Text, Encoding::Ts2diff), bytes)
}

/// Whether the fields are written as their bytes, and read from them.
fn fields_come_back(alloc: Global) -> bool {
    are_fields_written(alloc) && behind_fields(alloc, FIELDS) == Some([].as_slice())
}

#[test]
fn fields_by_themselves(rt: HostRuntime) {
    let alloc = rt.alloc();
    assert!(rt; fields_come_back(alloc));
    assert!(rt; is_bad::<u32>(alloc, &[0, 0, 1]) && is_bad::<Encoding>(alloc, &[3]));
}
