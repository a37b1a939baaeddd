//! LEB128, zigzag and packing, the numbers that lists begin with, and appends that failed. It depends on `tsdb_bits`.
use std::alloc::{AllocError, Global};
use std::test::Fail;
use tsdb_base::{DecodeFault, Memory};
use tsdb_bits::{
    BitFault, UnpackFault, all_or_none, get_leb, pack, put_leb, take_count, take_number,
    take_packed, unpack, unzigzag, width, zigzag,
};

/// Numbers and their LEB128 bytes.
static LEBS: [(u64, &[u8]); 5] = [
    (0, &[0]),
    (127, &[127]),
    (128, &[128, 1]),
    (300, &[172, 2]),
    (u64::MAX, &[255, 255, 255, 255, 255, 255, 255, 255, 255, 1]),
];

fn is_leb(alloc: Global, value: u64, bytes: &[u8]) -> bool {
    let mut into = Vec::new(alloc);
    put_leb(value, &mut into).is_ok()
        && into.as_slice() == bytes
        && get_leb(bytes, 0) == Ok((value, bytes.len() as u64))
}

fn first_wrong_leb(alloc: Global, lebs: &[(u64, &[u8])]) -> Option<usize> {
    for (place, (value, bytes)) in lebs.iter().enumerate() {
        if !is_leb(alloc, *value, bytes) {
            return Some(place);
        }
    }
    None
}

/// Bytes, the place that is read, and why no number stands there.
static NO_LEBS: [(&[u8], u64, BitFault); 8] = [
    (&[128, 0], 0, BitFault::Overlong { at: 0 }),
    (&[128], 0, BitFault::Short { at: 1 }),
    (&[7], 1, BitFault::Short { at: 1 }),
    (&[7, 129, 0], 1, BitFault::Overlong { at: 1 }),
    // Eleven bytes, and the first nine and ten of them.
    (
        &[128, 128, 128, 128, 128, 128, 128, 128, 128, 128, 1],
        0,
        BitFault::Overlong { at: 0 },
    ),
    (
        &[128, 128, 128, 128, 128, 128, 128, 128, 128],
        0,
        BitFault::Short { at: 9 },
    ),
    (
        &[128, 128, 128, 128, 128, 128, 128, 128, 128, 128],
        0,
        BitFault::Overlong { at: 0 },
    ),
    // A number of more than 64 bits.
    (
        &[255, 255, 255, 255, 255, 255, 255, 255, 255, 2],
        0,
        BitFault::Overlong { at: 0 },
    ),
];

fn first_wrong_leb_fault(cases: &[(&[u8], u64, BitFault)]) -> Option<usize> {
    for (place, (bytes, at, fault)) in cases.iter().enumerate() {
        if *at > bytes.len() as u64 || get_leb(bytes, *at) != Err(*fault) {
            return Some(place);
        }
    }
    None
}

#[test]
fn leb_examples(rt: HostRuntime) {
    assert_eq!(rt; first_wrong_leb(rt.alloc(), &LEBS), None);
    assert_eq!(rt; first_wrong_leb_fault(&NO_LEBS), None);
}

/// Signed numbers and their unsigned ones.
static ZIGZAGS: [(i64, u64); 6] = [
    (0, 0),
    (-1, 1),
    (1, 2),
    (-2, 3),
    (i64::MAX, u64::MAX - 1),
    (i64::MIN, u64::MAX),
];

/// Numbers and how many binary digits they have.
static WIDTHS: [(u64, u8); 6] = [(0, 0), (1, 1), (2, 2), (255, 8), (256, 9), (u64::MAX, 64)];

fn first_wrong_zigzag(pairs: &[(i64, u64)]) -> Option<usize> {
    for (place, (signed, unsigned)) in pairs.iter().enumerate() {
        if zigzag(*signed) != *unsigned || unzigzag(*unsigned) != *signed {
            return Some(place);
        }
    }
    None
}

fn first_wrong_width(widths: &[(u64, u8)]) -> Option<usize> {
    for (place, (value, digits)) in widths.iter().enumerate() {
        if width(*value) != *digits {
            return Some(place);
        }
    }
    None
}

#[test]
fn zigzag_and_width_examples(rt: HostRuntime) {
    assert_eq!(rt; first_wrong_zigzag(&ZIGZAGS), None);
    assert_eq!(rt; first_wrong_width(&WIDTHS), None);
}

/// Whether 0, 1 and 2 at the width 2 are packed as this byte behind another.
fn is_packed(alloc: Global, byte: u8) -> bool {
    let mut into = Vec::new(alloc);
    into.push(9).is_ok()
        && pack(&[0, 1, 2], 2, &mut into).is_ok()
        && into.as_slice() == [9, byte].as_slice()
}

/// Whether the bytes are the packing of three values at the width 2, and of which.
fn unpacks_to(alloc: Global, bytes: &[u8], values: &[u64]) -> bool {
    match unpack(alloc, bytes, 3, 2) {
        Ok(read) => read.as_slice() == values,
        Err(_) => false,
    }
}

/// The same where a list has them at its end.
fn ends_with(alloc: Global, bytes: &[u8], values: &[u64]) -> bool {
    match take_packed(alloc, bytes, 3, 2) {
        Ok(read) => read.as_slice() == values,
        Err(_) => false,
    }
}

#[test]
fn packing_examples(rt: HostRuntime) {
    let alloc = rt.alloc();
    assert!(rt; is_packed(alloc, 0x24) && unpacks_to(alloc, &[0x24], &[0, 1, 2]));
    assert!(rt; unpack(alloc, &[0x64], 3, 2).err() == Some(UnpackFault::Overlong { at: 0 }));
}

#[test]
fn packed_numbers(rt: HostRuntime) {
    let alloc = rt.alloc();
    assert!(rt; ends_with(alloc, &[0x24], &[0, 1, 2]));
    assert!(rt; take_packed(alloc, &[0x64], 3, 2).err() == Some(DecodeFault::Bad));
}

#[test]
fn counts_and_numbers(rt: HostRuntime) {
    let rest: &[u8] = &[7];
    assert!(rt; take_count(&[0xe8, 7, 7]) == Ok((1000, rest)));
    assert!(rt; take_count(&[0xe9, 7]) == Err(DecodeFault::Bad));
    assert!(rt; take_number(&[0xe9, 7, 7]) == Ok((1001, rest)));
    assert!(rt; take_number(&[0x80, 0]) == Err(DecodeFault::Bad));
}

/// The bytes that are left of three, the last of which a call with this answer appended.
fn left_of(alloc: Global, appended: Result<(), Memory>) -> Result<Vec<u8>, AllocError> {
    let mut bytes = Vec::new(alloc);
    bytes.extend_from_slice(&[1, 2, 3])?;
    let is_same = all_or_none(appended, 2, &mut bytes) == appended;
    if !is_same {
        bytes.clear();
    }
    Ok(bytes)
}

#[test]
fn an_append_that_failed_is_undone(rt: HostRuntime) -> Result<(), Fail> {
    assert!(rt; left_of(rt.alloc(), Ok(()))?.as_slice() == [1, 2, 3].as_slice());
    assert!(rt; left_of(rt.alloc(), Err(Memory))?.as_slice() == [1, 2].as_slice());
    Ok(())
}
