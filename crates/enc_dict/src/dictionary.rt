//! The places of different texts: an ordered map, and hints in front of it. A hint is the last value with a number that
//! is made of its bytes; where that value is the text, its place is known. Texts that were made to have the same number
//! are found in the map, so no list of texts costs a comparison of all pairs. It depends on `tsdb_base`.
ghost use Rattle.std.specs.Prelude.{◌≡◌, ◌<◌, length, List, ℕ, IfOk, IfSome};
ghost use Rattle.enc_dict.specs.Spelling.{lent};
ghost use Rattle.enc_dict.specs.Steps.{Enters, IsDictionary, IsKnown, IsTextPlace};

use std::collections::BTreeMap;
use tsdb_base::{Memory, Text};

/// How many hints there are.
pub const HINTS: usize = 2048;

/// An odd number whose bits look random.
const MULTIPLIER: u64 = 0x9e37_79b9_7f4a_7c15;

/// A number that is made of a text's first and last bytes.
pub fn hint_of(text: &Text) -> usize
    ensures { result < 2048 }
{
    let bytes = text.bytes();
    let mut number = bytes.len() as u64;
    if bytes.len() < 8 {
        for byte in bytes {
            number = number.wrapping_mul(257).wrapping_add(u64::from(*byte));
        }
    } else {
        let first = word_of(bytes.split_at(8).0);
        let last = word_of(bytes.split_at(bytes.len() - 8).1);
        number = number.wrapping_add(first ^ last.rotate_left(32));
    }
    // The highest bits of a product depend on all bits of the number.
    let product = number.wrapping_mul(MULTIPLIER);
    (((product ^ (product >> 32)).wrapping_mul(MULTIPLIER)) >> 53) as usize % HINTS
}

/// Eight bytes as a number.
fn word_of(bytes: &[u8]) -> u64
    requires { length bytes.now ≡ 8 }
{
    u64::from_le_bytes([
        bytes[0], bytes[1], bytes[2], bytes[3], bytes[4], bytes[5], bytes[6], bytes[7],
    ])
}

/// The place of the value at the index, where that is the text and its place is there.
pub fn known_place(values: &[&Text], places: &[u64], index: usize, text: &Text) -> Option<u64>
    ensures { IfSome result (λ place. IsKnown (lent values.now) places.now text.now place) }
{
    match (values.get(index), places.get(index)) {
        (Some(value), Some(place)) if *value == text => Some(*place),
        _ => None,
    }
}

/// The place of a text in the dictionary, and whether it is new there; then it goes last.
pub fn place_of<'a>(
    text: &'a Text,
    known: Option<u64>,
    dictionary: &mut BTreeMap<&'a Text, u64>,
) -> Result<(u64, bool), Memory>
    ensures { IfOk result (λ r. (texts : List (List ℕ)) →
        IsDictionary texts dictionary.old → IfSome known (IsTextPlace texts text.now) →
        Enters texts text.now r.0 r.1 dictionary.new) }
{
    if let Some(place) = known {
        return Ok((place, false));
    }
    // Most texts without a hint are new, and are then looked up once.
    let behind = dictionary.len() as u64;
    let Some(place) = dictionary.insert(text, behind)? else {
        return Ok((behind, true));
    };
    dictionary.insert(text, place)?;
    Ok((place, false))
}
