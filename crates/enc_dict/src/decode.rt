//! From bytes to lists. It depends on `tsdb_base` and `tsdb_bits`.
ghost use Rattle.std.specs.Prelude.{◌≡◌, ℕ, ◌^◌, ◌<◌, ◌≤◌, List, length, All, IfOk, IsErrOf};
ghost use Rattle.tsdb_base.specs.Limits.{max_values};
ghost use Rattle.tsdb_base.specs.Plain.{IsText};
ghost use Rattle.tsdb_bits.specs.Lists.{HasNone, IsSpelling, IsOnly, SpellNone};
ghost use Rattle.enc_dict.specs.Spelling.{dictionary_parts, spelling};
ghost use Rattle.enc_dict.specs.Steps.{AreDictionaryParts, AreUses, HaveNoParts};

use crate::encode::{lend, uses_of};
use std::alloc::Global;
use tsdb_base::{DecodeFault, Text, take_all};
use tsdb_bits::{take_count, take_number, take_packed, width};

/// What stands behind the number of values.
#[derive(Drop)]
struct Parts {
    texts: Vec<Text>,
    places: Vec<u64>,
}

/// The list of at most 1,000 TEXT values with these bytes. It is `Bad` exactly where there is none.
pub fn decode_text(alloc: Global, bytes: &[u8]) -> Result<Vec<Text>, DecodeFault>
    ensures found { IfOk result (λ values. IsSpelling spelling IsText bytes.now values.items) }
    ensures only { IfOk result (λ values. IsOnly spelling IsText bytes.now values.items) }
    ensures bad { IsErrOf result DecodeFault.Bad → SpellNone spelling IsText bytes.now }
{
    let (count, rest) = take_count(bytes)?;
    if count == 0 {
        if !rest.is_empty() {
            return Err(DecodeFault::Bad);
        }
        return Ok(Vec::new(alloc));
    }
    let read = parts_of(alloc, count as u64, rest)?;
    texts_at(alloc, &read.texts, &read.places)
}

/// The texts and places that the bytes are. It is `Bad` where they are none.
fn parts_of(alloc: Global, count: u64, bytes: &[u8]) -> Result<Parts, DecodeFault>
    requires { count ≤ max_values }
    ensures found { IfOk result (λ read. bytes.now ≡ dictionary_parts read.texts.items read.places.items) }
    ensures are { IfOk result (λ read. AreDictionaryParts count read.texts.items read.places.items) }
    ensures bad { IsErrOf result DecodeFault.Bad → HaveNoParts count bytes.now }
{
    let (different, rest) = take_number(bytes)?;
    // A hostile number is refused before anything is built.
    if different > count {
        return Err(DecodeFault::Bad);
    }
    let (texts, rest) = take_all(alloc, different as usize, rest)?;
    let places = take_packed(alloc, rest, count, width(different.saturating_sub(1)))?;
    Ok(Parts { texts, places })
}

/// The texts at the places. It is `Bad` where a text stands there twice or is not used, or where
/// the texts are not in the order of their first use.
fn texts_at(alloc: Global, texts: &[Text], places: &[u64]) -> Result<Vec<Text>, DecodeFault>
    ensures found { IfOk result (λ values. AreUses texts.now places.now values.items) }
    ensures bad { IsErrOf result DecodeFault.Bad → HasNone (AreUses texts.now places.now) }
{
    let lent = lend(alloc, texts)?;
    let uses = uses_of(alloc, &lent)?;
    if uses.different != texts.len() as u64 {
        return Err(DecodeFault::Bad);
    }
    let mut values = Vec::with_capacity(alloc, places.len())?;
    let mut used: u64 = 0;
    for place in places {
        if *place > used {
            return Err(DecodeFault::Bad);
        }
        let Some(text) = texts.get(*place as usize) else {
            return Err(DecodeFault::Bad);
        };
        if *place == used {
            used += 1;
        }
        values.push(text.clone()?)?;
    }
    if used != texts.len() as u64 {
        return Err(DecodeFault::Bad);
    }
    Ok(values)
}
