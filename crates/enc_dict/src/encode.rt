//! From lists to bytes. It depends on `tsdb_base`, `tsdb_bits` and the dictionary.
ghost use Rattle.std.specs.Prelude.{◌≡◌, ℕ, ◌≤◌, List, ◌++◌, length, map, take, vec_len, IfOk, OnOk, OnErr};
ghost use Rattle.std.specs.Prelude.{if◌then◌else◌};
ghost use Rattle.std.specs.List.{flat_map};
ghost use Rattle.tsdb_base.specs.Limits.{max_values};
ghost use Rattle.tsdb_base.specs.Plain.{plain_text};
ghost use Rattle.enc_dict.specs.Spelling.{first_uses, lent, place_in, spelling};

use crate::dictionary::{HINTS, hint_of, known_place, place_of};
use std::alloc::Global;
use std::collections::BTreeMap;
use tsdb_base::{Memory, PlainValue, Text};
use tsdb_bits::{all_or_none, pack, put_leb, width};

/// The different texts of a list, in the order of their first use, and the places of its values.
#[derive(Drop)]
pub struct Uses {
    /// How many different texts there are.
    pub different: u64,
    /// Their bytes, one after another.
    texts: Vec<u8>,
    /// For each value its text's place.
    places: Vec<u64>,
}

/// Appends the bytes of a text that is used for the first time.
fn put_first_use(text: &Text, is_new: bool, into: &mut Vec<u8>) -> Result<(), Memory>
    ensures { OnOk result (into.new.items ≡
        (if is_new then into.old.items ++ plain_text text.now else into.old.items)) }
{
    if is_new {
        text.put(into)?;
    }
    Ok(())
}

/// Numbers the texts in the order of their first use.
pub fn uses_of(alloc: Global, values: &[&Text]) -> Result<Uses, Memory>
    ensures different { IfOk result (λ uses. uses.different ≡ length (first_uses (lent values.now))) }
    ensures texts { IfOk result (λ uses. uses.texts.items ≡ flat_map plain_text (first_uses (lent values.now))) }
    ensures places { IfOk result (λ uses. uses.places.items
        ≡ map (place_in (first_uses (lent values.now))) (lent values.now)) }
{
    let mut dictionary = BTreeMap::new(alloc);
    let mut texts = Vec::new(alloc);
    let mut places = Vec::with_capacity(alloc, values.len())?;
    let mut hints = [0; HINTS];
    for text in values {
        let hint = hint_of(text);
        let known = known_place(values, &places, hints[hint], text);
        hints[hint] = places.len();
        let (place, is_new) = place_of(text, known, &mut dictionary)?;
        put_first_use(text, is_new, &mut texts)?;
        places.push(place)?;
    }
    Ok(Uses {
        different: dictionary.len() as u64,
        texts,
        places,
    })
}

/// Appends the bytes of at most 1,000 TEXT values, which are lent. After `Memory` the list is as it was.
pub fn encode_text_into(alloc: Global, values: &[&Text], into: &mut Vec<u8>) -> Result<(), Memory>
    requires { length values.now ≤ max_values }
    ensures ok { OnOk result (into.new.items ≡ into.old.items ++ spelling (lent values.now)) }
    ensures memory { OnErr result (into.new.items ≡ into.old.items) }
{
    let start = into.len();
    let appended = append(alloc, values, into);
    all_or_none(appended, start, into)
}

/// Lends each text.
pub fn lend(alloc: Global, texts: &[Text]) -> Result<Vec<&Text>, Memory>
    ensures { IfOk result (λ list. lent list.items ≡ texts.now) }
{
    let mut list = Vec::with_capacity(alloc, texts.len())?;
    for text in texts {
        list.push(text)?;
    }
    Ok(list)
}

/// Appends the bytes. After `Memory` some of them may stand behind what was there.
fn append(alloc: Global, values: &[&Text], into: &mut Vec<u8>) -> Result<(), Memory>
    requires { length values.now ≤ max_values }
    ensures ok { OnOk result (into.new.items ≡ into.old.items ++ spelling (lent values.now)) }
    ensures kept { take (vec_len into.old) into.new.items ≡ into.old.items }
{
    put_leb(values.len() as u64, into)?;
    if values.is_empty() {
        return Ok(());
    }
    let uses = uses_of(alloc, values)?;
    put_leb(uses.different, into)?;
    into.extend_from_slice(&uses.texts)?;
    pack(&uses.places, width(uses.different.saturating_sub(1)), into)?;
    Ok(())
}
