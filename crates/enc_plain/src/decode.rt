//! From bytes to lists. It depends on `tsdb_base` and `tsdb_bits`.
ghost use Rattle.std.specs.Prelude.{IfOk, IsErrOf, FitsSigned};
ghost use Rattle.std.specs.Int.{w32, w64};
ghost use Rattle.tsdb_base.specs.Plain.{plain_bool, plain_i32, plain_i64, plain_text, IsText};
ghost use Rattle.tsdb_bits.specs.Lists.{IsSpelling, IsOnly, SpellNone};
ghost use Rattle.enc_plain.specs.Spelling.{spelling};

use std::alloc::Global;
use tsdb_base::{DecodeFault, PlainValue, Text, take_all};
use tsdb_bits::take_count;

/// The list of at most 1,000 BOOLEAN values with these bytes. It is `Bad` exactly where there is none.
pub fn decode_bool(alloc: Global, bytes: &[u8]) -> Result<Vec<bool>, DecodeFault>
    ensures found { IfOk result (λ values. IsSpelling (spelling plain_bool) (λ _. Unit {0}) bytes.now values.items) }
    ensures only { IfOk result (λ values. IsOnly (spelling plain_bool) (λ _. Unit {0}) bytes.now values.items) }
    ensures bad { IsErrOf result DecodeFault.Bad → SpellNone (spelling plain_bool) (λ _. Unit {0}) bytes.now }
{
    decode(alloc, bytes)
}

/// The list of at most 1,000 INT32 values with these bytes. It is `Bad` exactly where there is none.
pub fn decode_i32(alloc: Global, bytes: &[u8]) -> Result<Vec<i32>, DecodeFault>
    ensures found { IfOk result (λ values. IsSpelling (spelling plain_i32) (FitsSigned w32) bytes.now values.items) }
    ensures only { IfOk result (λ values. IsOnly (spelling plain_i32) (FitsSigned w32) bytes.now values.items) }
    ensures bad { IsErrOf result DecodeFault.Bad → SpellNone (spelling plain_i32) (FitsSigned w32) bytes.now }
{
    decode(alloc, bytes)
}

/// The list of at most 1,000 INT64 values with these bytes. It is `Bad` exactly where there is none.
pub fn decode_i64(alloc: Global, bytes: &[u8]) -> Result<Vec<i64>, DecodeFault>
    ensures found { IfOk result (λ values. IsSpelling (spelling plain_i64) (FitsSigned w64) bytes.now values.items) }
    ensures only { IfOk result (λ values. IsOnly (spelling plain_i64) (FitsSigned w64) bytes.now values.items) }
    ensures bad { IsErrOf result DecodeFault.Bad → SpellNone (spelling plain_i64) (FitsSigned w64) bytes.now }
{
    decode(alloc, bytes)
}

/// The list of at most 1,000 TEXT values with these bytes. It is `Bad` exactly where there is none.
pub fn decode_text(alloc: Global, bytes: &[u8]) -> Result<Vec<Text>, DecodeFault>
    ensures found { IfOk result (λ values. IsSpelling (spelling plain_text) IsText bytes.now values.items) }
    ensures only { IfOk result (λ values. IsOnly (spelling plain_text) IsText bytes.now values.items) }
    ensures bad { IsErrOf result DecodeFault.Bad → SpellNone (spelling plain_text) IsText bytes.now }
{
    decode(alloc, bytes)
}

fn decode<T: PlainValue>(alloc: Global, bytes: &[u8]) -> Result<Vec<T>, DecodeFault>
    ensures found { IfOk result (λ values. IsSpelling (spelling T.spelling) T.is_value bytes.now values.items) }
    ensures only { IfOk result (λ values. IsOnly (spelling T.spelling) T.is_value bytes.now values.items) }
    ensures bad { IsErrOf result DecodeFault.Bad → SpellNone (spelling T.spelling) T.is_value bytes.now }
{
    let (count, rest) = take_count(bytes)?;
    let (values, rest) = take_all(alloc, count, rest)?;
    if !rest.is_empty() {
        return Err(DecodeFault::Bad);
    }
    Ok(values)
}
