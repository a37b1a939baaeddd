//! What each word of a statement means. Depends on `syntax`, `token` and `fault`.
ghost use Rattle.std.specs.Prelude.{◌≡◌, ◌≤◌, ◌↔◌, ℤ, ℕ, List, IfOk, IfErr, IfSome, IfNone, length};
ghost use Rattle.tsdb_path.specs.Nodes.{IsName, IsPath, child_of, node_count};
ghost use Rattle.tsdb_base.specs.Notation.{aggregate_name};
ghost use Rattle.tsdb_script.specs.Meaning.{IsBadWord, IsGood, IsInteger, IsLiteral, SpellsName, encoding_name};
ghost use Rattle.tsdb_script.specs.Meaning.{type_name};
ghost use Rattle.tsdb_script.specs.Meaning.{SeriesPath, DevicePath, Node, Number, Scalar, TypeName, EncodingName};
ghost use Rattle.tsdb_script.specs.Meaning.{AggregateName};
ghost use Rattle.tsdb_script.specs.Steps.{FaultsWith};

use crate::fault::LineFault;
use crate::syntax::Operand;
use crate::token::WordToken;
use std::alloc::Global;
use tsdb_base::limits::MAX_PATH_BYTES;
use tsdb_base::{Aggregate, DataType, Encoding, limits, suits};
use tsdb_model::{Cell, Literal};
use tsdb_path::{Name, Path, PathFault};

/// The most nodes of a path.
const MAX_NODES: u64 = limits::MAX_NODES as u64;

/// A word is no path or no node.
pub const NO_PATH: LineFault = LineFault::Bad { kind: 4 };

/// A word is no integer.
const NO_NUMBER: LineFault = LineFault::Bad { kind: 5 };

/// A word is no name of a type, an encoding or an aggregate, or the encoding doesn't suit the type.
const NO_NAME: LineFault = LineFault::Bad { kind: 8 };

/// The integer that these bytes write, if they write one of 64 bits.
fn integer_of(bytes: &[u8]) -> Option<i64>
    ensures found { IfSome result (IsInteger bytes.now) }
    ensures none { IfNone result ((number : ℤ) → ¬ IsInteger bytes.now number) }
{
    str::from_utf8(bytes).ok()?.parse().ok()
}

/// The path that a word is, of so many nodes at least.
fn path_of(alloc: Global, word: &WordToken, least: u64) -> Result<Path, LineFault>
    ensures found { IfOk result (λ path. (path ≡ word.now) × IsPath word.now × (least ≤ node_count word.now)) }
    ensures bad { IfErr result (FaultsWith (λ kind.
        (¬ (IsPath word.now × (least ≤ node_count word.now))) × (kind ≡ 4))) }
{
    match Path::read(alloc, word.bytes()) {
        Ok(path) if least <= path.nodes() => Ok(path),
        Err(PathFault::Memory) => Err(LineFault::Memory),
        _ => Err(NO_PATH),
    }
}

/// The path of a series.
pub fn series_path(alloc: Global, word: &WordToken) -> Result<Path, LineFault>
    ensures found { IfOk result (λ path. (path ≡ word.now) × IsGood (SeriesPath word.now)) }
    ensures bad { IfErr result (FaultsWith (IsBadWord (SeriesPath word.now))) }
{
    path_of(alloc, word, 3)
}

/// The path of a device.
pub fn device_path(alloc: Global, word: &WordToken) -> Result<Path, LineFault>
    ensures found { IfOk result (λ path. (path ≡ word.now) × IsGood (DevicePath word.now)) }
    ensures bad { IfErr result (FaultsWith (IsBadWord (DevicePath word.now))) }
{
    path_of(alloc, word, 2)
}

/// The path of a device, which is often that of an insert before.
pub fn device_path_after(
    alloc: Global,
    word: &WordToken,
    before: Option<&Path>,
) -> Result<Path, LineFault>
    ensures found { IfOk result (λ path. (path ≡ word.now) × IsGood (DevicePath word.now)) }
    ensures bad { IfErr result (FaultsWith (IsBadWord (DevicePath word.now))) }
{
    match before {
        Some(path) if path.bytes() == word.bytes() && path.nodes() >= 2 => Ok(path.copy()?),
        _ => device_path(alloc, word),
    }
}

/// The node that a word is.
pub fn node(alloc: Global, word: &WordToken) -> Result<Name, LineFault>
    ensures found { IfOk result (λ name. (name ≡ word.now) × IsGood (Node word.now)) }
    ensures bad { IfErr result (FaultsWith (IsBadWord (Node word.now))) }
{
    match Name::read(alloc, word.bytes()) {
        Ok(name) => Ok(name),
        Err(PathFault::Memory) => Err(LineFault::Memory),
        Err(_) => Err(NO_PATH),
    }
}

/// The node that a word is, which is often the measurement of a cell of an insert before.
pub fn node_after(alloc: Global, word: &WordToken, before: Option<&Cell>) -> Result<Name, LineFault>
    ensures found { IfOk result (λ name. (name ≡ word.now) × IsGood (Node word.now)) }
    ensures bad { IfErr result (FaultsWith (IsBadWord (Node word.now))) }
{
    match before {
        Some(cell) if cell.measurement.bytes() == word.bytes() => Ok(cell.measurement.copy()?),
        _ => node(alloc, word),
    }
}

/// The most bytes of a measurement of the device.
pub fn room_of(device: &Path) -> usize
    ensures { (name : List ℕ) → IsName name → IsPath (child_of device.now name) ↔ (length name ≤ result) }
{
    if device.nodes() < MAX_NODES {
        (MAX_PATH_BYTES - 1).saturating_sub(device.bytes().len())
    } else {
        0
    }
}

/// The integer that a word is.
pub fn number(word: &WordToken) -> Result<i64, LineFault>
    ensures found { IfOk result (IsInteger word.now) }
    ensures bad { IfErr result (FaultsWith (IsBadWord (Number word.now))) }
{
    integer_of(word.bytes()).ok_or(NO_NUMBER)
}

/// The value that an operand writes.
pub fn literal(alloc: Global, operand: &Operand) -> Result<Literal, LineFault>
    ensures found { IfOk result (IsLiteral operand.now) }
    ensures bad { IfErr result (FaultsWith (IsBadWord (Scalar operand.now))) }
{
    match operand {
        Operand::Text(text) => Ok(Literal::Text(text.content(alloc)?)),
        Operand::Word(word) if word.is(b"true") => Ok(Literal::Bool(true)),
        Operand::Word(word) if word.is(b"false") => Ok(Literal::Bool(false)),
        Operand::Word(word) => Ok(Literal::Int(number(word)?)),
    }
}

/// The type that a word names.
pub fn data_type(word: &WordToken) -> Result<DataType, LineFault>
    ensures found { IfOk result (λ found. SpellsName word.now (type_name found)) }
    ensures bad { IfErr result (FaultsWith (IsBadWord (TypeName word.now))) }
{
    if word.is(b"boolean") {
        Ok(DataType::Boolean)
    } else if word.is(b"int32") {
        Ok(DataType::Int32)
    } else if word.is(b"int64") {
        Ok(DataType::Int64)
    } else if word.is(b"text") {
        Ok(DataType::Text)
    } else {
        Err(NO_NAME)
    }
}

/// The encoding that a word names.
fn encoding_of(word: &WordToken) -> Option<Encoding>
    ensures found { IfSome result (λ found. SpellsName word.now (encoding_name found)) }
    ensures none { IfNone result ((found : Encoding) → ¬ SpellsName word.now (encoding_name found)) }
{
    if word.is(b"plain") {
        Some(Encoding::Plain)
    } else if word.is(b"dictionary") {
        Some(Encoding::Dictionary)
    } else if word.is(b"rle") {
        Some(Encoding::Rle)
    } else if word.is(b"ts_2diff") {
        Some(Encoding::Ts2diff)
    } else {
        None
    }
}

/// The encoding that a word names, for the type that another word names.
pub fn encoding(
    word: &WordToken,
    type_word: &WordToken,
    data_type: DataType,
) -> Result<Encoding, LineFault>
    requires { SpellsName type_word.now (type_name data_type) }
    ensures found { IfOk result (λ found.
        SpellsName word.now (encoding_name found) × IsGood (EncodingName type_word.now word.now)) }
    ensures bad { IfErr result (FaultsWith (IsBadWord (EncodingName type_word.now word.now))) }
{
    match encoding_of(word) {
        Some(encoding) if suits(data_type, encoding) => Ok(encoding),
        _ => Err(NO_NAME),
    }
}

/// The aggregate that a word names.
pub fn read_aggregate(word: &WordToken) -> Result<Aggregate, LineFault>
    ensures found { IfOk result (λ found. SpellsName word.now (aggregate_name found)) }
    ensures bad { IfErr result (FaultsWith (IsBadWord (AggregateName word.now))) }
{
    if word.is(b"count") {
        Ok(Aggregate::Count)
    } else if word.is(b"first_value") {
        Ok(Aggregate::FirstValue)
    } else if word.is(b"last_value") {
        Ok(Aggregate::LastValue)
    } else if word.is(b"min_value") {
        Ok(Aggregate::MinValue)
    } else if word.is(b"max_value") {
        Ok(Aggregate::MaxValue)
    } else if word.is(b"min_time") {
        Ok(Aggregate::MinTime)
    } else if word.is(b"max_time") {
        Ok(Aggregate::MaxTime)
    } else if word.is(b"sum") {
        Ok(Aggregate::Sum)
    } else {
        Err(NO_NAME)
    }
}
