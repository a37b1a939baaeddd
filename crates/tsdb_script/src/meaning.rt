//! What a statement means: its words from the left, and then the whole. Depends on `words`, `conditions`, `syntax`,
//! `before` and `fault`.
ghost use Rattle.std.specs.Prelude.{◌≡◌, ◌≤◌, ◌↔◌, ◌∷◌, [], All, None, IsTrue, IfOk, IfErr, map, length};
ghost use Rattle.std.specs.List.{AllByRecursion, AllZip, flat_map};
ghost use Rattle.std.specs.Option.{IsSome};
ghost use Rattle.tsdb_model.specs.Commands.{AreDifferent, IsWellFormed};
ghost use Rattle.tsdb_path.specs.Nodes.{IsPath, child_of};
ghost use Rattle.tsdb_script.specs.Forms.{HasNeededParts};
ghost use Rattle.tsdb_script.specs.Meaning.{HasBadWord, AreColumnsAlike, IsBadWord, ArePaired, IsGood, IsItem};
ghost use Rattle.tsdb_script.specs.Meaning.{IsLiteral, NamesAggregate};
ghost use Rattle.tsdb_script.specs.Meaning.{Means, Objects, aggregate_role, column_role};
ghost use Rattle.tsdb_script.specs.Meaning.{DeviceOf, Measurement, Scalar};
ghost use Rattle.tsdb_script.specs.Steps.{FaultsWith};

use crate::before::{Before, are_named};
use crate::conditions::range_of;
use crate::fault::LineFault;
use crate::syntax::{Condition, Operand, Syntax, SyntaxColumn};
use crate::token::WordToken;
use crate::words::{
    NO_PATH, data_type, device_path, device_path_after, encoding, literal, node, node_after,
    number, read_aggregate, room_of, series_path,
};
use std::alloc::Global;
use std::collections::HashSet;
use tsdb_base::limits::MAX_NAMES;
use tsdb_base::{Aggregate, List, Memory};
use tsdb_model::{Cell, Command, Item, Row, Schema};
use tsdb_path::{Name, Path};

/// The statement as a whole is bad.
const UNBALANCED: LineFault = LineFault::Bad { kind: 7 };

/// The names of the measurements of a device, which often are those of an insert before.
fn measurements(
    alloc: Global,
    device: &Path,
    words: &[WordToken],
    before: &[Cell],
) -> Result<Vec<Name>, LineFault>
    ensures found { IfOk result (λ names.
        (names.items ≡ words.now) × AllByRecursion IsGood (map (Measurement device.now) words.now)) }
    ensures bad { IfErr result (FaultsWith (HasBadWord (map (Measurement device.now) words.now))) }
{
    let room = room_of(device);
    let mut names = Vec::with_capacity(alloc, words.len())?;
    for word in words {
        let name = node_after(alloc, word, before.get(names.len()))?;
        if name.bytes().len() > room {
            return Err(NO_PATH);
        }
        names.push(name)?;
    }
    Ok(names)
}

/// Looks for a bad one among the values of an insert.
fn check_values(alloc: Global, operands: &[Operand]) -> Result<(), LineFault>
    ensures good { IfOk result (λ _. AllByRecursion IsGood (map Scalar operands.now)) }
    ensures bad { IfErr result (FaultsWith (HasBadWord (map Scalar operands.now))) }
{
    for operand in operands {
        let _ = literal(alloc, operand)?;
    }
    Ok(())
}

/// The aggregate that a column asks for, if it does.
fn aggregate_of(word: &Option<WordToken>) -> Result<Option<Aggregate>, LineFault>
    ensures found { IfOk result (NamesAggregate word.now) }
    ensures good { IfOk result (λ _. AllByRecursion IsGood (aggregate_role word.now)) }
    ensures bad { IfErr result (FaultsWith (HasBadWord (aggregate_role word.now))) }
{
    match word {
        Some(word) => Ok(Some(read_aggregate(word)?)),
        None => Ok(None),
    }
}

/// The item that a column asks for.
fn item(alloc: Global, column: &SyntaxColumn) -> Result<Item, LineFault>
    ensures found { IfOk result (IsItem column.now) }
    ensures good { IfOk result (λ _. AllByRecursion IsGood (column_role column.now)) }
    ensures bad { IfErr result (FaultsWith (HasBadWord (column_role column.now))) }
{
    let aggregate = aggregate_of(&column.aggregate)?;
    let measurement = node(alloc, &column.measurement)?;
    Ok(Item {
        measurement,
        aggregate,
    })
}

/// The items of a select.
fn items(alloc: Global, columns: &[SyntaxColumn]) -> Result<Vec<Item>, LineFault>
    ensures found { IfOk result (λ items. AllZip IsItem columns.now items.items) }
    ensures good { IfOk result (λ _. AllByRecursion IsGood (flat_map column_role columns.now)) }
    ensures bad { IfErr result (FaultsWith (HasBadWord (flat_map column_role columns.now))) }
{
    let mut items = Vec::with_capacity(alloc, columns.len())?;
    for column in columns {
        items.push(item(alloc, column)?)?;
    }
    Ok(items)
}

/// Whether no name stands at two places.
fn are_different(alloc: Global, names: &[Name], before: &[Cell]) -> Result<bool, Memory>
    requires { AreDifferent (map (λ cell. cell.measurement) before.now) }
    ensures { IfOk result (λ yes. IsTrue yes ↔ AreDifferent names.now) }
{
    if names.len() < 2 {
        return Ok(true);
    }
    if are_named(before, names) {
        return Ok(true);
    }
    let mut seen = HashSet::new(alloc);
    for name in names {
        if !seen.insert(name.bytes())? {
            return Ok(false);
        }
    }
    Ok(true)
}

/// Whether an insert has at most 1,000 names, all different, each with a value.
fn are_paired(
    alloc: Global,
    names: &[Name],
    values: &[Operand],
    before: &[Cell],
) -> Result<bool, Memory>
    requires { AreDifferent (map (λ cell. cell.measurement) before.now) }
    ensures { IfOk result (λ yes. IsTrue yes ↔ ArePaired names.now values.now) }
{
    if names.len() > MAX_NAMES || names.len() != values.len() {
        return Ok(false);
    }
    are_different(alloc, names, before)
}

/// The cells of these names and values.
fn cells(alloc: Global, mut names: Vec<Name>, operands: &[Operand]) -> Result<Vec<Cell>, LineFault>
    requires { length names.items ≡ length operands.now }
    ensures names { IfOk result (λ cells. map (λ cell. cell.measurement) cells.items ≡ names.items) }
    ensures values { IfOk result (λ cells. AllZip IsLiteral operands.now (map (λ cell. cell.value) cells.items)) }
    ensures bad { IfErr result (FaultsWith (HasBadWord (map Scalar operands.now))) }
{
    let mut cells = Vec::with_capacity(alloc, names.len())?;
    names.reverse();
    for operand in operands {
        let value = literal(alloc, operand)?;
        let Some(measurement) = names.pop() else {
            unreachable!()
        };
        cells.push(Cell { measurement, value })?;
    }
    Ok(cells)
}

/// Whether no measurement has more bytes.
fn are_short(columns: &[SyntaxColumn], room: usize) -> bool
    ensures { IsTrue result ↔ All (λ column. length column.measurement ≤ room) columns.now }
{
    columns
        .iter()
        .all(|column| column.measurement.bytes().len() <= room)
}

/// The path of the device of the columns.
fn device_of(alloc: Global, columns: &[SyntaxColumn], word: &WordToken) -> Result<Path, LineFault>
    requires { AllByRecursion IsGood (flat_map column_role columns.now) }
    ensures found { IfOk result (λ path. (path ≡ word.now)
        × IsGood (DeviceOf (map (λ column. column.measurement) columns.now) word.now)) }
    ensures bad { IfErr result
        (FaultsWith (IsBadWord (DeviceOf (map (λ column. column.measurement) columns.now) word.now))) }
{
    let device = device_path(alloc, word)?;
    if are_short(columns, room_of(&device)) {
        Ok(device)
    } else {
        Err(NO_PATH)
    }
}

/// Whether no column asks for an aggregate.
fn have_no_aggregate(columns: &[SyntaxColumn]) -> bool
    ensures { IsTrue result ↔ All (λ column. column.aggregate ≡ None) columns.now }
{
    columns.iter().all(|column| column.aggregate.is_none())
}

/// Whether each column asks for an aggregate.
fn have_aggregates(columns: &[SyntaxColumn]) -> bool
    ensures { IsTrue result ↔ All (λ column. IsSome column.aggregate) columns.now }
{
    columns.iter().all(|column| column.aggregate.is_some())
}

/// Whether a select has at most 1,000 items, all with or all without an aggregate.
fn are_alike(columns: &[SyntaxColumn]) -> bool
    ensures { IsTrue result ↔ AreColumnsAlike columns.now }
{
    columns.len() <= MAX_NAMES && (have_no_aggregate(columns) || have_aggregates(columns))
}

/// The command of a create.
fn create(
    alloc: Global,
    path: &WordToken,
    type_word: &WordToken,
    encoding_word: &WordToken,
) -> Result<Command, LineFault>
    ensures found { IfOk result (Means (Syntax.Create path.now type_word.now encoding_word.now)) }
    ensures bad { IfErr result (FaultsWith (Objects (Syntax.Create path.now type_word.now encoding_word.now))) }
{
    let path = series_path(alloc, path)?;
    let data_type = data_type(type_word)?;
    let encoding = encoding(encoding_word, type_word, data_type)?;
    Ok(Command::Create(Schema {
        path,
        data_type,
        encoding,
    }))
}

/// The command of an insert.
fn insert(
    alloc: Global,
    device: &WordToken,
    names: &List<WordToken>,
    time: &WordToken,
    values: &List<Operand>,
    before: &Before,
) -> Result<Command, LineFault>
    requires { AreDifferent (map (λ cell. cell.measurement) before.now.cells.now) }
    ensures found { IfOk result (Means (Syntax.Insert device.now names.now time.now values.now)) }
    ensures bad { IfErr result (FaultsWith (Objects (Syntax.Insert device.now names.now time.now values.now))) }
{
    let device = device_path_after(alloc, device, before.device)?;
    let names = measurements(alloc, &device, names.items(), before.cells)?;
    let time = number(time)?;
    if !are_paired(alloc, names.as_slice(), values.items(), before.cells)? {
        // A bad value is found before the statement as a whole is.
        check_values(alloc, values.items())?;
        return Err(UNBALANCED);
    }
    let cells = List::of(cells(alloc, names, values.items())?);
    Ok(Command::Insert {
        device,
        row: Row { time, cells },
    })
}

/// The command of a delete.
fn delete(
    alloc: Global,
    path: &WordToken,
    conditions: &List<Condition>,
) -> Result<Command, LineFault>
    ensures found { IfOk result (Means (Syntax.Delete path.now conditions.now)) }
    ensures bad { IfErr result (FaultsWith (Objects (Syntax.Delete path.now conditions.now))) }
{
    let series = series_path(alloc, path)?;
    let range = range_of(conditions.items())?;
    Ok(Command::Delete { series, range })
}

/// The command of a select.
fn select(
    alloc: Global,
    columns: &List<SyntaxColumn>,
    device: &WordToken,
    conditions: &List<Condition>,
) -> Result<Command, LineFault>
    ensures found { IfOk result (Means (Syntax.Select columns.now device.now conditions.now)) }
    ensures bad { IfErr result (FaultsWith (Objects (Syntax.Select columns.now device.now conditions.now))) }
{
    let items = items(alloc, columns.items())?;
    let device = device_of(alloc, columns.items(), device)?;
    let range = range_of(conditions.items())?;
    if !are_alike(columns.items()) {
        return Err(UNBALANCED);
    }
    let items = List::of(items);
    Ok(Command::Select {
        device,
        items,
        range,
    })
}

/// The command that a statement says, behind an insert or none.
pub fn command_of(alloc: Global, syntax: &Syntax, before: &Before) -> Result<Command, LineFault>
    requires parts { HasNeededParts syntax.now }
    requires before { AreDifferent (map (λ cell. cell.measurement) before.now.cells.now) }
    ensures found { IfOk result (Means syntax.now) }
    ensures good { IfOk result IsWellFormed }
    ensures bad { IfErr result (FaultsWith (Objects syntax.now)) }
{
    match syntax {
        Syntax::Create {
            path,
            data_type,
            encoding,
        } => create(alloc, path, data_type, encoding),
        Syntax::Insert {
            device,
            names,
            time,
            values,
        } => insert(alloc, device, names, time, values, before),
        Syntax::Delete { path, conditions } => delete(alloc, path, conditions),
        Syntax::Select {
            columns,
            device,
            conditions,
        } => select(alloc, columns, device, conditions),
        Syntax::Flush => Ok(Command::Flush),
        Syntax::CompactInner { space } => Ok(Command::CompactInner(*space)),
        Syntax::CompactCross => Ok(Command::CompactCross),
        Syntax::ShowFiles => Ok(Command::ShowFiles),
    }
}
