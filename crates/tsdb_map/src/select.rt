//! What a select returns: rows, or aggregates. Depends on `catalog` and `rows`.
ghost use Rattle.std.specs.Prelude.{◌≡◌, IfOk, IfSome, IfNone, Some, map, if◌then◌else◌, true, false};
ghost use Rattle.tsdb_model.specs.declared.reply.Reply.{Reply};
ghost use Rattle.tsdb_base.specs.declared.answers.Answer.{Answer};
ghost use Rattle.tsdb_model.specs.Apply as apply;
ghost use Rattle.tsdb_model.specs.World.{points_of_series};
ghost use Rattle.tsdb_model.specs.Folds.{within};

use crate::catalog::Catalog;
use crate::rows::rows;
use crate::series::Series;
use std::alloc::Global;
use tsdb_base::{Aggregate, Answer, DataType, Figure, List, Memory, Range};
use tsdb_model::{Item, Reply, ask_aggregates};
use tsdb_path::Path;

/// The rows, or the aggregates, of items over the range.
pub fn select_items(
    alloc: Global,
    catalog: &Catalog,
    device: &Path,
    items: &[Item],
    range: &Range,
) -> Result<Reply, Memory>
    ensures { IfOk result (λ reply. reply ≡ apply.select_reply catalog.now device.now items.now range.now) }
{
    let Some(columns) = find_columns(alloc, catalog, device, items)? else {
        return Ok(Reply::Plain(Answer::NoPath));
    };
    if ask_aggregates(items) {
        return aggregates(alloc, catalog, device, items, range);
    }
    let lines = rows(alloc, columns.as_slice(), range)?;
    Ok(Reply::Lines(List::of(lines)))
}

/// The series of the items, where all of them are there.
fn find_columns<'a>(
    alloc: Global,
    catalog: &'a Catalog,
    device: &Path,
    items: &[Item],
) -> Result<Option<Vec<&'a Series>>, Memory>
    ensures none { IfOk result (λ found. IfNone found (
        apply.are_there catalog.now device.now (map (λ item. item.measurement) items.now) ≡ false)) }
    ensures there { IfOk result (λ found. IfSome found (λ columns.
        apply.are_there catalog.now device.now (map (λ item. item.measurement) items.now) ≡ true)) }
    ensures columns { IfOk result (λ found. IfSome found (λ columns. map (λ column. column.now.points) columns.items
        ≡ map (λ item. points_of_series (apply.series_of catalog.now device.now item.measurement)) items.now)) }
{
    let mut columns = Vec::with_capacity(alloc, items.len())?;
    for item in items {
        let Some(series) = catalog.get(device, &item.measurement) else {
            return Ok(None);
        };
        columns.push(series)?;
    }
    Ok(Some(columns))
}

/// The aggregates of the items, whose series are all there.
fn aggregates(
    alloc: Global,
    catalog: &Catalog,
    device: &Path,
    items: &[Item],
    range: &Range,
) -> Result<Reply, Memory>
    requires { apply.are_there catalog.now device.now (map (λ item. item.measurement) items.now) ≡ true }
    ensures { IfOk result (λ reply. reply ≡ (
        if apply.any_unfit catalog.now device.now items.now then Reply.Plain Answer.WrongType
        else Reply.Values (apply.item_values catalog.now device.now items.now range.now))) }
{
    let mut values = Vec::with_capacity(alloc, items.len())?;
    for item in items {
        let Some(series) = catalog.get(device, &item.measurement) else {
            return Ok(Reply::Plain(Answer::NoPath));
        };
        if is_unfit(item.aggregate, series) {
            return Ok(Reply::Plain(Answer::WrongType));
        }
        values.push(item_value(item.aggregate, series, range)?)?;
    }
    Ok(Reply::Values(List::of(values)))
}

/// An aggregate that only numbers have is asked of a series that has none.
fn is_unfit(aggregate: Option<Aggregate>, series: &Series) -> bool
    ensures { result ≡ apply.is_unfit aggregate (Some series.now) }
{
    match aggregate {
        None => false,
        Some(aggregate) => {
            aggregate.needs_numbers()
                && matches!(series.data_type(), DataType::Boolean | DataType::Text)
        }
    }
}

/// The aggregate that an item asks for, over the points in the range.
fn item_value(
    aggregate: Option<Aggregate>,
    series: &Series,
    range: &Range,
) -> Result<Option<Figure>, Memory>
    ensures { IfOk result (λ figure. figure ≡ apply.item_value aggregate (within range.now series.now.points)) }
{
    match aggregate {
        None => Ok(None),
        Some(aggregate) => series.aggregate(aggregate, range),
    }
}
