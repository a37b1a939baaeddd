//! Appends numbers, values and items to a text, and lists of them with commas between. Depends on `digits`
//! and `sum`.
ghost use Rattle.std.specs.Prelude.{◌≡◌, ℕ, List, [], ◌∷◌, ◌++◌, OnOk, map};
ghost use Rattle.std.specs.Fmt.{decimal, signed_decimal};
ghost use Rattle.std.specs.List.{flat_map};
ghost use Rattle.tsdb_base.specs.Notation.{aggregate_name, escape};
ghost use Rattle.tsdb_print.specs.Text.{cell_text, figure_text, item_text, join_with_commas, quote};

use crate::digits::{MAX_DIGITS, write_digits};
use crate::sum::append_sum;
use std::alloc::AllocError;
use tsdb_base::{Aggregate, Figure, Value};
use tsdb_model::Item;

/// What has a text of its own.
pub trait Printed {
    /// The text.
    ghost text: { Self → List ℕ };

    /// Appends the text.
    fn append(&self, into: &mut Vec<u8>) -> Result<(), AllocError>
        ensures { OnOk result (into.new.items ≡ into.old.items ++ text self.now) };
}

impl Printed for Option<Value> {
    ghost text = { cell_text };

    fn append(&self, into: &mut Vec<u8>) -> Result<(), AllocError> {
        match self {
            None => into.extend_from_slice(b"null"),
            Some(value) => append_value(value, into),
        }
    }
}

impl Printed for Option<Figure> {
    ghost text = { figure_text };

    fn append(&self, into: &mut Vec<u8>) -> Result<(), AllocError> {
        match self {
            None => into.extend_from_slice(b"null"),
            Some(figure) => append_figure(figure, into),
        }
    }
}

impl Printed for Item {
    ghost text = { item_text };

    fn append(&self, into: &mut Vec<u8>) -> Result<(), AllocError> {
        match self.aggregate {
            None => into.extend_from_slice(self.measurement.bytes()),
            Some(aggregate) => append_aggregate(aggregate, self.measurement.bytes(), into),
        }
    }
}

/// Appends the texts of the items, with commas between them.
pub fn append_list<T: Printed>(items: &[T], into: &mut Vec<u8>) -> Result<(), AllocError>
    ensures { OnOk result (into.new.items ≡ into.old.items ++ join_with_commas (map T.text items.now)) }
{
    match items {
        [] => Ok(()),
        [first, others @ ..] => {
            first.append(into)?;
            append_after_commas(others, into)
        }
    }
}

/// Appends the texts of the items, each behind a comma.
pub fn append_after_commas<T: Printed>(items: &[T], into: &mut Vec<u8>) -> Result<(), AllocError>
    ensures { OnOk result (into.new.items ≡ into.old.items ++ flat_map (λ other. 44 ∷ other) (map T.text items.now)) }
{
    for item in items {
        into.push(b',')?;
        item.append(into)?;
    }
    Ok(())
}

/// Appends the decimal digits of a number.
pub fn append_unsigned(number: u64, into: &mut Vec<u8>) -> Result<(), AllocError>
    ensures { OnOk result (into.new.items ≡ into.old.items ++ decimal number) }
{
    let mut buffer = [0; MAX_DIGITS];
    let at = write_digits(number, &mut buffer, MAX_DIGITS);
    into.extend_from_slice(&buffer[at..])
}

pub fn append_signed(number: i64, into: &mut Vec<u8>) -> Result<(), AllocError>
    ensures { OnOk result (into.new.items ≡ into.old.items ++ signed_decimal number) }
{
    if number >= 0 {
        return append_unsigned(number.unsigned_abs(), into);
    }
    into.push(b'-')?;
    append_unsigned(number.unsigned_abs(), into)
}

fn append_aggregate(
    aggregate: Aggregate,
    measurement: &[u8],
    into: &mut Vec<u8>,
) -> Result<(), AllocError>
    ensures { OnOk result (into.new.items ≡ into.old.items
        ++ item_text (record { measurement = measurement.now; aggregate = Some aggregate })) }
{
    into.extend_from_slice(name_of(aggregate))?;
    into.push(b'(')?;
    into.extend_from_slice(measurement)?;
    into.push(b')')?;
    Ok(())
}

fn name_of(aggregate: Aggregate) -> &'static [u8]
    ensures { result.now ≡ aggregate_name aggregate }
{
    match aggregate {
        Aggregate::Count => b"count",
        Aggregate::FirstValue => b"first_value",
        Aggregate::LastValue => b"last_value",
        Aggregate::MinValue => b"min_value",
        Aggregate::MaxValue => b"max_value",
        Aggregate::MinTime => b"min_time",
        Aggregate::MaxTime => b"max_time",
        Aggregate::Sum => b"sum",
    }
}

fn append_value(value: &Value, into: &mut Vec<u8>) -> Result<(), AllocError>
    ensures { OnOk result (into.new.items ≡ into.old.items ++ cell_text (Some value.now)) }
{
    match value {
        Value::Bool(true) => into.extend_from_slice(b"true"),
        Value::Bool(false) => into.extend_from_slice(b"false"),
        Value::I32(number) => append_signed(i64::from(*number), into),
        Value::I64(number) => append_signed(*number, into),
        Value::Text(text) => append_quote(text.bytes(), into),
    }
}

/// Appends bytes between quotes, each quote among them doubled.
fn append_quote(bytes: &[u8], into: &mut Vec<u8>) -> Result<(), AllocError>
    ensures { OnOk result (into.new.items ≡ into.old.items ++ quote bytes.now) }
{
    into.push(b'\'')?;
    for byte in bytes {
        append_escape(*byte, into)?;
    }
    into.push(b'\'')?;
    Ok(())
}

fn append_escape(byte: u8, into: &mut Vec<u8>) -> Result<(), AllocError>
    ensures { OnOk result (into.new.items ≡ into.old.items ++ escape 39 (byte ∷ [])) }
{
    if byte == b'\'' {
        return into.extend_from_slice(b"''");
    }
    into.push(byte)?;
    Ok(())
}

fn append_figure(figure: &Figure, into: &mut Vec<u8>) -> Result<(), AllocError>
    ensures { OnOk result (into.new.items ≡ into.old.items ++ figure_text (Some figure.now)) }
{
    match figure {
        Figure::Value(value) => append_value(value, into),
        Figure::Sum(sum) => append_sum(*sum, into),
    }
}
