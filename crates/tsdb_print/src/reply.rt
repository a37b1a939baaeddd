//! The text of a reply. Depends on `append` and `listing`.
ghost use Rattle.std.specs.Prelude.{◌≡◌, ◌++◌, IfOk, OnOk};
ghost use Rattle.tsdb_print.specs.Text.{answer_text, items_of, line, reply_text, row_text, rows_text, values_text};

use crate::append::{append_after_commas, append_list, append_signed, append_unsigned};
use crate::listing::append_listing;
use std::alloc::{AllocError, Global};
use tsdb_base::{Answer, Figure, Memory};
use tsdb_model::{Command, Item, Line, Reply};

/// The lines of a reply to a command. Its time is linear in what it prints.
pub fn print_reply(alloc: Global, command: &Command, reply: &Reply) -> Result<Vec<u8>, Memory>
    ensures { IfOk result (λ text. text.items ≡ reply_text command.now reply.now) }
{
    let mut text = Vec::new(alloc);
    match reply {
        Reply::Plain(answer) => append_answer(*answer, &mut text)?,
        Reply::Lines(rows) => append_rows(items(command), rows.items(), &mut text)?,
        Reply::Values(values) => append_values(items(command), values.items(), &mut text)?,
        Reply::Files(listing) => append_listing(listing, &mut text)?,
    }
    Ok(text)
}

/// The items of a select. Another command has none.
fn items(command: &Command) -> &[Item]
    ensures { result.now ≡ items_of command.now }
{
    match command {
        Command::Select { items, .. } => items.items(),
        _ => &[],
    }
}

fn append_answer(answer: Answer, into: &mut Vec<u8>) -> Result<(), AllocError>
    ensures { OnOk result (into.new.items ≡ into.old.items ++ line (answer_text answer)) }
{
    into.extend_from_slice(match answer {
        Answer::Done => b"ok\n",
        Answer::NoPath => b"path\n",
        Answer::WrongType => b"type\n",
        Answer::Exists => b"exists\n",
        Answer::Device => b"device\n",
        Answer::Memory => b"memory\n",
        Answer::Full { .. } => b"full\n",
    })
}

fn append_rows(items: &[Item], rows: &[Line], into: &mut Vec<u8>) -> Result<(), AllocError>
    ensures { OnOk result (into.new.items ≡ into.old.items ++ rows_text items.now rows.now) }
{
    into.extend_from_slice(b"time")?;
    append_after_commas(items, into)?;
    into.push(b'\n')?;
    for row in rows {
        append_row(row, into)?;
    }
    into.extend_from_slice(b"rows ")?;
    append_unsigned(rows.len() as u64, into)?;
    into.push(b'\n')?;
    Ok(())
}

fn append_row(row: &Line, into: &mut Vec<u8>) -> Result<(), AllocError>
    ensures { OnOk result (into.new.items ≡ into.old.items ++ line (row_text row.now)) }
{
    append_signed(row.time, into)?;
    append_after_commas(row.values.items(), into)?;
    into.push(b'\n')?;
    Ok(())
}

fn append_values(
    items: &[Item],
    values: &[Option<Figure>],
    into: &mut Vec<u8>,
) -> Result<(), AllocError>
    ensures { OnOk result (into.new.items ≡ into.old.items ++ values_text items.now values.now) }
{
    append_list(items, into)?;
    into.push(b'\n')?;
    append_list(values, into)?;
    into.push(b'\n')?;
    Ok(())
}
