//! Puts texts into a sink, line by line. Depends on nothing here.
ghost use Rattle.std.specs.Prelude.{◌≡◌, ◌<◌, ◌++◌, length};
ghost use Rattle.tsdb_run.specs.Steps.{PutsText};

use tsdb_outside::{Sink, StoreFault};

/// Puts a text line by line, each line until it is taken whole.
pub fn put_lines<K: Sink>(out: &mut K, text: &[u8]) -> Result<(), StoreFault>
    ensures { PutsText (K.held out.old) (K.held out.new) text.now (K.faults out.old) (K.faults out.new) result }
{
    let mut rest = text;
    while !rest.is_empty() {
        let (line, others) = first_line(rest);
        put_all(out, line)?;
        rest = others;
    }
    Ok(())
}

/// The first line of a text with its line feed, and what is behind it. A text without a line feed is one line.
fn first_line(text: &[u8]) -> (&[u8], &[u8])
    requires { 0 < length text.now }
    ensures whole { text.now ≡ result.0.now ++ result.1.now }
    ensures some { length result.1.now < length text.now }
{
    match text.iter().position(|byte| *byte == b'\n') {
        Some(at) => text.split_at(at + 1),
        None => text.split_at(text.len()),
    }
}

/// Puts bytes until they are taken whole.
fn put_all<K: Sink>(out: &mut K, bytes: &[u8]) -> Result<(), StoreFault>
    ensures { PutsText (K.held out.old) (K.held out.new) bytes.now (K.faults out.old) (K.faults out.new) result }
{
    let mut rest = bytes;
    while !rest.is_empty() {
        let count = out.put(rest)?;
        (_, rest) = rest.split_at(count);
    }
    Ok(())
}
