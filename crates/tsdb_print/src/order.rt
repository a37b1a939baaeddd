//! The heading of a session, and the order of the commands. Depends on `append`.
ghost use Rattle.std.specs.Prelude.{◌≡◌, IfOk};
ghost use Rattle.tsdb_print.specs.Text.{order_text, session_text};

use crate::append::append_unsigned;
use std::alloc::Global;
use tsdb_base::Memory;

/// The heading of a session's replies, a line.
pub fn print_session(alloc: Global, session: u16) -> Result<Vec<u8>, Memory>
    ensures { IfOk result (λ text. text.items ≡ session_text session) }
{
    let mut text = Vec::from_slice(alloc, b"session ")?;
    append_unsigned(u64::from(session), &mut text)?;
    text.push(b'\n')?;
    Ok(text)
}

/// The session of each command, in the order in which the commands took place, as one line.
pub fn print_order(alloc: Global, sessions: &[u16]) -> Result<Vec<u8>, Memory>
    ensures { IfOk result (λ text. text.items ≡ order_text sessions.now) }
{
    let mut text = Vec::from_slice(alloc, b"order")?;
    for session in sessions {
        text.push(b' ')?;
        append_unsigned(u64::from(*session), &mut text)?;
    }
    text.push(b'\n')?;
    Ok(text)
}
