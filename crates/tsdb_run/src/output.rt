//! Puts the text of the output into a sink. Depends on `put`, tsdb_history and tsdb_print.
ghost use Rattle.std.specs.Prelude.{◌≡◌, IfOk, OnOk, List, ◌++◌, map};
ghost use Rattle.tsdb_run.specs.Output.{output_text, session_part, replies_text, distinct_sessions};
ghost use Rattle.tsdb_run.specs.Steps.{IsAnswered, PutsText, reply_text_of, with_session};

use crate::put::put_lines;
use std::alloc::Global;
use tsdb_base::Memory;
use tsdb_history::Told;
use tsdb_outside::{Sink, StoreFault};
use tsdb_print::{print_order, print_reply, print_session};
use tsdb_script::Numbered;

/// Puts the output of a script and its history.
pub fn put_output<K: Sink>(
    alloc: Global,
    out: &mut K,
    script: &[Numbered],
    history: &[Told],
) -> Result<(), StoreFault>
    requires { IsAnswered script.now history.now }
    ensures { PutsText (K.held out.old) (K.held out.new) (output_text script.now history.now)
        (K.faults out.old) (K.faults out.new) result }
{
    let order = order(alloc, history)?;
    let sessions = sessions(alloc, script)?;
    for session in &sessions {
        put_part(alloc, out, *session, script, history)?;
    }
    put_lines(out, &print_order(alloc, &order)?)
}

/// The sessions of a script, in the order in which they first appear.
fn sessions(alloc: Global, script: &[Numbered]) -> Result<Vec<u16>, Memory>
    ensures { IfOk result (λ sessions. sessions.items ≡ distinct_sessions script.now) }
{
    let mut sessions = Vec::new(alloc);
    for numbered in script {
        add_session(&mut sessions, numbered.session)?;
    }
    Ok(sessions)
}

/// Appends a session that is not there.
fn add_session(sessions: &mut Vec<u16>, session: u16) -> Result<(), Memory>
    ensures { OnOk result (sessions.new.items ≡ with_session sessions.old.items session) }
{
    if !sessions.contains(&session) {
        sessions.push(session)?;
    }
    Ok(())
}

/// The session of each reply.
fn order(alloc: Global, history: &[Told]) -> Result<Vec<u16>, Memory>
    ensures { IfOk result (λ order. order.items ≡ map (λ told. told.session) history.now) }
{
    Ok(history.iter().map(|told| told.session).collect(alloc)?)
}

/// Puts the heading of a session, and the replies to it.
fn put_part<K: Sink>(
    alloc: Global,
    out: &mut K,
    session: u16,
    script: &[Numbered],
    history: &[Told],
) -> Result<(), StoreFault>
    requires { IsAnswered script.now history.now }
    ensures { PutsText (K.held out.old) (K.held out.new) (session_part script.now history.now session)
        (K.faults out.old) (K.faults out.new) result }
{
    put_lines(out, &print_session(alloc, session)?)?;
    put_replies(alloc, out, session, script, history)
}

/// Puts the replies to a session.
fn put_replies<K: Sink>(
    alloc: Global,
    out: &mut K,
    session: u16,
    script: &[Numbered],
    history: &[Told],
) -> Result<(), StoreFault>
    requires { IsAnswered script.now history.now }
    ensures { PutsText (K.held out.old) (K.held out.new) (replies_text script.now history.now session)
        (K.faults out.old) (K.faults out.new) result }
{
    for at in 0..script.len() {
        put_reply(alloc, out, session, &script[at], &history[at])?;
    }
    Ok(())
}

/// Puts a reply, if it is to the session.
fn put_reply<K: Sink>(
    alloc: Global,
    out: &mut K,
    session: u16,
    numbered: &Numbered,
    told: &Told,
) -> Result<(), StoreFault>
    ensures { PutsText (K.held out.old) (K.held out.new) (reply_text_of session numbered.now told.now)
        (K.faults out.old) (K.faults out.new) result }
{
    if told.session != session {
        return Ok(());
    }
    put_lines(out, &print_reply(alloc, &numbered.command, &told.reply)?)
}
