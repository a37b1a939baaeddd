//! Reads a line as a command of a session: the passes over it, in their order. Depends on `lines`, `lexer`, `parser`,
//! `meaning`, `before`, `kept`, `numbered` and `fault`.
ghost use Rattle.std.specs.Prelude.{◌≡◌, ◌↔◌, ◌≤◌, ℕ, All, length, false, IsTrue, IfOk, IfErr, IfSome, IfNone};
ghost use Rattle.tsdb_model.specs.Commands.{IsWellFormed};
ghost use Rattle.tsdb_base.specs.Limits.{max_commands, max_line_bytes, max_script_bytes};
ghost use Rattle.tsdb_script.specs.Reading.{content_of, is_skipped, sessions_of, BeginsStatement, IsBadLine, IsCommand};
ghost use Rattle.tsdb_script.specs.Reading.{IsSession, IsSkipped};
ghost use Rattle.tsdb_script.specs.LineSteps.{script_line_at, AreDifferentOf, HasNoSession, HasSessionRoom, HasSession};
ghost use Rattle.tsdb_script.specs.Steps.{FaultsWith};

use crate::before::last_insert;
use crate::fault::LineFault;
use crate::kept::KeptLists;
use crate::lexer::read_tokens;
use crate::lines::{begins_with, content, is_skipped};
use crate::meaning::command_of;
use crate::numbered::Numbered;
use crate::parser::{Tokens, begins_form, statement};
use crate::token::{Token, WordToken};
use std::alloc::Global;
use std::str;
use tsdb_base::limits::{MAX_COMMANDS, MAX_LINE_BYTES, MAX_SCRIPT_BYTES, MAX_SESSIONS};

/// A limit is passed.
const PAST_LIMIT: LineFault = LineFault::Bad { kind: 9 };

/// The line does not begin with a session.
const NO_SESSION: LineFault = LineFault::Bad { kind: 1 };

/// No statement begins with what stands behind the session.
const NO_STATEMENT: LineFault = LineFault::Bad { kind: 2 };

/// The command of a line, where it is not skipped. The line ends so many bytes behind the beginning of the script.
/// The commands before it are `script`, and their sessions, each once, are `sessions`. The lists are those of the
/// line before, which take no memory again.
pub fn read_line<'a>(
    alloc: Global,
    line: &'a [u8],
    end: usize,
    script: &[Numbered],
    sessions: &[u16],
    tokens: &mut Tokens<'a>,
    kept: &mut KeptLists<'a>,
) -> Result<Option<Numbered>, LineFault>
    requires sessions { AreDifferentOf sessions.now (sessions_of script.now) }
    requires good { All (λ numbered. IsWellFormed numbered.command) script.now }
    ensures command { IfOk result (λ said. IfSome said (IsCommand (script_line_at line.now script.now end))) }
    ensures skipped { IfOk result (λ said. IfNone said (IsSkipped (script_line_at line.now script.now end))) }
    ensures bad { IfErr result (FaultsWith (IsBadLine (script_line_at line.now script.now end))) }
{
    if end > MAX_SCRIPT_BYTES {
        return Err(PAST_LIMIT);
    }
    if is_skipped(line) {
        return Ok(None);
    }
    if line.len() > MAX_LINE_BYTES {
        return Err(PAST_LIMIT);
    }
    let numbered = read_command(alloc, line, end, script, sessions, tokens, kept)?;
    Ok(Some(numbered))
}

/// The command of a line that is not skipped, and within its limits.
fn read_command<'a>(
    alloc: Global,
    line: &'a [u8],
    end: usize,
    script: &[Numbered],
    sessions: &[u16],
    tokens: &mut Tokens<'a>,
    kept: &mut KeptLists<'a>,
) -> Result<Numbered, LineFault>
    requires says { is_skipped line.now ≡ false }
    requires line_bytes { length line.now ≤ max_line_bytes }
    requires script_bytes { end ≤ max_script_bytes }
    requires sessions { AreDifferentOf sessions.now (sessions_of script.now) }
    requires good { All (λ numbered. IsWellFormed numbered.command) script.now }
    ensures command { IfOk result (IsCommand (script_line_at line.now script.now end)) }
    ensures bad { IfErr result (FaultsWith (IsBadLine (script_line_at line.now script.now end))) }
{
    read_tokens(content(line), tokens)?;
    let session = session(tokens)?;
    if !has_room(script, sessions, session) {
        return Err(PAST_LIMIT);
    }
    if !begins_statement(tokens) {
        return Err(NO_STATEMENT);
    }
    let syntax = statement(alloc, tokens, kept)?;
    let command = command_of(alloc, &syntax, &last_insert(script))?;
    kept.take_back(syntax);
    Ok(Numbered { session, command })
}

/// Takes the session that the tokens begin with.
fn session(tokens: &mut Tokens) -> Result<u16, LineFault>
    ensures found { IfOk result (HasSession tokens.old.items tokens.new.items) }
    ensures bad { IfErr result (FaultsWith (HasNoSession tokens.old.items)) }
{
    match tokens.pop_front() {
        Some(Token::Word(word)) => session_of(&word).ok_or(NO_SESSION),
        _ => Err(NO_SESSION),
    }
}

/// The session that a word names.
fn session_of(word: &WordToken) -> Option<u16>
    ensures found { IfSome result (IsSession word.now) }
    ensures none { IfNone result ((session : ℕ) → ¬ IsSession word.now session) }
{
    let bytes = word.bytes();
    if bytes.len() > 3 || begins_with(bytes, b'0') || begins_with(bytes, b'+') {
        return None;
    }
    str::from_utf8(bytes).ok()?.parse().ok()
}

/// Whether a script of these commands may go on with one of this session.
fn has_room(script: &[Numbered], sessions: &[u16], session: u16) -> bool
    requires { AreDifferentOf sessions.now (sessions_of script.now) }
    ensures { IsTrue result ↔ HasSessionRoom (sessions_of script.now) session }
{
    script.len() < MAX_COMMANDS && (sessions.len() < MAX_SESSIONS || sessions.contains(&session))
}

/// Whether the tokens begin with a word that begins a statement.
fn begins_statement(tokens: &Tokens) -> bool
    ensures { IsTrue result ↔ BeginsStatement tokens.now.items }
{
    match tokens.front() {
        Some(token) => begins_form(token),
        None => false,
    }
}
