//! Reads a script, line by line, as the commands of its sessions. Depends on `lines`, `line`, `kept`, `numbered` and `fault`.
ghost use Rattle.std.specs.Prelude.{◌≡◌, ◌++◌, ◌∷◌, [], All, IfOk, IfErr};
ghost use Rattle.tsdb_model.specs.Commands.{IsWellFormed};
ghost use Rattle.tsdb_script.specs.LineSteps.{fault_at, AreDifferentOf, HasSessionRoom};
ghost use Rattle.tsdb_script.specs.Reading.{sessions_of, IsScript, RefusesScript};

use crate::fault::{LineFault, ScriptFault};
use crate::kept::KeptLists;
use crate::line::read_line;
use crate::lines::first_line;
use crate::numbered::Numbered;
use std::alloc::Global;
use std::collections::VecDeque;

/// The commands of a script, in the order of its lines, all of them well formed. Where a line is bad, the first bad
/// line and the kind of its fault:
///
/// - 1: no session from 1 to 999
/// - 2: no word that begins a statement
/// - 3: a byte that begins no token, or tokens that fit no form
/// - 4: no path, or no measurement
/// - 5: no integer of 64 bits, `true` or `false`
/// - 6: a text that is not closed or too long
/// - 7: too many names, or names that do not go together
/// - 8: no type, encoding or aggregate, or an encoding that does not suit the type
/// - 9: a limit of the line or the script is passed
pub fn read_script(alloc: Global, bytes: &[u8]) -> Result<Vec<Numbered>, ScriptFault>
    ensures found { IfOk result (λ script. IsScript bytes.now script.items) }
    ensures good { IfOk result (λ script. All (λ numbered. IsWellFormed numbered.command) script.items) }
    ensures bad { IfErr result (RefusesScript bytes.now) }
{
    let mut script = Vec::new(alloc);
    let mut sessions = Vec::new(alloc);
    let mut tokens = VecDeque::new(alloc);
    let mut kept = KeptLists::new(alloc);
    let mut rest = bytes;
    let mut number: u32 = 0;
    while !rest.is_empty() {
        let (line, others) = first_line(rest);
        let end = bytes.len() - others.len();
        number += 1;
        match read_line(
            alloc,
            line,
            end,
            script.as_slice(),
            sessions.as_slice(),
            &mut tokens,
            &mut kept,
        ) {
            Ok(Some(numbered)) => push(&mut script, &mut sessions, numbered)?,
            Ok(None) => {}
            Err(fault) => return Err(fault_at(number, fault)),
        }
        rest = others;
    }
    Ok(script)
}

/// Puts a command behind those before it, and its session among theirs, where each stands once.
fn push(
    script: &mut Vec<Numbered>,
    sessions: &mut Vec<u16>,
    numbered: Numbered,
) -> Result<(), ScriptFault>
    requires sessions { AreDifferentOf sessions.old.items (sessions_of script.old.items) }
    requires room { HasSessionRoom (sessions_of script.old.items) numbered.session }
    ensures script { IfOk result (λ _. script.new.items ≡ script.old.items ++ numbered ∷ []) }
    ensures sessions { IfOk result (λ _. AreDifferentOf sessions.new.items (sessions_of script.new.items)) }
    ensures memory { IfErr result (λ fault. fault ≡ ScriptFault.Memory) }
{
    if !sessions.as_slice().contains(&numbered.session) {
        sessions.push(numbered.session)?;
    }
    script.push(numbered)?;
    Ok(())
}

/// The fault of a script whose first bad line has this number and fault.
fn fault_at(line: u32, fault: LineFault) -> ScriptFault
    ensures { result ≡ fault_at line fault }
{
    match fault {
        LineFault::Bad { kind } => ScriptFault::Bad { line, kind },
        LineFault::Memory => ScriptFault::Memory,
    }
}
