//! What a run reads before it touches the store: its words, and the script from its source. Depends on `status`.
ghost use Rattle.std.specs.Prelude.{◌≡◌, IfErr, IfOk, Err, OnOk};
ghost use Rattle.std.specs.Result.{IsErrOf};
ghost use Rattle.tsdb_recover.specs.Limits.{IsPairLimit};
ghost use Rattle.tsdb_outside.specs.Causes.{HasStoreCause};
ghost use Rattle.tsdb_run.specs.Causes.{TellsFaults};
ghost use Rattle.tsdb_run.specs.Input.{TakesPrefix, TakesScript};
ghost use Rattle.tsdb_run.specs.Steps.{EndsInput, IsScriptReadFrom, script_status};
ghost use Rattle.tsdb_run.specs.Words.{AreWords};

use crate::asked::Asked;
use crate::read::read_words;
use crate::status::Status;
use crate::word::Word;
use std::alloc::Global;
use tsdb_base::limits::MAX_SCRIPT_BYTES;
use tsdb_outside::{Source, StoreFault};
use tsdb_script::{Numbered, ScriptFault, read_script};

/// The bytes that are asked for at a time.
const PIECE_BYTES: usize = 65_536;

/// What the words ask for, and the commands of the script; or the status of a run that ends here. The source is read to
/// its end, up to one byte more than a script may have, before its first line is read as a command.
pub fn read_input<'a, S: Source>(
    alloc: Global,
    words: &'a [Word],
    script: &mut S,
) -> Result<(Asked<'a>, Vec<Numbered>), Status>
    ensures words { IfOk result (λ input. AreWords words.now input.0) }
    ensures limit { IfOk result (λ input. IsPairLimit input.0.pair_points) }
    ensures script { IfOk result (λ input. IsScriptReadFrom (S.left script.old) (S.left script.new) input.1.items) }
    ensures status { IfErr result (EndsInput words.now (S.left script.old)) }
    ensures untouched { IsErrOf result Status.Words → script.new ≡ script.old }
    ensures budget { TakesPrefix (S.left script.old) (S.left script.new) }
    ensures no_fault { OnOk result (S.faults script.new ≡ S.faults script.old) }
    ensures source { IfErr result (λ status. TellsFaults Status.Source status (S.faults script.old)
        (S.faults script.new)) }
{
    let Some(asked) = read_words(words) else {
        return Err(Status::Words);
    };
    let bytes = match take_script(alloc, script) {
        Ok(bytes) => bytes,
        Err(StoreFault::Failed) => return Err(Status::Source),
        Err(StoreFault::Memory) => return Err(Status::Memory),
    };
    match read_script(alloc, &bytes) {
        Ok(commands) => Ok((asked, commands)),
        Err(fault) => Err(status_of(fault)),
    }
}

/// Why a script was not read, as the status of a run.
fn status_of(fault: ScriptFault) -> Status
    ensures { result ≡ script_status fault }
{
    match fault {
        ScriptFault::Bad { line, kind } => Status::Script { line, kind },
        ScriptFault::Memory => Status::Memory,
    }
}

/// The bytes of the script, or of a script that is too long the first ones up to the one that is too many.
fn take_script<S: Source>(alloc: Global, script: &mut S) -> Result<Vec<u8>, StoreFault>
    ensures script { IfOk result (λ bytes. TakesScript (S.left script.old) (S.left script.new) bytes.items) }
    ensures prefix { TakesPrefix (S.left script.old) (S.left script.new) }
    ensures count { ¬ IsErrOf result StoreFault.Failed → S.faults script.new ≡ S.faults script.old }
    ensures cause { HasStoreCause (S.faults script.old) (S.faults script.new) result }
{
    let mut bytes = Vec::new(alloc);
    let mut piece = [0; PIECE_BYTES];
    while bytes.len() <= MAX_SCRIPT_BYTES {
        let room = (MAX_SCRIPT_BYTES + 1 - bytes.len()).min(PIECE_BYTES);
        let count = script.take(&mut piece[..room])?;
        if count == 0 {
            break;
        }
        bytes.extend_from_slice(&piece[..count])?;
    }
    Ok(bytes)
}
