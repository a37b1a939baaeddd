//! The top call: words, source and sink in, status and history out. Depends on all other modules.
ghost use Rattle.std.specs.Prelude.{◌≡◌, ◌≢◌, ◌⊎◌, ◌↔◌, ◌+◌, ◌-◌, ◌^◌, ◌≤◌, min, ℕ, List, [], Some, IfSome, count_by};
ghost use Rattle.std.specs.declared.option.Option.{Option};
ghost use Rattle.std.specs.Io.KnownBytes.{IsAtEnd};
ghost use Rattle.tsdb_recover.specs.Limits.{IsPairLimit};
ghost use Rattle.tsdb_history.specs.History.{IsInLineOrder, told_device};
ghost use Rattle.tsdb_model.specs.State as plain;
ghost use Rattle.tsdb_base.specs.Causes.{Rose};
ghost use Rattle.tsdb_run.specs.Causes.{AreGoodWords, IsBeforeStore, IsDoneOrMemory, IsGoodScript, IsRefusedStore};
ghost use Rattle.tsdb_run.specs.Causes.{ReportsBad, ReportsDamageOf, TellsDevice, TellsFaults};
ghost use Rattle.tsdb_run.specs.Headline.{Headline, IsTakenUp, KeepsLineOrder};
ghost use Rattle.tsdb_run.specs.Input.{TakesPrefix};
ghost use Rattle.tsdb_run.specs.Output.{output_text};
ghost use Rattle.tsdb_run.specs.Steps.{IsAnswered, IsServedStatus, IsOutputWritten, whole_run};
ghost use Rattle.tsdb_run.specs.Store.{IsSoundPlace, IsSoundOrSilent, contents};
ghost use Rattle.tsdb_script.specs.Reading.{IsFirstBadLine, IsScript};
ghost use Rattle.tsdb_run.specs.Words.{AreWords};

use crate::asked::Asked;
use crate::input::read_input;
use crate::output::put_output;
use crate::status::{Ended, Status};
use crate::store::run_commands;
use crate::word::Word;
use std::alloc::Global;
use tsdb_base::List;
use tsdb_history::Told;
use tsdb_outside::{Place, Sink, Source, StoreFault};
use tsdb_script::Numbered;

/// Executes the script that the source gives on the store in the directory, and writes the output into the sink.
///
/// The words are `run`, a directory and options. The script is read to its end, up to one byte more than it may have,
/// then read as commands. Then the store is taken up and recovered, the commands are executed in the order of the
/// script's lines, and the store is closed and put down. Then the output is written, line by line. It may run out of
/// memory at any place but while commands are executed: there a command is answered `memory`.
///
/// The last three clauses say what must be returned: the first bad line, unless memory or the source failed first; for a
/// good script the damage of a damaged store; and for a good script on a sound store `Done`, unless memory ran out or a
/// count of faults rose.
pub fn run<S: Source, K: Sink, P: Place>(
    alloc: Global,
    words: &[Word],
    script: &mut S,
    out: &mut K,
    place: &mut P,
) -> Ended
    ensures headline { Headline result.status (record {
      words = words.now;
      left = S.left script.old;
      old = contents (P.state place.old) (P.stored place.old);
      new = contents (P.state place.new) (P.stored place.new);
      faults_before = P.faults place.old;
      faults_after = P.faults place.new;
      directory = P.asked place.new;
      history = result.history;
      held = K.held out.old;
      holds = K.held out.new;
    }) }
    ensures in_line_order { IfSome (S.left script.old) (λ bytes. KeepsLineOrder bytes result.history) }
    ensures whole_source { result.status ≡ Status.Done → IsAtEnd (S.left script.new) }
    ensures budget { TakesPrefix (S.left script.old) (S.left script.new) }
    ensures words { (result.status ≡ Status.Words) ↔ ¬ AreGoodWords words.now }
    ensures good_words { result.status ≢ Status.Words → AreGoodWords words.now }
    ensures source { TellsFaults Status.Source result.status (S.faults script.old) (S.faults script.new) }
    ensures sink { TellsFaults Status.Sink result.status (K.faults out.old) (K.faults out.new) }
    ensures device { TellsDevice result.status (IsTakenUp words.now (P.asked place.new)) (P.faults place.old)
        (P.faults place.new) }
    ensures devices { IsSoundOrSilent (contents (P.state place.old) (P.stored place.old))
        → min (P.faults place.old + count_by told_device result.history) (2 ^ 64 - 1) ≤ P.faults place.new }
    ensures refused { IsRefusedStore result.status → IfSome (S.left script.old) IsGoodScript }
    ensures source_untouched { result.status ≡ Status.Words → script.new ≡ script.old }
    ensures sink_untouched { IsBeforeStore result.status ⊎ IsRefusedStore result.status → out.new ≡ out.old }
    ensures place_untouched { IsBeforeStore result.status → place.new ≡ place.old }
    ensures first_bad { AreGoodWords words.now → IfSome (S.left script.old) (λ bytes. (line kind : ℕ)
        → IsFirstBadLine bytes line kind → ReportsBad result.status line kind) }
    ensures damaged { AreGoodWords words.now → IfSome (S.left script.old) (λ bytes. IsGoodScript bytes
        → ReportsDamageOf (contents (P.state place.old) (P.stored place.old)) result.status) }
    ensures complete { AreGoodWords words.now → IfSome (S.left script.old) (λ bytes. IsGoodScript bytes → (at : plain.State)
        → IsSoundPlace (contents (P.state place.old) (P.stored place.old)) at → ¬ Rose (S.faults script.old)
        (S.faults script.new)
        → ¬ Rose (K.faults out.old) (K.faults out.new) → ¬ Rose (P.faults place.old) (P.faults place.new)
        → IsDoneOrMemory result.status) }
{
    match read_input(alloc, words, script) {
        Ok((asked, commands)) => run_script(alloc, &commands, &asked, out, place),
        Err(status) => end_without_commands(alloc, status),
    }
}

/// Runs these commands of a script on the store in the directory.
fn run_script<K: Sink, P: Place>(
    alloc: Global,
    script: &[Numbered],
    asked: &Asked,
    out: &mut K,
    place: &mut P,
) -> Ended
    requires limit { IsPairLimit asked.now.pair_points }
    requires some { (bytes : List ℕ) × IsScript bytes script.now }
    ensures headline { (words : List (List ℕ)) (left : Option (List ℕ)) → AreWords words asked.now
        → IfSome left (λ bytes. IsScript bytes script.now) → Headline result.status (whole_run words left
        (contents (P.state place.old) (P.stored place.old)) (contents (P.state place.new) (P.stored place.new))
        (P.faults place.old) (P.faults place.new) (P.asked place.new) result.history (K.held out.old)
        (K.held out.new)) }
    ensures in_line_order { (result.history ≡ []) ⊎ IsInLineOrder script.now result.history }
    ensures statuses { IsServedStatus result.status }
    ensures sink { TellsFaults Status.Sink result.status (K.faults out.old) (K.faults out.new) }
    ensures device { TellsDevice result.status (P.asked place.new ≡ Some asked.now.directory) (P.faults place.old)
        (P.faults place.new) }
    ensures devices { IsSoundOrSilent (contents (P.state place.old) (P.stored place.old))
        → min (P.faults place.old + count_by told_device result.history) (2 ^ 64 - 1) ≤ P.faults place.new }
    ensures sink_untouched { IsRefusedStore result.status → out.new ≡ out.old }
    ensures damaged { ReportsDamageOf (contents (P.state place.old) (P.stored place.old)) result.status }
    ensures sound { (at : plain.State) → IsSoundPlace (contents (P.state place.old) (P.stored place.old)) at
        → IsRefusedStore result.status → Rose (P.faults place.old) (P.faults place.new) }
{
    match run_commands(alloc, place, asked, script) {
        Ok(history) => {
            let status = write_output(alloc, out, script, history.items());
            Ended { status, history }
        }
        Err(refused) => end_without_commands(alloc, refused),
    }
}

/// The status of a run that writes the output of a script and its history.
fn write_output<K: Sink>(
    alloc: Global,
    out: &mut K,
    script: &[Numbered],
    history: &[Told],
) -> Status
    requires { IsAnswered script.now history.now }
    ensures written { IsOutputWritten result (K.held out.old) (K.held out.new) (output_text script.now history.now) }
    ensures sink { TellsFaults Status.Sink result (K.faults out.old) (K.faults out.new) }
{
    match put_output(alloc, out, script, history) {
        Ok(()) => Status::Done,
        Err(StoreFault::Failed) => Status::Sink,
        Err(StoreFault::Memory) => Status::Memory,
    }
}

/// The end of a run that executed no command.
fn end_without_commands(alloc: Global, status: Status) -> Ended
    ensures status { result.status ≡ status }
    ensures history { result.history ≡ [] }
{
    Ended {
        status,
        history: List::of(Vec::new(alloc)),
    }
}
