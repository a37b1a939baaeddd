//! The end of a core. Depends on tsdb_core.
ghost use Rattle.std.specs.Prelude.{◌≡◌, ◌≤◌, [], List, Option, Some, true};
ghost use Rattle.std.specs.Option.{IsSomeAnd};
ghost use Rattle.tsdb_history.specs.Closing.{IsCoreClosed};
ghost use Rattle.tsdb_model.specs.State as plain;
ghost use Rattle.tsdb_base.specs.Causes.{Rose};
ghost use Rattle.tsdb_frames.specs.Calls.{LeavesAside};
ghost use Rattle.tsdb_outside.specs.Files.{StoredFile};
ghost use Rattle.tsdb_querying.specs.Flushing.{IsReady, faults_under};
ghost use Rattle.tsdb_querying.specs.Serving.{IsServing, log_under};

use tsdb_outside::{Files, Journal};
use tsdb_querying::Core;

/// Closes a core: settles what is in doubt of its log, and puts its files to rest. Where no other file is at rest, those
/// that it kept are stored then.
pub fn close<J: Journal, F: Files>(core: Core<J, F>, files: &mut F) -> J
    requires ready { IsReady (F.store files.old) core }
    ensures closed { F.at_rest files.old ≡ Some [] → (put : List StoredFile) (at : plain.State)
        (next : Option plain.State) → IsServing [] core put at next → IsSomeAnd (F.at_rest files.new)
        (λ stored. IsCoreClosed core (J.state result) stored (Rose (faults_under core) (J.faults result)) put at next) }
    ensures aside { LeavesAside (log_under core) (J.state result) }
    ensures later { faults_under core ≤ J.faults result }
    ensures same_store { F.store files.new ≡ F.store files.old }
    ensures faults { F.faults files.new ≡ F.faults files.old }
{
    core.close(files)
}
