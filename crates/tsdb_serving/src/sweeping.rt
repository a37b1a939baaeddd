//! The sweep behind a command. Depends on tsdb_core.
ghost use Rattle.std.specs.Prelude.{◌≡◌, ◌≤◌};
ghost use Rattle.tsdb_core.specs.Core.{store_of};
ghost use Rattle.tsdb_core.specs.Out.{HandsOn};
ghost use Rattle.tsdb_serving.specs.Sweeping.{KeepsAllButOutgoing, LeavesRead};

use tsdb_core::Core;
use tsdb_outside::{Files, Journal};

/// Removes the files on their way out that are not read. One that cannot be removed is passed over.
pub fn sweep<J: Journal, F: Files>(core: &mut Core<J, F>, port: &mut F::Port)
    requires store { F.Port.store port.old ≡ store_of core.old }
    ensures swept { LeavesRead (F.Port.faults port.old) (F.Port.faults port.new) core.new }
    ensures listed { KeepsAllButOutgoing core.old core.new }
    ensures keeps_all { HandsOn core.old core.new }
    ensures same_store { F.Port.store port.new ≡ F.Port.store port.old }
    ensures later { F.Port.faults port.old ≤ F.Port.faults port.new }
{
    if core.outgoing().is_empty() {
        return;
    }
    let _ = core.sweep(port);
}
