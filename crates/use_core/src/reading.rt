//! What is read: a pin holds what a query reads, so that the core is free for other calls meanwhile. Depends on
//! tsdb_querying and tsdb_pins.
ghost use Rattle.std.specs.Prelude.{◌≡◌};
ghost use Rattle.tsdb_querying.specs.Flushing.{IsReady};

use crate::fault::Fault;
use std::alloc::Global;
use tsdb_base::Range;
use tsdb_model::{Item, Line};
use tsdb_outside::{Files, Journal};
use tsdb_path::Path;
use tsdb_pins::select;
use tsdb_querying::{Core, pin, unpin};

/// The rows of the items in the range. The pin goes back whatever came of the reading.
pub fn read<J: Journal, F: Files>(
    alloc: Global,
    core: &mut Core<J, F>,
    port: &mut F::Port,
    device: &Path,
    items: &[Item],
    range: &Range,
) -> Result<Vec<Line>, Fault>
    requires ready { IsReady (F.Port.store port.old) core.old }
    ensures ready { IsReady (F.Port.store port.old) core.new }
    ensures same_store { F.Port.store port.new ≡ F.Port.store port.old }
{
    let pin = match pin(core, device, items, range) {
        Ok(pin) => pin,
        Err(_) => return Err(Fault::Refused),
    };
    let lines = select(alloc, &pin, port);
    unpin(core, port, pin);
    match lines {
        Ok(lines) => Ok(lines),
        Err(fault) => Err(Fault::Store(fault)),
    }
}
