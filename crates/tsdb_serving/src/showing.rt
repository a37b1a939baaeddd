//! The listing of a store. Depends on tsdb_core.
ghost use Rattle.std.specs.Prelude.{IfOk};
ghost use Rattle.tsdb_core.specs.Listings.{TellsStore};
ghost use Rattle.tsdb_model.specs.declared.command.Command.{Command};
ghost use Rattle.tsdb_model.specs.declared.reply.Reply.{Reply};
ghost use Rattle.tsdb_serving.specs.Serving.{ServesCommand};

use tsdb_base::Memory;
use tsdb_core::Core;
use tsdb_model::Listing;
use tsdb_outside::{Files, Journal};

/// What the store holds.
pub fn show<J: Journal, F: Files>(core: &Core<J, F>) -> Result<Listing, Memory>
    ensures tells { IfOk result (TellsStore core.now) }
    ensures answers { IfOk result (λ listing. ServesCommand core.now core.now Command.ShowFiles (Reply.Files listing)) }
{
    core.show()
}
