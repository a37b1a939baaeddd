//! Which selects ask for aggregates. Depends on `command`.
ghost use Rattle.std.specs.Prelude.{◌≡◌};
ghost use Rattle.tsdb_model.specs.Apply as apply;

use crate::command::Item;

/// Whether an item asks for an aggregate, so that the reply is one line of aggregates.
pub fn ask_aggregates(items: &[Item]) -> bool
    ensures { result ≡ apply.ask_aggregates items.now }
{
    for item in items {
        if item.aggregate.is_some() {
            return true;
        }
    }
    false
}
