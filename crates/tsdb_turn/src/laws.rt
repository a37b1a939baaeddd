//! Laws of a turn: what holds of the value that it gives, and that threads may share it. No body uses them. It depends on
//! the definitions and on `turn` alone.
ghost use Rattle.std.specs.Prelude.{ℕ};
ghost use Rattle.tsdb_turn.specs.Values.{IsReached, IsKeptByTurns};

use crate::logged::Logged;
use crate::turn::Turn;

/// A relation between the value at the opening and a later one.
pub trait Relation<V> {
    ghost relates: { V → V → Type 0 };
}

/// A relation that holds of the start and that each turn keeps holds of each value that is reached by turns. So it
/// holds of what `enter` and `close` return.
pub fn kept_by_turns<V: Logged, R: Relation<V>>()
    ensures { (seats : ℕ) → IsKeptByTurns V.Logged seats R.relates → (start value : V) → R.relates start start
        → IsReached V.Logged seats start value → R.relates start value }
{}

/// Threads may share the value.
fn is_shared<T: Sync>(_value: &T) {}

/// Threads may share a turn where its value may go to another thread.
pub fn a_turn_is_shared<V: Logged + Send>(turn: &Turn<V>) {
    is_shared(turn);
}
