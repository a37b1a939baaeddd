//! A pass: what one user of a turn knows of the value. It depends on the views of the table's seats.
ghost use Rattle.std.specs.Prelude.{◌≡◌, ◌<◌, ◌∷◌, [], None};
ghost use Rattle.tsdb_turn.specs.Passes.{seats_of};
ghost use Rattle.tsdb_turn.specs.Rule.{view};
ghost use Rattle.tsdb_turn.specs.Steps.{HasSeat, pass_known, pass_state};
ghost use Rattle.tsdb_turn.specs.declared.view.Stage.TheVariants.{Outside};

use crate::view::{PassMarks, View};
use atomic_table::Seat;
use std::marker::Model;
use std::snapshot::Snapshot;

/// The right to enter a turn, one user at a time. It has a number, and takes the bytes of that number and of one flag:
/// what it remembers of the value exists in proofs alone.
///
/// Contracts see a pass as a `PassState` of `specs/Passes.antt`.
#[derive(Drop)]
pub struct Pass<V> {
    pub(crate) number: u32,
    pub(crate) seat: Seat<Option<V>, View<V>>,
    pub(crate) marks: PassMarks<V>,
    pub(crate) entered: Option<Snapshot<V>>,
}

impl<V> Model for Pass<V> {
    ghost use Rattle.tsdb_turn.specs.Passes.{PassState};
    ghost use Rattle.tsdb_turn.specs.Steps.{HasSeat, pass_state};

    ghost Value = { PassState V };

    ghost view = { λ p. pass_state p.seat.table_id p.number p.marks p.entered };

    ghost invariant = { λ p. HasSeat (pass_state p.seat.table_id p.number p.marks p.entered) p.seat.me };
}

impl<V> Pass<V> {
    // A pass whose seat has one number and is outside.
    pub(crate) fn outside(
        number: u32,
        seat: Seat<Option<V>, View<V>>,
        marks: PassMarks<V>,
    ) -> Pass<V>
        requires { HasSeat (pass_state seat.table_id number marks None) seat.me }
        ensures { result ≡ pass_state seat.table_id number marks None }
    {
        Pass {
            number,
            seat,
            marks,
            entered: None,
        }
    }

    // The seat of a pass that is outside.
    pub(crate) fn into_seat(self) -> Seat<Option<V>, View<V>>
        requires { self.entered ≡ None }
        ensures own { result.table_id ≡ self.turn }
        ensures seat { result.me ≡ (view Outside (pass_known self ∷ []), []) }
    {
        let Pass {
            number: _,
            seat,
            marks: _,
            entered: _,
        } = self;
        seat
    }

    /// The number of the pass, below the number of seats of its turn.
    pub fn number(&self) -> u32
        ensures number { result ≡ self.now.number }
        ensures seats { result < seats_of self.now.turn }
    {
        self.number
    }
}
