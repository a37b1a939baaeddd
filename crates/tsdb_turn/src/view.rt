//! What a seat of the table knows, the rule that every atomic step keeps, and what each step does. It depends on
//! `atomic_table`.
ghost use Rattle.std.specs.Prelude.{◌≡◌, ℕ};
ghost use Rattle.tsdb_turn.specs.Rule.{view};
ghost use Rattle.tsdb_turn.specs.Steps.{RuleOf, dealt, rest_of, first_view, join_views, spent, Draws, ReadsSlot};
ghost use Rattle.tsdb_turn.specs.Steps.{Departs};
ghost use Rattle.tsdb_turn.specs.declared.view.Stage.TheVariants.{Outside, Waiting};

use crate::logged::Logged;
use atomic_table::{Join, Play, Split, TableRule};
use std::collections::LinkedList;
use std::marker::{Brand, PhantomData};
use std::snapshot::Snapshot;

/// Where a seat stands. Its ticket has no upper bound here; the words have it modulo 2^64. No value of it is made.
pub enum Stage<T> {
    Outside,
    Waiting(u64),
    /// The ticket, and the value as it was taken.
    Inside(u64, T),
}

/// What a seat knows under one number: the value at the opening, and the value as it was last left under this number.
pub struct Known<T> {
    pub number: u32,
    pub start: T,
    pub last: T,
}

/// What a seat knows. No value of it is made.
pub struct View<T> {
    pub stage: Stage<T>,
    pub known: LinkedList<Known<T>>,
}

/// What the table is told when it is made.
#[derive(Drop)]
pub struct Opened<T> {
    pub seats: u32,
    pub start: Snapshot<T>,
}

/// What a pass remembers: the value at the opening, and the value as the pass last left it.
#[derive(Drop)]
pub struct PassMarks<V> {
    pub start: Snapshot<V>,
    pub last: Snapshot<V>,
}

impl<V> PassMarks<V> {
    /// The marks of a pass that has not entered yet.
    pub fn of(value: &V) -> PassMarks<V>
        ensures { (result.start.value ≡ value.now) × (result.last.value ≡ value.now) }
    {
        PassMarks {
            start: Snapshot::of(value),
            last: Snapshot::of(value),
        }
    }
}

/// The rule of the table, over what its users mean by a value.
pub struct TurnRule;

impl<V: Logged> TableRule<Option<V>, View<V>, Opened<V>> for TurnRule {
    ghost holds = { λ key. RuleOf V.Logged key.seats key.start.value };

    ghost first = { λ key. view Outside (dealt key.start.value 0 key.seats) };
}

/// Gives a new seat the first number.
pub struct Deal;

impl<T> Split<View<T>> for Deal {
    ghost left = { rest_of };

    ghost right = { first_view };
}

/// Takes in the numbers of another seat.
pub struct Gather;

impl<T> Join<View<T>> for Gather {
    ghost both = { join_views };

    ghost spent = { spent };
}

/// Draws a ticket.
pub struct Draw;

impl<T> Play<Option<T>, View<T>> for Draw {
    ghost then = { λ st me found after. Draws me found after };
}

/// What a seat learns when it takes the slot. It speaks of one turn, which a step cannot name, so each call picks it.
pub trait Lesson<T> {
    // Of the number, its start, the value as it was last left under it, and the value in the slot.
    ghost learns: { ℕ → T → T → T → Type 0 };
}

impl<T> Lesson<T> for Brand {
    ghost learns = { λ number start last value. Unit {0} };
}

/// Reads which ticket is served, and takes the slot where it is the own one.
pub struct Await<L> {
    lesson: PhantomData<L>,
}

impl<T, L: Lesson<T>> Play<Option<T>, View<T>> for Await<L> {
    ghost then = { λ st me found after. (t : ℕ) → me.0.stage ≡ Waiting t → ReadsSlot L.learns t me found after };
}

/// Changes a bell, which tells nothing.
pub struct Ring;

impl<T> Play<Option<T>, View<T>> for Ring {
    ghost then = { λ st me found after. after ≡ me };
}

/// Gives the slot back and serves the next ticket.
pub struct Depart;

impl<T> Play<Option<T>, View<T>> for Depart {
    ghost then = { λ st me found after. Departs me after };
}
