//! The turn: two words for tickets, a bell for each seat, and one slot for the value. It depends on the rule in `view`,
//! on `pass`, and on `wait` and `bell`, which have all that is done about sleepers.
//!
//! One word counts the tickets that were drawn and one those that were served, both modulo 2^64. A user draws a ticket,
//! waits until it is the one that is served, and takes the value out of the slot. To leave, it puts a value into the
//! slot and serves the next ticket.
ghost use Rattle.std.specs.Prelude.{◌≡◌, ◌<◌, ◌^◌, [], ◌∷◌, IfOk, IfErr, All, Some, None, map, vec_len};
ghost use Rattle.std.specs.Vec.{vec_capacity};
ghost use Rattle.tsdb_turn.specs.Passes.{FollowsPass, MayLeave, IsOutside, IsLastOf, AreNumbered, new_passes, seats_of};
ghost use Rattle.tsdb_turn.specs.Rule.{view};
ghost use Rattle.tsdb_turn.specs.Steps.{Draws, LeavesValue, SitsOutside, HasSlot, MayPutBack};
ghost use Rattle.tsdb_turn.specs.Steps.{IsMarkedBy, AreOpeningWords, dealt, pass_known};
ghost use Rattle.tsdb_turn.specs.Values.{IsTurnKept};
ghost use Rattle.tsdb_turn.specs.declared.view.Stage.TheVariants.{Outside};

use crate::logged::Logged;
use crate::pass::Pass;
use crate::view::{Deal, Depart, Draw, Gather, Opened, PassMarks, TurnRule, View};
use atomic_table::{Refused as NoTable, Seat, Table};
use std::alloc::{AllocError, Global};
use std::marker::{Brand, Model};
use std::snapshot::Snapshot;
use std::sync::Wait;

// The words of the tickets that were drawn, and of those that were served. Each has 64 bytes of its own, so that a
// thread which draws does not slow those that look.
pub(crate) const DRAWN: usize = 0;

pub(crate) const SERVED: usize = 8;

// Where the bells begin.
pub(crate) const BELLS: usize = 16;

// The first ticket is drawn shortly before the tickets pass 2^64, so that every user and every test sees that.
const FIRST_TICKET: u64 = u64::MAX - 500;

/// There was no memory. The value comes back.
#[derive(Drop)]
pub struct Refused<V> {
    pub value: V,
}

/// A value that its users take in turns.
///
/// Contracts see it as a `TurnState` of `specs/Passes.antt`.
pub struct Turn<V: Logged> {
    pub(crate) table: Table<Option<V>, View<V>, Opened<V>, TurnRule, Global>,
}

impl<V: Logged> Model for Turn<V> {
    ghost use Rattle.tsdb_turn.specs.Passes.{TurnState};
    ghost use Rattle.tsdb_turn.specs.Steps.{IsLaid, turn_state};

    ghost Value = { TurnState V };

    ghost view = { λ t. turn_state t.table.shared.table_id t.table.shared.key };

    ghost invariant = { λ t. IsLaid t.table.shared.table_id t.table.shared.key.seats };
}

impl<V: Logged> Turn<V> {
    /// Makes a turn over `value`, and one pass for each of its `seats`, with the numbers from 0 on. `Refused` means
    /// that memory ran out.
    pub fn new(alloc: Global, value: V, seats: u32) -> Result<(Turn<V>, Vec<Pass<V>>), Refused<V>>
        requires seats { 0 < seats }
        requires empty { V.entries_of value ≡ [] }
        requires start { V.comes_from value value }
        ensures turn { IfOk result (λ made. (made.0.start ≡ value) × (made.0.seats ≡ seats)) }
        ensures passes { IfOk result (λ made. made.1.items ≡ new_passes made.0.id value 0 seats) }
        ensures refused { IfErr result (λ refused. refused.value ≡ value) }
    {
        let Ok(marks) = marks_of(alloc, &value, seats) else {
            return Err(Refused { value });
        };
        let Ok(mut passes) = Vec::with_capacity(alloc, seats as usize) else {
            return Err(Refused { value });
        };
        let (turn, seat) = Turn::open(alloc, value, seats)?;
        turn.deal(seat, marks, &mut passes);
        Ok((turn, passes))
    }

    // A turn, and a seat that has all numbers.
    fn open(
        alloc: Global,
        value: V,
        seats: u32,
    ) -> Result<(Turn<V>, Seat<Option<V>, View<V>>), Refused<V>>
        requires seats { 0 < seats }
        requires empty { V.entries_of value ≡ [] }
        requires start { V.comes_from value value }
        ensures turn { IfOk result (λ made. (made.0.start ≡ value) × (made.0.seats ≡ seats)) }
        ensures own { IfOk result (λ made. made.1.table_id ≡ made.0.id) }
        ensures seat { IfOk result (λ made. made.1.me ≡ (view Outside (dealt value 0 seats), [])) }
        ensures refused { IfErr result (λ refused. refused.value ≡ value) }
    {
        let Ok(words) = words_of(alloc, seats) else {
            return Err(Refused { value });
        };
        let Ok(mut slots) = Vec::with_capacity(alloc, 1) else {
            return Err(Refused { value });
        };
        let about = Opened {
            seats,
            start: Snapshot::of(&value),
        };
        slots.push_reserved(Some(value));
        match Table::new(alloc, words.as_slice(), slots, &about) {
            Ok((table, seat)) => Ok((Turn { table }, seat)),
            Err(NoTable { mut slots }) => {
                let Some(Some(value)) = slots.pop() else {
                    unreachable!()
                };
                slots.destroy_empty();
                Err(Refused { value })
            }
        }
    }

    // Gives each pass a seat with one number.
    fn deal(
        &self,
        mut seat: Seat<Option<V>, View<V>>,
        mut marks: Vec<PassMarks<V>>,
        passes: &mut Vec<Pass<V>>,
    )
        requires own { seat.table_id ≡ self.now.id }
        requires seat { seat.me ≡ (view Outside (dealt self.now.start 0 self.now.seats), []) }
        requires marks { All (IsMarkedBy self.now.start) marks.items }
        requires count { vec_len marks ≡ self.now.seats }
        requires few { self.now.seats < 2 ^ 32 }
        requires room { (passes.old.items ≡ []) × (vec_capacity passes.old ≡ self.now.seats) }
        ensures { passes.new.items ≡ new_passes self.now.id self.now.start 0 self.now.seats }
    {
        let mut number = 0;
        while let Some(own_marks) = marks.pop() {
            let own = self.table.shared.split_seat::<Deal>(&mut seat);
            passes.push_reserved(Pass::outside(number, own, own_marks));
            number += 1;
        }
    }

    /// How many passes there are.
    pub fn seats(&self) -> u32
        ensures seats { result ≡ self.now.seats }
        ensures own { result ≡ seats_of self.now.id }
    {
        (self.table.word_count() - BELLS) as u32
    }

    /// Draws a ticket, waits until it is served and takes the value. It parks while it waits, and takes no memory.
    pub fn enter<R: Wait>(&self, rt: &R, pass: &mut Pass<V>) -> V
        requires { IsOutside self.now.id pass.old }
        ensures pass { pass.new ≡ record pass.old { entered = Some result } }
        ensures number { pass.old.number < self.now.seats }
        ensures start { pass.old.start ≡ self.now.start }
        ensures value { FollowsPass V.Logged pass.old result }
        ensures kept { IsTurnKept V.Logged self.now.seats self.now.start result }
    {
        let seat = &mut pass.seat;
        // The ticket is drawn before the first look: a pass that leaves and sees no ticket out wakes nobody, and then
        // this look finds that the ticket is served.
        let ticket = self.draw(seat);
        self.wait::<Brand, R>(rt, seat, ticket);
        let value = self.take(seat);
        pass.entered = Some(Snapshot::of(&value));
        value
    }

    // Draws a ticket, and gives it modulo 2^64.
    fn draw(&self, seat: &mut Seat<Option<V>, View<V>>) -> u64
        requires own { seat.old.table_id ≡ self.now.id }
        requires outside { SitsOutside seat.old.me }
        ensures own { (seat.new.table_id ≡ seat.old.table_id) × (seat.new.id ≡ seat.old.id) }
        ensures ticket { Draws seat.old.me result seat.new.me }
    {
        self.table.shared.fetch_add::<Draw>(seat, DRAWN, 1)
    }

    // Moves the value out of the slot.
    fn take(&self, seat: &mut Seat<Option<V>, View<V>>) -> V
        requires own { seat.old.table_id ≡ self.now.id }
        requires taken { HasSlot seat.old.me }
        ensures own { (seat.new.table_id ≡ seat.old.table_id) × (seat.new.id ≡ seat.old.id) }
        ensures value { seat.old.me.1 ≡ (0, Some result) ∷ [] }
        ensures seat { seat.new.me ≡ (seat.old.me.0, (0, None) ∷ []) }
    {
        let Some(value) = self.table.shared.exchange(seat, 0, None) else {
            unreachable!()
        };
        value
    }

    /// Gives the value back and serves the next ticket. It takes no memory.
    pub fn leave(&self, pass: &mut Pass<V>, value: V)
        requires own { pass.old.turn ≡ self.now.id }
        requires value { MayLeave V.Logged pass.old value }
        ensures { pass.new ≡ record pass.old { last = value; entered = None } }
    {
        let left = Snapshot::of(&value);
        self.put_back(&mut pass.seat, value);
        pass.marks.last = left;
        pass.entered = None;
    }

    // Moves the value into the slot, and serves the next ticket.
    fn put_back(&self, seat: &mut Seat<Option<V>, View<V>>, value: V)
        requires own { seat.old.table_id ≡ self.now.id }
        requires inside { MayPutBack V.Logged seat.old.me value }
        ensures own { (seat.new.table_id ≡ seat.old.table_id) × (seat.new.id ≡ seat.old.id) }
        ensures left { LeavesValue seat.old.me value seat.new.me }
    {
        let shared = &self.table.shared;
        let empty = shared.exchange(seat, 0, Some(value));
        let None = empty else { unreachable!() };
        // The ticket is served before anybody is woken: a pass that announces its sleep too late for `wake_next` looks
        // once more behind that, and finds its ticket served.
        let served = shared.fetch_add::<Depart>(seat, SERVED, 1).wrapping_add(1);
        self.wake_next(seat, served);
    }

    /// Takes all passes and gives the value. It takes no memory.
    pub fn close(self, passes: Vec<Pass<V>>) -> V
        requires all { vec_len passes ≡ self.seats }
        requires outside { All (IsOutside self.id) passes.items }
        ensures value { All (λ pass. FollowsPass V.Logged pass result) passes.items }
        ensures last { IsLastOf passes.items result }
        ensures passes { AreNumbered self.seats passes.items }
        ensures kept { IsTurnKept V.Logged self.seats self.start result }
    {
        let seat = self.gather(passes);
        let Turn { table } = self;
        let mut closed = table.close_with(seat);
        let Some(value) = closed.take(0) else {
            unreachable!()
        };
        closed.free();
        value
    }

    // A seat with all numbers.
    fn gather(&self, mut passes: Vec<Pass<V>>) -> Seat<Option<V>, View<V>>
        requires some { 0 < vec_len passes }
        requires outside { All (IsOutside self.now.id) passes.items }
        ensures own { result.table_id ≡ self.now.id }
        ensures seat { result.me ≡ (view Outside (map pass_known passes.items), []) }
    {
        let Some(first) = passes.pop() else {
            unreachable!()
        };
        let mut seat = first.into_seat();
        while let Some(pass) = passes.pop() {
            self.table
                .shared
                .join_seat::<Gather>(&mut seat, pass.into_seat());
        }
        seat
    }
}

// Marks for each pass.
fn marks_of<V>(alloc: Global, value: &V, seats: u32) -> Result<Vec<PassMarks<V>>, AllocError>
    ensures count { IfOk result (λ marks. vec_len marks ≡ seats) }
    ensures marks { IfOk result (λ marks. All (IsMarkedBy value.now) marks.items) }
{
    let mut marks = Vec::with_capacity(alloc, seats as usize)?;
    for _ in 0..seats {
        marks.push_reserved(PassMarks::of(value));
    }
    Ok(marks)
}

// The words at the opening: the first ticket at two places, and bells that nobody waits for.
fn words_of(alloc: Global, seats: u32) -> Result<Vec<u64>, AllocError>
    ensures { IfOk result (λ words. AreOpeningWords seats FIRST_TICKET words.items) }
{
    let mut words = vec![in alloc; 0u64; BELLS + seats as usize]?;
    words[DRAWN] = FIRST_TICKET;
    words[SERVED] = FIRST_TICKET;
    Ok(words)
}
