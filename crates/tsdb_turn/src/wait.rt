//! Waiting for a ticket, and waking the next that waits. It depends on the turn's table, and on `bell`.
//!
//! A pass that waits looks for a while whether its ticket is served, the longer the sooner it comes next. Then it sets
//! the lowest bit of its bell, looks once more, and parks on the bell. A pass that leaves adds 1 to the bell of the
//! first that sleeps next, which clears that bit, and wakes it. Each ticket that is out has a bell of its own; where
//! the tickets pass 2^64 two may share one, and both are woken.
ghost use Rattle.std.specs.Prelude.{◌≡◌};
ghost use Rattle.tsdb_turn.specs.Steps.{HasTaken, Looks, MayTakeSlot, SitsWaiting, Teaches};

use crate::bell::ASLEEP;
use crate::logged::Logged;
use crate::turn::{DRAWN, SERVED, Turn};
use crate::view::{Await, Lesson, Ring, View};
use atomic_table::Seat;
use std::sync::Wait;
use std::{hint, thread};

// A pass that leaves looks at the bells of so many tickets, and wakes the first that sleeps. The second of them wakes
// ahead of its turn, and is up when that comes.
const WOKEN_AHEAD: u64 = 2;

// How often a pass looks before it sleeps: where it comes next, where it is among the next few, and else.
const NEXT_LOOKS: u32 = 4_000;

const NEAR_LOOKS: u32 = 200;

const FAR_LOOKS: u32 = 30;

const NEAR: u64 = 3;

// After so many looks it lets other threads run between two.
const QUICK_LOOKS: u32 = 10;

impl<V: Logged> Turn<V> {
    // Waits until the ticket is served, and takes the slot.
    pub(crate) fn wait<L: Lesson<V>, R: Wait>(
        &self,
        rt: &R,
        seat: &mut Seat<Option<V>, View<V>>,
        ticket: u64,
    )
        requires own { seat.old.table_id ≡ self.now.id }
        requires waiting { SitsWaiting ticket seat.old.me }
        requires lesson { Teaches V.Logged self.now L.learns }
        ensures own { (seat.new.table_id ≡ seat.old.table_id) × (seat.new.id ≡ seat.old.id) }
        ensures taken { HasTaken L.learns seat.old.me seat.new.me }
    {
        for _ in rt.forever() {
            if self.look_awhile::<L>(seat, ticket) || self.sleep::<L, R>(rt, seat, ticket) {
                return;
            }
        }
        unreachable!()
    }

    // Looks which ticket is served, and takes the slot where it is the own one.
    pub(crate) fn look<L: Lesson<V>>(&self, seat: &mut Seat<Option<V>, View<V>>, ticket: u64) -> u64
        requires own { seat.old.table_id ≡ self.now.id }
        requires waiting { SitsWaiting ticket seat.old.me }
        requires lesson { Teaches V.Logged self.now L.learns }
        ensures own { (seat.new.table_id ≡ seat.old.table_id) × (seat.new.id ≡ seat.old.id) }
        ensures looks { Looks L.learns ticket seat.old.me result seat.new.me }
    {
        self.table.shared.load::<Await<L>>(seat, SERVED)
    }

    // Looks until the ticket is served, or until it is time to sleep. Says whether the ticket is served.
    fn look_awhile<L: Lesson<V>>(&self, seat: &mut Seat<Option<V>, View<V>>, ticket: u64) -> bool
        requires own { seat.old.table_id ≡ self.now.id }
        requires waiting { SitsWaiting ticket seat.old.me }
        requires lesson { Teaches V.Logged self.now L.learns }
        ensures own { (seat.new.table_id ≡ seat.old.table_id) × (seat.new.id ≡ seat.old.id) }
        ensures takes { MayTakeSlot L.learns seat.old.me result seat.new.me }
    {
        for looks in 0..NEXT_LOOKS {
            let served = self.look::<L>(seat, ticket);
            if served == ticket {
                return true;
            }
            if looks >= patience(ticket.wrapping_sub(served)) {
                return false;
            }
            pause(looks);
        }
        false
    }

    // Announces its sleep, looks once more, and parks. Says whether the ticket is served.
    fn sleep<L: Lesson<V>, R: Wait>(
        &self,
        rt: &R,
        seat: &mut Seat<Option<V>, View<V>>,
        ticket: u64,
    ) -> bool
        requires own { seat.old.table_id ≡ self.now.id }
        requires waiting { SitsWaiting ticket seat.old.me }
        requires lesson { Teaches V.Logged self.now L.learns }
        ensures own { (seat.new.table_id ≡ seat.old.table_id) × (seat.new.id ≡ seat.old.id) }
        ensures takes { MayTakeSlot L.learns seat.old.me result seat.new.me }
    {
        let announced = self.announce(seat, ticket);
        match self.look_again::<L>(seat, ticket, announced) {
            None => true,
            Some(missed) => {
                self.park(rt, &missed, missed.word());
                false
            }
        }
    }

    // Wakes the first that sleeps of those that come next, by one call of the system at most.
    pub(crate) fn wake_next(&self, seat: &mut Seat<Option<V>, View<V>>, served: u64)
        requires own { seat.old.table_id ≡ self.now.id }
        ensures own { (seat.new.table_id ≡ seat.old.table_id) × (seat.new.id ≡ seat.old.id) }
        ensures seat { seat.new.me ≡ seat.old.me }
    {
        let shared = &self.table.shared;
        if shared.peek(DRAWN) == served {
            return;
        }
        for ahead in 0..WOKEN_AHEAD {
            let bell = self.bell_of(served.wrapping_add(ahead));
            if shared.peek(bell) & ASLEEP != 0 {
                shared.fetch_add::<Ring>(seat, bell, 1);
                shared.wake_all(bell);
                return;
            }
        }
    }
}

// How often a pass looks that is so far from its turn.
fn patience(ahead: u64) -> u32 {
    if ahead == 1 {
        NEXT_LOOKS
    } else if ahead <= NEAR {
        NEAR_LOOKS
    } else {
        FAR_LOOKS
    }
}

// Waits a moment between two looks.
fn pause(looks: u32) {
    if looks < QUICK_LOOKS {
        hint::spin_loop();
    } else {
        thread::yield_now();
    }
}
