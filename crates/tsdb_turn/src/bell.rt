//! The sleep of a pass that waits: its announcement, the look behind it, and the park. It depends on the turn's table
//! and on `wait`.
//!
//! A leave may ring a bell between any two of these steps. So only a pass that has looked since its announcement may
//! park, and only on the word that it left at its announcement: where the bell was rung since, it does not sleep.
ghost use Rattle.std.specs.Prelude.{◌≡◌, ◌<◌, ◌≤◌, IfSome, is_none};
ghost use Rattle.tsdb_turn.specs.Rule.{bells_at};
ghost use Rattle.tsdb_turn.specs.Steps.{MayTakeSlot, SitsWaiting, Teaches};

use crate::logged::Logged;
use crate::turn::{BELLS, Turn};
use crate::view::{Lesson, Ring, View};
use atomic_table::Seat;
use std::sync::Wait;

// The bit of a bell that says that somebody sleeps, or is about to.
pub(crate) const ASLEEP: u64 = 1;

// A pass has announced its sleep: the bell, and the word that it left there. Only `announce` makes one.
#[derive(Drop)]
pub(crate) struct Announced {
    bell: usize,
    word: u64,
}

// A pass has looked since it announced its sleep, and its ticket was not served. Only `look_again` makes one.
#[derive(Drop)]
pub(crate) struct Missed {
    announced: Announced,
}

impl<V: Logged> Turn<V> {
    // Announces that the pass with this ticket sleeps.
    pub(crate) fn announce(&self, seat: &mut Seat<Option<V>, View<V>>, ticket: u64) -> Announced
        requires own { seat.old.table_id ≡ self.now.id }
        ensures own { (seat.new.table_id ≡ seat.old.table_id) × (seat.new.id ≡ seat.old.id) }
        ensures seat { seat.new.me ≡ seat.old.me }
        ensures bell { result.bell < self.now.id.words }
    {
        let bell = self.bell_of(ticket);
        let word = self.table.shared.fetch_or::<Ring>(seat, bell, ASLEEP) | ASLEEP;
        Announced { bell, word }
    }

    // Looks once more, behind the announcement. `None`: the ticket is served.
    pub(crate) fn look_again<L: Lesson<V>>(
        &self,
        seat: &mut Seat<Option<V>, View<V>>,
        ticket: u64,
        announced: Announced,
    ) -> Option<Missed>
        requires own { seat.old.table_id ≡ self.now.id }
        requires waiting { SitsWaiting ticket seat.old.me }
        requires lesson { Teaches V.Logged self.now L.learns }
        ensures own { (seat.new.table_id ≡ seat.old.table_id) × (seat.new.id ≡ seat.old.id) }
        ensures takes { MayTakeSlot L.learns seat.old.me (is_none result) seat.new.me }
        ensures missed { IfSome result (λ missed. missed.announced ≡ announced) }
    {
        if self.look::<L>(seat, ticket) == ticket {
            None
        } else {
            Some(Missed { announced })
        }
    }

    // Parks while the bell has this word, which has to be the announced one.
    pub(crate) fn park<R: Wait>(&self, rt: &R, missed: &Missed, word: u64)
        requires bell { missed.now.announced.bell < self.now.id.words }
        requires announced { word ≡ missed.now.announced.word }
    {
        self.table
            .shared
            .park(rt, missed.announced.bell, (word % (1 << 32)) as u32);
    }

    // The word that the pass with this ticket parks on.
    pub(crate) fn bell_of(&self, ticket: u64) -> usize
        ensures bell { bells_at ≤ result }
        ensures word { result < self.now.id.words }
    {
        let bells = self.table.word_count() - BELLS;
        BELLS + (ticket % bells as u64) as usize
    }
}

impl Missed {
    // The word that the pass left in its bell at its announcement.
    pub(crate) fn word(&self) -> u64
        ensures { result ≡ self.now.announced.word }
    {
        self.announced.word
    }
}
