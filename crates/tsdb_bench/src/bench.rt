//! What the groups measure with: the clock, the rows of the table, and whether all went well. It depends on std and on
//! `fault`.

use crate::fault::Fault;
use std::alloc::{AllocError, Global};
use std::fmt::Debug;
use std::io;
use std::time::Instant;

/// What a row tells of the things that were done.
#[derive(Clone, Copy)]
pub enum Unit {
    /// How many millions of them in a second.
    Millions,
    /// How many in a second.
    Rate,
    /// How many milliseconds each took.
    Each,
}

/// What the groups measure with. The first error is printed on standard error. From then on no row is printed and no
/// other group is measured, and the end is a fault.
#[derive(Drop)]
pub struct Bench {
    rt: HostRuntime,
    /// Whether each thing is done once, and nothing is printed.
    is_quick: bool,
    /// When the measured step began.
    start: io::Result<Instant>,
    has_failed: bool,
}

impl Bench {
    pub fn new(rt: &HostRuntime, is_quick: bool) -> Bench {
        Bench {
            rt: *rt,
            is_quick,
            start: Instant::now(rt),
            has_failed: false,
        }
    }

    pub fn rt(&self) -> HostRuntime {
        self.rt
    }

    pub fn alloc(&self) -> Global {
        self.rt.alloc()
    }

    pub fn has_failed(&self) -> bool {
        self.has_failed
    }

    /// The number of rounds, where a group wants `many`.
    pub fn rounds(&self, many: u64) -> u64 {
        if self.is_quick { 1 } else { many }
    }

    /// Notes an error.
    pub fn fail<E: Debug + Drop>(&mut self, error: E) {
        if !self.has_failed {
            self.has_failed = true;
            let _ = eprintln!(self.rt; "{error:?}");
        }
    }

    /// Notes what does not hold.
    pub fn require(&mut self, holds: bool) {
        if !holds {
            self.fail(Fault::Unread);
        }
    }

    /// Lets the value go. An error is noted.
    pub fn note<T: Drop, E: Debug + Drop>(&mut self, outcome: Result<T, E>) {
        if let Err(error) = outcome {
            self.fail(error);
        }
    }

    /// The value. An error is noted.
    pub fn ok<T, E: Debug + Drop>(&mut self, outcome: Result<T, E>) -> Option<T> {
        match outcome {
            Ok(value) => Some(value),
            Err(error) => {
                self.fail(error);
                None
            }
        }
    }

    /// The list, or an empty one in place of an error, which is noted.
    pub fn list<T, E: Debug + Drop>(&mut self, outcome: Result<Vec<T>, E>) -> Vec<T> {
        match outcome {
            Ok(list) => list,
            Err(error) => {
                self.fail(error);
                Vec::new(self.alloc())
            }
        }
    }

    /// Appends an item, and notes where memory ran out.
    pub fn push<T: Drop>(&mut self, list: &mut Vec<T>, item: T) {
        if list.push(item).is_err() {
            self.fail(AllocError);
        }
    }

    /// Appends an item, where there is one.
    pub fn put<T: Drop>(&mut self, list: &mut Vec<T>, item: Option<T>) {
        if let Some(item) = item {
            self.push(list, item);
        }
    }

    /// Begins a step that is measured.
    pub fn start(&mut self) {
        self.start = Instant::now(&self.rt);
    }

    /// How many nanoseconds the step took, where its row is printed.
    fn nanos(&mut self) -> Option<u128> {
        let elapsed = match self.start {
            Ok(start) => start.elapsed(&self.rt),
            Err(error) => Err(error),
        };
        match self.ok(elapsed) {
            Some(elapsed) if !self.is_quick && !self.has_failed => Some(elapsed.as_nanos()),
            _ => None,
        }
    }

    /// Ends the measured step, and prints its row.
    pub fn row(&mut self, what: &str, step: &str, done: u64, unit: Unit) {
        let Some(nanos) = self.nanos() else {
            return;
        };
        let done = u128::from(done);
        let (thousandths, name) = match unit {
            Unit::Millions => (done * 1_000_000 / nanos.max(1), "million/s"),
            Unit::Rate => (done * 1_000_000_000_000 / nanos.max(1), "a second"),
            Unit::Each => (nanos / 1000 / done.max(1), "ms"),
        };
        let printed = println!(self.rt;
            "{what:<50} {step:<10} {:>8}.{:03} {name}",
            thousandths / 1000,
            thousandths % 1000
        );
        self.note(printed);
    }

    /// Whether all went well.
    pub fn end(self) -> Result<(), Fault> {
        if self.has_failed {
            Err(Fault::Failed)
        } else {
            Ok(())
        }
    }
}
