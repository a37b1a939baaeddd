//! What is looked at in a store while its parts are taken up, in memory and in a directory of the system. Depends on
//! `steps`, `stops`, `folders` and `many`.
use crate::folders::{Item, are_made};
use crate::many::serves_many;
use crate::steps::{FileStep, SlotStep, files_answer, rights_read, slots_answer};
use crate::stops::{Left, has_left};
use std::mem::swap;
use tsdb_base::Memory;
use tsdb_outside::{Files, Journal, Place, StoreFault};

/// What is looked at.
#[derive(Clone, Copy)]
pub enum Look<'a> {
    Slots(&'a [SlotStep]),
    Files(&'a [FileStep]),
    Rights,
    /// What a stop left.
    Left(&'a Left),
    /// Files, once something else was put where the directory of the store was.
    Moved(&'a HostRuntime, &'a [Item], &'a [FileStep]),
    /// Nothing, while the store of another directory is refused.
    SharedWith(&'a [u8]),
    ManyFiles(&'a HostRuntime),
}

fn look_at<J: Journal, F: Files>(journal: &mut J, files: &mut F, look: &Look) -> bool {
    match *look {
        Look::Slots(steps) => slots_answer(journal, steps),
        Look::Files(steps) => files_answer(files, steps),
        Look::Rights => rights_read(files),
        Look::Left(left) => has_left(journal, files, left),
        Look::Moved(rt, items, steps) => are_made(rt, items) && files_answer(files, steps),
        Look::SharedWith(_) => true,
        Look::ManyFiles(rt) => serves_many(rt, files),
    }
}

// Whether a place is refused a store, with a fault.
fn is_refused<P: Place>(place: &mut P, dir: &[u8]) -> bool {
    match place.take_up(dir) {
        Ok((journal, files)) => {
            place.put_down(journal, files);
            false
        }
        Err(fault) => fault == StoreFault::Failed,
    }
}

// The directory that is refused while this one is looked at: the same, or one that shares a slot with it.
fn refused_meanwhile<'a>(dir: &'a [u8], look: &Look<'a>) -> &'a [u8] {
    match *look {
        Look::SharedWith(other) => other,
        _ => dir,
    }
}

// Whether a store has what is looked for. Meanwhile it is refused to the other place, or else to this one.
fn has<P: Place>(
    place: &mut P,
    other: &mut Option<P>,
    dir: &[u8],
    look: &Look,
) -> Result<bool, StoreFault> {
    let (mut journal, mut files) = place.take_up(dir)?;
    let also = refused_meanwhile(dir, look);
    let alone = match other {
        Some(other) => is_refused(other, also),
        None => is_refused(place, also),
    };
    let holds = look_at(&mut journal, &mut files, look);
    place.put_down(journal, files);
    Ok(alone && holds)
}

/// Whether the store of a directory has all of these, one behind another. If there is another place, both take turns.
pub fn has_all<P: Place>(
    place: &mut P,
    other: &mut Option<P>,
    dir: &[u8],
    looks: &[Look],
) -> Result<bool, StoreFault> {
    let mut answer = Ok(true);
    for look in looks {
        if matches!(answer, Ok(true)) {
            answer = has(place, other, dir, look);
        }
        if let Some(other) = other {
            swap(place, other);
        }
    }
    answer
}

/// The same of a place that was just made.
pub fn new_place_has<P: Place + Drop>(made: Result<P, Memory>, looks: &[Look]) -> bool {
    match made {
        Ok(mut place) => matches!(has_all(&mut place, &mut None, b"d", looks), Ok(true)),
        Err(_) => false,
    }
}
