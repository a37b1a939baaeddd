//! A merge over a supply of pages that tells nothing: in pages of one and of two points, and with a supply that fails
//! at each of its fills in turn. It depends on `merge`.
ghost use Rattle.std.specs.Prelude.{◌≡◌, ◌≤◌, ◌∷◌, [], None, replicate};

use crate::merge::{FAULTS, Pulled, is_pulled, point};
use std::alloc::{AllocError, Global};
use tsdb_base::Point;
use tsdb_merge::{LazyMerge, PullFault, Supply};

/// A table of sources and times that is read in pages of so many points.
#[derive(Drop)]
struct Reader<'a> {
    alloc: Global,
    table: &'a [(u8, i64)],
    page: usize,
    /// How many points of each source were taken.
    taken: [usize; 4],
}

/// Takes the next page of a source. It is empty where no point is left.
fn next_page(reader: &mut Reader, source: usize) -> Result<Vec<Point>, AllocError> {
    let taken = reader.taken.get(source).copied().unwrap_or(0);
    let mut points = Vec::new(reader.alloc);
    let mut place = 0usize;
    for (of, time) in reader.table {
        if usize::from(*of) == source {
            if taken <= place && points.len() < reader.page {
                points.push(point(*time, *of))?;
            }
            place = place.saturating_add(1);
        }
    }
    if let Some(count) = reader.taken.get_mut(source) {
        *count = taken.saturating_add(points.len());
    }
    Ok(points)
}

/// How many fills come before one that fails, and its fault.
type Fault = (u64, PullFault);

/// No fill fails.
const NEVER: Fault = (u64::MAX, PullFault::Memory);

/// Pages of several sources as a port has them: no contract is told what is in them.
#[derive(Drop)]
struct Pages<'a> {
    reader: Reader<'a>,
    count: usize,
    /// The most points that are still supplied.
    room: u64,
    /// How many fills still come before the fault.
    before: u64,
    fault: PullFault,
    failures: u64,
    damages: u64,
}

impl Supply for Pages<'_> {
    ghost left = { λ pages. replicate pages.count None };

    ghost most = { λ pages. pages.room };

    ghost keeps = { λ before now. Unit {0} };

    ghost failures = { λ pages. pages.failures ∷ [] };

    ghost damages = { λ pages. pages.damages ∷ [] };

    #[tactic(auto, using(crate::proofs::Untold::moves_untold))]
    fn fill(&mut self, source: usize, into: &mut Vec<Point>) -> Result<bool, PullFault> {
        if self.before == 0 {
            match self.fault {
                PullFault::Failed => self.failures = self.failures.saturating_add(1),
                PullFault::Damaged { at: _ } => self.damages = self.damages.saturating_add(1),
                PullFault::Memory => {}
            }
            return Err(self.fault);
        }
        self.before -= 1;
        let page = next_page(&mut self.reader, source)?;
        if page.is_empty() {
            return Ok(false);
        }
        match self.room.checked_sub(page.len() as u64) {
            Some(room) if page.len() <= 1000 => {
                self.room = room;
                *into = page;
                Ok(true)
            }
            _ => Err(PullFault::Memory),
        }
    }

    ghost keeps_none = { λ pages. tt };

    ghost keeps_then = { λ a b c one two. tt };
}

/// Pulls once. Whether it gave this, and at most so many points are in memory.
#[tactic(auto, using(crate::proofs::Untold::within_untold, crate::proofs::Untold::within_count))]
fn pulls(
    merge: &mut LazyMerge,
    supply: &mut Pages,
    wanted: Pulled,
    most: u64,
) -> Result<bool, PullFault>
    requires { merge.old.sources ≤ supply.old.count }
    ensures { merge.new.sources ≤ supply.new.count }
{
    match merge.pull(supply) {
        Ok(found) => Ok(is_pulled(&found, wanted) && merge.held() <= most),
        Err(fault) => Err(fault),
    }
}

/// The fault again, where one more pull answers it and nothing is in memory.
#[tactic(auto, using(crate::proofs::Untold::within_untold))]
fn answers_again(
    merge: &mut LazyMerge,
    supply: &mut Pages,
    fault: PullFault,
) -> Result<bool, PullFault>
    requires { merge.old.sources ≤ supply.old.count }
{
    if merge.pull(supply).err() == Some(fault) && merge.held() == 0 {
        Err(fault)
    } else {
        Ok(false)
    }
}

/// Whether the merge gives this, pull after pull, with at most so many points in memory. A fault that is repeated comes
/// out, where it was so up to the fault.
fn gives(
    merge: &mut LazyMerge,
    supply: &mut Pages,
    wanted: &[Pulled],
    most: u64,
) -> Result<bool, PullFault>
    requires { merge.old.sources ≤ supply.old.count }
{
    for pulled in wanted {
        match pulls(merge, supply, *pulled, most) {
            Ok(true) => {}
            Ok(false) => return Ok(false),
            Err(fault) => return answers_again(merge, supply, fault),
        }
    }
    Ok(true)
}

/// Late pages: the points of source 1 span those of source 0, and source 2 has the last word at one time.
const LATE: &[(u8, i64)] = &[
    (0, 0),
    (1, 0),
    (0, 1),
    (0, 2),
    (2, 2),
    (1, 3),
    (0, 3),
    (2, 3),
];

/// The last source of each time, and then the end.
const MERGED: &[Pulled] = &[Some((0, 1)), Some((1, 0)), Some((2, 2)), Some((3, 2)), None];

/// Whether the merge of three sources in pages of so many points gives this, with at most one page of each source in
/// memory, or its fault.
fn is_merged(alloc: Global, page: usize, (before, fault): Fault) -> Result<bool, PullFault> {
    let mut supply = Pages {
        reader: Reader {
            alloc,
            table: LATE,
            page,
            taken: [0; 4],
        },
        count: 3,
        room: LATE.len() as u64,
        before,
        fault,
        failures: 0,
        damages: 0,
    };
    let most = (page as u64).saturating_mul(3);
    match LazyMerge::new(alloc, supply.count) {
        Ok(mut merge) => gives(&mut merge, &mut supply, MERGED, most),
        Err(_) => Ok(false),
    }
}

#[test]
fn pages_are_merged_as_lists(rt: HostRuntime) {
    let alloc = rt.alloc();
    assert!(rt; is_merged(alloc, 1, NEVER) == Ok(true) && is_merged(alloc, 2, NEVER) == Ok(true));
}

/// The first of these faults that does not end the merge as it should, for each of the first ten fills. There are eight
/// pages, and three sources end.
fn first_wrong_fault(alloc: Global) -> Option<usize> {
    for (place, fault) in FAULTS.iter().enumerate() {
        for before in 0..10 {
            if is_merged(alloc, 1, (before, *fault)) != Err(*fault) {
                return Some(place);
            }
        }
    }
    None
}

#[test]
fn a_fault_of_a_fill_is_repeated(rt: HostRuntime) {
    let wrong = first_wrong_fault(rt.alloc());
    assert_eq!(rt; wrong, None);
}
