//! Cases: steps of a core over a new store, and what comes of each. Depends on `stored` and `places`.
use crate::places::place_of;
use crate::stored::{Came, Step, Stored, close_stored, open_stored};
use std::alloc::Global;
use std::process::Abort;
use std::test::Fail;
use tsdb_base::Answer;
use tsdb_core::Commit;
use tsdb_outside::{Files, Journal};

/// A core with this pair limit, whose next file gets this number; steps with what comes of each; and what it has at the
/// end.
#[derive(Clone, Copy)]
pub struct Case {
    pub limit: u64,
    pub next: u64,
    pub steps: &'static [(Step, Came)],
    pub end: End,
}

/// What a core has at the end.
#[derive(Clone, Copy)]
pub enum End {
    /// As `counts` of the core has them.
    Counts([u64; 5]),
    Listing(&'static str),
}

pub const FREEZE: Step = Step::Ask("F");

/// Flushes the oldest pair, whenever it was frozen.
pub const FLUSH: Step = Step::Flush(u64::MAX);

pub const OK: Came = Came::Answered(Some(Answer::Done));

/// A flush has to come first.
pub const WAITS: Came = Came::Answered(None);

pub const DONE: Came = Came::Ended(Some(Commit::Done));

/// Takes the steps. The place of the first that does not come as it should, or their number where the end is not as it
/// should be.
fn first_wrong_step<J: Journal, F: Files>(
    alloc: Global,
    core: &mut Stored<J, F>,
    case: &Case,
) -> Result<Option<usize>, Fail> {
    for place in 0..case.steps.len() {
        let (step, wanted) = case.steps[place];
        if core.go(alloc, step)? != wanted {
            return Ok(Some(place));
        }
    }
    let ends = match case.end {
        End::Counts(counts) => core.counts() == counts,
        End::Listing(text) => core.lists(alloc, text),
    };
    Ok((!ends).then_some(case.steps.len()))
}

/// The first wrong step over a new store, the journal of which fails at this call, 0 for none.
fn serve(alloc: Global, case: &Case, call: u64) -> Result<Option<usize>, Fail> {
    let mut place = place_of(alloc, &[call])?;
    let mut core = open_stored(alloc, &mut place, case.limit, case.next)?;
    let wrong = first_wrong_step(alloc, &mut core, case);
    close_stored(&mut place, core);
    wrong
}

/// Asserts that each case goes as it says where this call of the journal fails, 0 for none.
pub fn assert_cases(rt: &impl Abort, alloc: Global, cases: &[Case], call: u64) -> Result<(), Fail> {
    for place in 0..cases.len() {
        let wrong = serve(alloc, &cases[place], call)?;
        assert_eq!(rt; wrong, None, "the step of case {place} at call {call}");
    }
    Ok(())
}
