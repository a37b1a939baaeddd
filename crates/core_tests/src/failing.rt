//! A list of steps while one call of the journal or of the files fails. Depends on `stops` and `stored`.
use crate::places::place_that_fails;
use crate::stops::{LAST, LIMIT, Row, STEPS, leaves};
use crate::stored::{Came, Stored, close_stored, open_stored};
use std::alloc::Global;
use std::test::Fail;
use tsdb_base::Answer;
use tsdb_core::Commit;
use tsdb_outside::{Files, Journal};

/// Whether that is what comes of a step with a call that fails. A file that could not be put ends its flush, and a
/// sweep finds a file less, or one more.
fn is_failure(came: Came) -> bool {
    match came {
        Came::Answered(Some(Answer::Device)) => true,
        Came::Ended(None) | Came::Ended(Some(Commit::Device)) => true,
        Came::Swept(_) => true,
        _ => false,
    }
}

/// Takes the steps, and once more each that failed but a sweep. How many failed; none where one came otherwise than it
/// should.
fn failures<J: Journal, F: Files>(
    alloc: Global,
    core: &mut Stored<J, F>,
    rows: &[Row],
) -> Result<Option<usize>, Fail> {
    let mut count = 0usize;
    for (step, wanted, _) in rows {
        let mut came = core.go(alloc, *step)?;
        if came != *wanted && is_failure(came) {
            count = count.saturating_add(1);
            came = match came {
                Came::Swept(_) => *wanted,
                _ => core.go(alloc, *step)?,
            };
        }
        if came != *wanted {
            return Ok(None);
        }
    }
    Ok(Some(count))
}

/// Whether some step fails while these calls fail, all come as they should the second time, and a stop at the end
/// leaves all records.
fn is_right(alloc: Global, journal: &[u64], files: &[u64]) -> Result<bool, Fail> {
    let mut place = place_that_fails(alloc, journal, files)?;
    let mut core = open_stored(alloc, &mut place, LIMIT, 1)?;
    let count = failures(alloc, &mut core, STEPS);
    close_stored(&mut place, core);
    let last = place.moments().saturating_sub(1);
    Ok(count?.is_some_and(|count| count > 0) && leaves(alloc, &place, last, LAST, LAST)?)
}

/// The first call of the journal, and of the files, at whose failure something is not as it should be.
fn first_apart(
    alloc: Global,
    journal: u64,
    files: u64,
) -> Result<(Option<u64>, Option<u64>), Fail> {
    let mut apart = (None, None);
    for call in 1..journal {
        if apart.0.is_none() && !is_right(alloc, &[call], &[])? {
            apart.0 = Some(call);
        }
    }
    for call in 1..files {
        if apart.1.is_none() && !is_right(alloc, &[], &[call])? {
            apart.1 = Some(call);
        }
    }
    Ok(apart)
}

// The steps append 14 records, each by four calls, put six files and remove two.
#[test]
fn each_call_fails_in_turn(rt: HostRuntime) -> Result<(), Fail> {
    assert_eq!(rt; first_apart(rt.alloc(), 57, 9)?, (None, None));
    Ok(())
}
