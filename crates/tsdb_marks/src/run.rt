//! The versions that some marks of a series give to its moments. It depends on `tsdb_base`.
//!
//! A run is a list of steps that rise; each gives its version to the moments from its start on, up to the next step,
//! and version 0 stands for no mark. A moment is a time counted from the least one, so that it is no less than 0.
ghost use Rattle.std.specs.Prelude.{◌≡◌, ℕ, ◌+◌, ◌^◌, ◌<◌, ◌≤◌, cond, max, false, nat_le, IfOk, IsTrue, Option, Some};
ghost use Rattle.std.specs.Prelude.{get_or, length, suc};
ghost use Rattle.tsdb_marks.specs.Cursors.{next_start, GoesTo, IsFrom, IsCursorRead};
ghost use Rattle.tsdb_marks.specs.Merging.{lesser_moment as lesser_of};
ghost use Rattle.tsdb_marks.specs.Steps.{IsMet, AreStepsRising, IsMarkRun, IsUnmet, IsUntil, steps_of, version_at};

use std::alloc::Global;
use tsdb_base::Memory;

/// From this moment on the version is this one.
#[derive(Clone, Copy, Debug, PartialEq, Eq)]
pub(crate) struct Step {
    pub(crate) start: u64,
    pub(crate) version: u64,
}

/// Steps in order, and a version that is no less than theirs.
#[derive(Drop)]
pub(crate) struct Run {
    pub(crate) steps: Vec<Step>,
    pub(crate) newest: u64,
}

/// A place in the steps of a run, and the version of the step before it.
#[derive(Clone, Copy)]
struct Cursor<'a> {
    steps: &'a [Step],
    read: usize,
    version: u64,
}

impl Cursor<'_> {
    /// Where the next step begins.
    fn next(&self) -> Option<u64>
        ensures { result ≡ next_start self.now }
    {
        match self.steps.get(self.read) {
            Some(step) => Some(step.start),
            None => None,
        }
    }

    /// Reads the step at the moment, where there is one.
    fn go_to(&mut self, moment: u64)
        ensures { (bound : ℕ) → IsCursorRead self.old bound → bound ≤ moment → IsFrom moment (next_start self.old)
            → GoesTo self.old self.new moment }
    {
        if let Some(step) = self.steps.get(self.read) {
            if step.start <= moment {
                self.read += 1;
                self.version = step.version;
            }
        }
    }
}

/// The lesser of two moments, of which each may be missing.
fn lesser(first: Option<u64>, second: Option<u64>) -> Option<u64>
    ensures { result ≡ lesser_of first second }
{
    match (first, second) {
        (Some(first), Some(second)) => Some(first.min(second)),
        (Some(first), None) => Some(first),
        (None, second) => second,
    }
}

/// How many steps begin at the moment or before it.
fn count_until(steps: &[Step], moment: u64) -> usize
    requires { AreStepsRising steps.now }
    ensures { IsUntil steps.now moment result }
{
    steps.partition_point(|step| step.start <= moment)
}

/// The version of the last of so many steps; 0 of none.
fn version_before(steps: &[Step], count: usize) -> u64
    requires { count ≤ length steps.now }
    ensures none { count ≡ 0 → result ≡ 0 }
    ensures last { (k : ℕ) (d : Step) → suc k ≡ count → result ≡ (get_or steps.now k d).version }
{
    if count == 0 {
        return 0;
    }
    steps[count - 1].version
}

impl Run {
    /// The version over the moments of a range.
    pub(crate) fn of_range(alloc: Global, from: u64, to: u64, version: u64) -> Result<Run, Memory>
        requires { from ≤ to }
        ensures run { IfOk result IsMarkRun }
        ensures versions { IfOk result (λ run. (moment : ℕ) → moment < 2 ^ 64 → version_at (steps_of run) moment
            ≡ cond (nat_le from moment) (cond (nat_le moment to) version 0) 0) }
    {
        let mut steps = Vec::with_capacity(alloc, 2)?;
        steps.push(Step {
            start: from,
            version,
        })?;
        if to < u64::MAX {
            steps.push(Step {
                start: to + 1,
                version: 0,
            })?;
        }
        Ok(Run {
            steps,
            newest: version,
        })
    }

    /// The greater version of the two at each moment.
    pub(crate) fn merge(&self, other: &Run) -> Result<Run, Memory>
        requires first { IsMarkRun self.now }
        requires second { IsMarkRun other.now }
        ensures run { IfOk result IsMarkRun }
        ensures versions { IfOk result (λ run. (moment : ℕ) → version_at (steps_of run) moment
            ≡ max (version_at (steps_of self.now) moment) (version_at (steps_of other.now) moment)) }
    {
        let count = self.steps.len().saturating_add(other.steps.len());
        let mut steps = Vec::with_capacity(*self.steps.allocator(), count)?;
        let mut first = Cursor {
            steps: self.steps.as_slice(),
            read: 0,
            version: 0,
        };
        let mut second = Cursor {
            steps: other.steps.as_slice(),
            read: 0,
            version: 0,
        };
        let (mut version, mut newest) = (0u64, 0u64);
        while let Some(start) = lesser(first.next(), second.next()) {
            first.go_to(start);
            second.go_to(start);
            let greater = first.version.max(second.version);
            if greater != version {
                steps.push(Step {
                    start,
                    version: greater,
                })?;
                version = greater;
                newest = newest.max(version);
            }
        }
        Ok(Run { steps, newest })
    }

    /// Whether a version greater than `born` holds at a moment of the range.
    pub(crate) fn meets(&self, from: u64, to: u64, born: u64) -> bool
        requires run { IsMarkRun self.now }
        requires range { from ≤ to }
        ensures met { IsTrue result → IsMet (version_at (steps_of self.now)) from to born }
        ensures unmet { result ≡ false → IsUnmet (version_at (steps_of self.now)) from to born }
    {
        let steps = self.steps.as_slice();
        let first = count_until(steps, from);
        if version_before(steps, first) > born {
            return true;
        }
        let mut at = first;
        while at < steps.len() && steps[at].start <= to {
            if steps[at].version > born {
                return true;
            }
            at += 1;
        }
        false
    }
}
