//! The marks of one series: their versions, and which version each moment has. It depends on `run`.
//!
//! Runs stand from the oldest on, each at least twice as long as the next, so that they are about as many as the
//! logarithm of the marks, whatever their ranges. A new mark is a run, and the last two are merged until that holds.
ghost use Rattle.std.specs.Prelude.{◌≡◌, ℕ, ◌<◌, ◌≤◌, max, map, false, IsTrue, OnOk, OnErr, vec_len, vec_capacity};
ghost use Rattle.std.specs.List.{All};
ghost use Rattle.tsdb_marks.specs.Series.{AddsMark, has_none, no_marks, without_old};
ghost use Rattle.tsdb_marks.specs.Steps.{IsMet, IsMarkRun, IsUnmet, newest_at, steps_of, version_at};

use crate::run::Run;
use std::alloc::Global;
use std::marker::Model;
use tsdb_base::Memory;

/// The versions of a series' marks, and runs that tell for each moment the newest over it.
#[derive(Drop)]
pub(crate) struct Series {
    versions: Vec<u64>,
    runs: Vec<Run>,
}

impl Model for Series {
    ghost use Rattle.tsdb_marks.specs.Series.{SeriesMarks};

    ghost Value = { SeriesMarks };

    ghost use Rattle.tsdb_marks.specs.Series.{IsSeriesKept, series_marks_view};

    ghost view = { series_marks_view };

    ghost invariant = { IsSeriesKept };
}

/// Adds a run, and merges those at the end while the last but one is less than twice as long as the last. Where
/// memory runs out they stay apart.
fn push_run(runs: &mut Vec<Run>, run: Run)
    requires room { vec_len runs.old < vec_capacity runs.old }
    requires runs { All IsMarkRun runs.old.items }
    requires run { IsMarkRun run }
    ensures runs { All IsMarkRun runs.new.items }
    ensures moments { (moment : ℕ) → newest_at (map steps_of runs.new.items) moment
        ≡ max (newest_at (map steps_of runs.old.items) moment) (version_at (steps_of run) moment) }
{
    let mut run = run;
    while let Some(last) = runs.last() {
        if last.steps.len() / 2 >= run.steps.len() {
            break;
        }
        let Ok(merged) = last.merge(&run) else {
            break;
        };
        runs.pop();
        run = merged;
    }
    let Ok(()) = runs.push(run) else {
        unreachable!()
    };
}

impl Series {
    /// No mark.
    pub(crate) fn new(alloc: Global) -> Series
        ensures { result ≡ no_marks }
    {
        Series {
            versions: Vec::new(alloc),
            runs: Vec::new(alloc),
        }
    }

    /// The versions of the marks.
    pub(crate) fn versions(&self) -> &[u64]
        ensures { result.now ≡ self.now.versions }
    {
        self.versions.as_slice()
    }

    pub(crate) fn is_empty(&self) -> bool
        ensures { result ≡ has_none self.now }
    {
        self.versions.is_empty() && self.runs.is_empty()
    }

    /// Adds a mark over the moments from `from` to `to`, which may be none.
    pub(crate) fn add(&mut self, from: u64, to: u64, version: u64) -> Result<(), Memory>
        ensures added { OnOk result (AddsMark self.old self.new from to version) }
        ensures memory { OnErr result (self.new ≡ self.old) }
    {
        self.versions.reserve(1)?;
        self.runs.reserve(1)?;
        if from <= to {
            let run = Run::of_range(*self.runs.allocator(), from, to, version)?;
            push_run(&mut self.runs, run);
        }
        let Ok(()) = self.versions.push(version) else {
            unreachable!()
        };
        Ok(())
    }

    /// Whether a version greater than `born` holds at a moment of the range.
    pub(crate) fn meets(&self, from: u64, to: u64, born: u64) -> bool
        requires { from ≤ to }
        ensures met { IsTrue result → IsMet (newest_at self.now.runs) from to born }
        ensures unmet { result ≡ false → IsUnmet (newest_at self.now.runs) from to born }
    {
        for run in &self.runs {
            if run.newest > born && run.meets(from, to, born) {
                return true;
            }
        }
        false
    }

    /// Drops the versions up to this one; a run may keep some beside newer ones.
    pub(crate) fn drop_old(&mut self, version: u64)
        ensures { self.new ≡ without_old version self.old }
    {
        self.versions.retain(|kept| *kept > version);
        self.runs.retain(|run| run.newest > version);
    }
}
