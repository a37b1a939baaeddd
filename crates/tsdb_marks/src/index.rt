//! The marks of every series that has one, found by its path. It depends on `series` and `tsdb_path`.
ghost use Rattle.std.specs.Prelude.{◌≡◌, ◌≢◌, ℕ, ◌≤◌, List, [], false, IsTrue, OnOk, OnErr};
ghost use Rattle.tsdb_marks.specs.Index.{at};
ghost use Rattle.tsdb_marks.specs.Series.{AddsMark, DropsOld, no_marks};
ghost use Rattle.tsdb_marks.specs.Steps.{IsMet, IsUnmet, newest_at};

use crate::series::Series;
use std::alloc::Global;
use std::collections::BTreeMap;
use tsdb_base::Memory;
use tsdb_path::Path;

/// The marks of each series, in the order of the paths.
#[derive(Drop)]
pub(crate) struct Index {
    series: BTreeMap<Path, Series>,
}

impl Index {
    /// No mark.
    pub(crate) fn new(alloc: Global) -> Index
        ensures { (path : List ℕ) → at result.series.entries path ≡ no_marks }
    {
        Index {
            series: BTreeMap::new(alloc),
        }
    }

    /// Adds a mark of the series over the moments from `from` to `to`, which may be none.
    pub(crate) fn add(
        &mut self,
        alloc: Global,
        path: &Path,
        from: u64,
        to: u64,
        version: u64,
    ) -> Result<(), Memory>
        ensures added { OnOk result (AddsMark (at self.old.series.entries path.now)
            (at self.new.series.entries path.now) from to version) }
        ensures others { (other : List ℕ) → path.now ≢ other
            → at self.new.series.entries other ≡ at self.old.series.entries other }
        ensures memory { OnErr result ((other : List ℕ)
            → at self.new.series.entries other ≡ at self.old.series.entries other) }
    {
        if let Some(series) = self.series.get_mut(path) {
            return series.add(from, to, version);
        }
        let mut series = Series::new(alloc);
        series.add(from, to, version)?;
        self.series.insert(path.copy()?, series)?;
        Ok(())
    }

    /// The versions of the series' marks.
    pub(crate) fn versions(&self, path: &Path) -> &[u64]
        ensures { result.now ≡ (at self.now.series.entries path.now).versions }
    {
        match self.series.get(path) {
            Some(series) => series.versions(),
            None => &[],
        }
    }

    /// Whether a version greater than `born` holds at a moment of the series from `from` to `to`.
    pub(crate) fn meets(&self, path: &Path, from: u64, to: u64, born: u64) -> bool
        requires { from ≤ to }
        ensures met { IsTrue result → IsMet (newest_at (at self.now.series.entries path.now).runs) from to born }
        ensures unmet { result ≡ false
            → IsUnmet (newest_at (at self.now.series.entries path.now).runs) from to born }
    {
        match self.series.get(path) {
            Some(series) => series.meets(from, to, born),
            None => false,
        }
    }

    /// Drops the versions up to this one.
    pub(crate) fn drop_old(&mut self, version: u64)
        ensures { (path : List ℕ)
            → DropsOld (at self.old.series.entries path) (at self.new.series.entries path) version }
    {
        self.series.retain(|_, series| {
            series.drop_old(version);
            true
        });
        self.series.retain(|_, series| !series.is_empty());
    }

    /// Drops all marks.
    pub(crate) fn clear(&mut self)
        ensures { (path : List ℕ) → at self.new.series.entries path ≡ no_marks }
    {
        self.series.clear();
    }
}
