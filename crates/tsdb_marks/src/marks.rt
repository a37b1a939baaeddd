//! The deletion marks of a store, in the order of their versions. It depends on `index`.
//!
//! A mark is added behind the others and takes no memory. The index has the first of them; those behind are few, since
//! making a place for a mark brings all before it into the index.
ghost use Rattle.std.specs.Prelude.{◌≡◌, ℕ, ◌+◌, ◌<◌, ◌≤◌, ◌↔◌, List, [], ◌∷◌, ◌++◌, IsTrue, IfOk, IfErr};
ghost use Rattle.std.specs.Prelude.{OnOk, OnErr, false, take, length};
ghost use Rattle.std.specs.List.{All, AllPairs, Contains, filter};
ghost use Rattle.std.specs.List.Sorted.{IsNonDecreasing};
ghost use Rattle.std.specs.Option.{IfSome, option_copied, option_to_list};
ghost use Rattle.tsdb_marks.specs.Moments.{moment as moment_of};
ghost use Rattle.tsdb_marks.specs.Survival.{Survives, Meets};
ghost use Rattle.tsdb_marks.specs.Lists.{is_newer_than, is_of, purge_list};
ghost use Rattle.tsdb_marks.specs.Model.{HasTimes, IsCovered, IsIndexOf, IsUncovered, has_version, is_mark_of};
ghost use Rattle.tsdb_marks.specs.Model.{versions_of};

use crate::index::Index;
use std::alloc::Global;
use std::marker::Model;
use tsdb_base::{Memory, Range, Stamp, Time};
use tsdb_path::Path;

/// The points of a series from `from` to `to`, both included, are deleted, in whatever is older than the version. It
/// marks nothing where `from` is greater than `to`.
#[derive(Drop)]
pub struct Mark {
    pub path: Path,
    pub from: Time,
    pub to: Time,
    pub version: Stamp,
}

impl Mark {
    /// The same mark once more.
    pub fn copy(&self) -> Result<Mark, Memory>
        ensures { IfOk result (λ copy. copy ≡ self.now) }
    {
        Ok(Mark {
            path: self.path.copy()?,
            from: self.from,
            to: self.to,
            version: self.version,
        })
    }
}

/// Deletion marks, in the order of their versions, with places for more. A contract sees the list of the marks and
/// the number of spare places.
#[derive(Drop)]
pub struct Marks {
    marks: Vec<Mark>,
    index: Index,
    indexed: usize,
    floor: u64,
    spare: usize,
}

impl Model for Marks {
    ghost use Rattle.tsdb_marks.specs.Lists.{Marks};

    ghost Value = { Marks };

    ghost use Rattle.tsdb_marks.specs.Model.{AreMarksKept, marks_view};

    ghost view = { marks_view };

    ghost invariant = { AreMarksKept };
}

/// How far the time is from the least one.
fn moment(time: Time) -> u64
    ensures { result ≡ moment_of time }
{
    time.abs_diff(Time::MIN)
}

/// Adds a mark to the index.
fn index_mark(index: &mut Index, alloc: Global, mark: &Mark) -> Result<(), Memory>
    ensures added { OnOk result ((marks : List Mark) (floor : ℕ) → IsIndexOf marks floor index.old.series.entries
        → IsIndexOf (marks ++ mark.now ∷ []) floor index.new.series.entries) }
    ensures memory { OnErr result ((marks : List Mark) (floor : ℕ) → IsIndexOf marks floor index.old.series.entries
        → IsIndexOf marks floor index.new.series.entries) }
{
    let (from, to) = (moment(mark.from), moment(mark.to));
    index.add(alloc, &mark.path, from, to, mark.version.0)
}

/// Adds the marks that are not in the index to it.
fn index_all(
    index: &mut Index,
    alloc: Global,
    marks: &[Mark],
    indexed: &mut usize,
) -> Result<(), Memory>
    requires { indexed.old ≤ length marks.now }
    ensures bound { indexed.new ≤ length marks.now }
    ensures exact { (floor : ℕ) → IsIndexOf (take indexed.old marks.now) floor index.old.series.entries
        → IsIndexOf (take indexed.new marks.now) floor index.new.series.entries }
{
    while *indexed < marks.len() {
        index_mark(index, alloc, &marks[*indexed])?;
        *indexed += 1;
    }
    Ok(())
}

/// Whether one of these marks is over a moment of the range, by a look at each.
fn some_covers(marks: &[Mark], series: &Path, low: u64, high: u64, born: u64) -> bool
    ensures covered { IsTrue result → IsCovered marks.now series.now low high born }
    ensures uncovered { result ≡ false → IsUncovered marks.now series.now low high born }
{
    for mark in marks {
        let from = moment(mark.from).max(low);
        let to = moment(mark.to).min(high);
        if from <= to && mark.version.0 > born && mark.path.bytes() == series.bytes() {
            return true;
        }
    }
    false
}

/// Whether a mark has at most this version: the first has, where one has, since versions rise.
fn has_old(marks: &[Mark], version: u64) -> bool
    requires { AllPairs (λ a b. a.version.0 < b.version.0) marks.now }
    ensures { result ≡ false → filter (is_newer_than version) marks.now ≡ marks.now }
{
    match marks.first() {
        Some(mark) => mark.version.0 <= version,
        None => false,
    }
}

/// The mark with this version, where there is one. It is behind all marks with lesser versions.
fn mark_with(marks: &[Mark], version: u64) -> Option<&Mark>
    requires { AllPairs (λ a b. a.version.0 < b.version.0) marks.now }
    ensures version { IfSome result (λ mark. mark.now.version.0 ≡ version) }
    ensures next { (versions : List ℕ) → All (λ v. v < version) versions
        → filter (has_version (versions ++ version ∷ [])) marks.now
        ≡ filter (has_version versions) marks.now ++ option_to_list (option_copied result) }
{
    let place = marks.partition_point(|mark| mark.version.0 < version);
    let mark = marks.get(place)?;
    if mark.version.0 == version {
        Some(mark)
    } else {
        None
    }
}

/// Adds a copy of the mark, where there is one.
fn add_copy(only: &mut Marks, mark: Option<&Mark>) -> Result<(), Memory>
    requires { IfSome mark (λ mark. All (λ kept. kept.version.0 < mark.now.version.0) only.old.marks) }
    ensures { OnOk result (only.new.marks ≡ only.old.marks ++ option_to_list (option_copied mark.entry)) }
{
    let Some(mark) = mark else {
        return Ok(());
    };
    let mark = mark.copy()?;
    only.reserve()?;
    only.add(mark);
    Ok(())
}

/// The versions of the marks of the series, among those behind the index.
fn push_versions(versions: &mut Vec<u64>, marks: &[Mark], series: &Path) -> Result<(), Memory>
    ensures { OnOk result (versions.new.items
        ≡ versions.old.items ++ versions_of (filter (is_mark_of series.now) marks.now)) }
{
    for mark in marks {
        if series.bytes() == mark.path.bytes() {
            versions.push(mark.version.0)?;
        }
    }
    Ok(())
}

impl Marks {
    /// No mark, and no spare place.
    pub fn new(alloc: Global) -> Marks
        ensures { result ≡ record { marks = []; spare = 0 } }
    {
        Marks {
            marks: Vec::new(alloc),
            index: Index::new(alloc),
            indexed: 0,
            floor: 0,
            spare: 0,
        }
    }

    /// The marks, in the order of their versions.
    pub fn marks(&self) -> &[Mark]
        ensures { result.now ≡ self.now.marks }
    {
        self.marks.as_slice()
    }

    /// For how many more marks there is a place.
    pub fn spare(&self) -> usize
        ensures { result ≡ self.now.spare }
    {
        self.spare
    }

    /// Makes one more spare place.
    pub fn reserve(&mut self) -> Result<(), Memory>
        ensures marks { self.new.marks ≡ self.old.marks }
        ensures ok { OnOk result (self.new.spare ≡ self.old.spare + 1) }
        ensures memory { IfErr result (λ _. self.new.spare ≡ self.old.spare) }
    {
        let alloc = *self.marks.allocator();
        let marks = self.marks.as_slice();
        index_all(&mut self.index, alloc, marks, &mut self.indexed)?;
        self.marks.reserve(self.spare + 1)?;
        self.spare += 1;
        Ok(())
    }

    /// Adds a mark, with a version greater than all. It takes no memory.
    pub fn add(&mut self, mark: Mark)
        requires spare { 0 < self.old.spare }
        requires newer { All (λ kept. kept.version.0 < mark.version.0) self.old.marks }
        ensures marks { self.new.marks ≡ self.old.marks ++ mark ∷ [] }
        ensures spare { self.new.spare + 1 ≡ self.old.spare }
    {
        self.spare -= 1;
        let Ok(()) = self.marks.push(mark) else {
            unreachable!()
        };
    }

    /// Whether a mark that is newer than `born` is over a moment of the range.
    fn covers(&self, series: &Path, low: u64, high: u64, born: u64) -> bool
        requires { low ≤ high }
        ensures covered { IsTrue result → IsCovered self.now.marks series.now low high born }
        ensures uncovered { result ≡ false → IsUncovered self.now.marks series.now low high born }
        ensures times { All HasTimes self.now.marks }
    {
        self.index.meets(series, low, high, born.max(self.floor))
            || some_covers(&self.marks[self.indexed..], series, low, high, born)
    }

    /// Whether no mark covers the point: none that is newer than `born` marks this time of the series. It takes no
    /// memory.
    pub fn survives(&self, series: &Path, time: Time, born: Stamp) -> bool
        ensures { IsTrue result ↔ Survives self.now.marks series.now time born.0 }
    {
        let at = moment(time);
        !self.covers(series, at, at, born.0)
    }

    /// Whether a mark covers a point of the series at some time of the range. It takes no memory.
    pub fn meets(&self, series: &Path, range: &Range, born: Stamp) -> bool
        ensures { IsTrue result ↔ Meets self.now.marks series.now range.now born.0 }
    {
        range.from <= range.to && self.covers(series, moment(range.from), moment(range.to), born.0)
    }

    /// Drops all marks.
    fn drop_all(&mut self)
        ensures marks { self.new.marks ≡ [] }
        ensures spare { self.new.spare ≡ self.old.spare }
    {
        self.marks.clear();
        self.index.clear();
        self.indexed = 0;
        self.floor = 0;
    }

    /// Drops the marks up to this version, of which there is one.
    fn drop_old(&mut self, version: u64)
        ensures marks { self.new.marks ≡ filter (is_newer_than version) self.old.marks }
        ensures spare { self.new.spare ≡ self.old.spare }
    {
        let count = self.marks.len();
        self.marks.retain(|mark| mark.version.0 > version);
        if self.marks.is_empty() {
            self.index.clear();
            self.indexed = 0;
            self.floor = 0;
            return;
        }
        let dropped = count - self.marks.len();
        self.indexed = self.indexed.saturating_sub(dropped);
        self.floor = self.floor.max(version);
        self.index.drop_old(version);
    }

    /// Drops every mark whose version is at most `min_born`, and all marks where there is none. It takes no memory.
    pub fn purge(&mut self, min_born: Option<Stamp>)
        ensures marks { self.new.marks ≡ purge_list min_born self.old.marks }
        ensures spare { self.new.spare ≡ self.old.spare }
    {
        match min_born {
            None => self.drop_all(),
            Some(Stamp(version)) => {
                if has_old(self.marks.as_slice(), version) {
                    self.drop_old(version);
                }
            }
        }
    }

    /// The versions of the marks of these series, in order; those of a series that is named twice stand there twice.
    fn versions(&self, series: &[Path]) -> Result<Vec<u64>, Memory>
        ensures sorted { IfOk result (λ versions. IsNonDecreasing versions.items) }
        ensures has { IfOk result (λ versions. (mark : Mark) → Contains self.now.marks mark
            → has_version versions.items mark ≡ is_of series.now mark) }
        ensures rising { AllPairs (λ a b. a.version.0 < b.version.0) self.now.marks }
    {
        let mut versions = Vec::new(*self.marks.allocator());
        for path in series {
            versions.extend_from_slice(self.index.versions(path))?;
            push_versions(&mut versions, &self.marks[self.indexed..], path)?;
        }
        versions.sort_unstable();
        Ok(versions)
    }

    /// The marks of these series alone, in their order. It looks at the marks of these series, and at no other but for
    /// the few behind the index.
    pub fn only(&self, series: &[Path]) -> Result<Marks, Memory>
        ensures { IfOk result (λ only. only.marks ≡ filter (is_of series.now) self.now.marks) }
    {
        let versions = self.versions(series)?;
        let mut only = Marks::new(*self.marks.allocator());
        let mut place = 0;
        while place < versions.len() {
            let version = versions[place];
            if place == 0 || versions[place - 1] < version {
                add_copy(&mut only, mark_with(self.marks.as_slice(), version))?;
            }
            place += 1;
        }
        Ok(only)
    }
}
