//! The numbers of files that records have named. Depends on tsdb_base.
//!
//! Numbers are drawn in rising order, and committed nearly so. So they are kept as runs that grow together, found by an
//! ordered map, and cost memory in the order of the gaps between them.
ghost use Rattle.std.specs.Prelude.{◌≡◌, ◌↔◌, ◌+◌, ◌<◌, [], ◌∷◌, IsTrue, None, OnErr, OnOk};
ghost use Rattle.std.specs.BTreeMap.{IsUnchanged};
ghost use Rattle.std.specs.Option.{option_map};
ghost use Rattle.tsdb_redo.specs.NamedNumbers.{CanName, IsGreatest, IsInRun, IsNamed, NamesMore, none_named, run_from};
ghost use Rattle.tsdb_redo.specs.Runs.{AreRuns, IsBeginOfRun, EndsWith, HasOneNumberMore, IsLastInRuns, IsLastUpTo};
ghost use Rattle.tsdb_base.specs.Limits.{end_of_numbers};
ghost use Rattle.tsdb_state.specs.Records.{new_numbers};

use std::alloc::Global;
use std::collections::BTreeMap;
use std::marker::Model;
use tsdb_base::limits::END_OF_NUMBERS;
use tsdb_base::{FileNumber, Memory};

/// The runs of numbers, each from its first number to its last.
type Runs = BTreeMap<u64, u64>;

/// The numbers that records have named. A contract sees the runs, and the number that was named last.
#[derive(Drop)]
pub struct NamedNumbers {
    runs: Runs,
    // It joins the runs before the next number is named. So to name the second number of a record takes no memory.
    newest: Option<u64>,
}

impl Model for NamedNumbers {
    ghost use Rattle.tsdb_redo.specs.NamedNumbers.{Named};
    ghost use Rattle.tsdb_redo.specs.Runs.{AreSoundNumbers};

    ghost Value = { Named };

    ghost view = { λ named. record { runs = named.runs.entries; newest = named.newest } };

    ghost invariant = { λ named. AreSoundNumbers (record { runs = named.runs.entries; newest = named.newest }) };
}

impl NamedNumbers {
    /// No number.
    pub fn new(alloc: Global) -> NamedNumbers
        ensures { result ≡ none_named }
    {
        NamedNumbers {
            runs: BTreeMap::new(alloc),
            newest: None,
        }
    }

    /// Whether the number is named.
    pub fn has(&self, number: u64) -> bool
        ensures { IsTrue result ↔ IsNamed self.now number }
    {
        if self.newest == Some(number) {
            return true;
        }
        is_in_run(&self.runs, number)
    }

    /// Whether these can be numbers of new files; 0 stands for none.
    pub fn can_name(&self, first: FileNumber, second: FileNumber) -> bool
        ensures { IsTrue result ↔ CanName self.now (new_numbers (first.0 ∷ second.0 ∷ [])) }
    {
        if !self.is_free(first) {
            return false;
        }
        if !self.is_free(second) {
            return false;
        }
        first.0 == 0 || first != second
    }

    /// Whether this can be the number of a new file; 0 stands for none.
    fn is_free(&self, number: FileNumber) -> bool
        ensures { IsTrue result ↔ CanName self.now (new_numbers (number.0 ∷ [])) }
    {
        if number.0 == 0 {
            return true;
        }
        if number.0 >= END_OF_NUMBERS {
            return false;
        }
        !self.has(number.0)
    }

    /// Names the numbers of new files; 0 stands for none. Out of memory names none of them.
    pub fn name(&mut self, first: FileNumber, second: FileNumber) -> Result<(), Memory>
        requires { CanName self.old (new_numbers (first.0 ∷ second.0 ∷ [])) }
        ensures named { OnOk result (NamesMore (new_numbers (first.0 ∷ second.0 ∷ [])) self.old self.new) }
        ensures memory { OnErr result (NamesMore [] self.old self.new) }
    {
        self.settle()?;
        self.add(first)?;
        self.put_newest(second);
        Ok(())
    }

    /// The newest number joins the runs.
    fn settle(&mut self) -> Result<(), Memory>
        ensures same { NamesMore [] self.old self.new }
        ensures ok { OnOk result (self.new.newest ≡ None) }
    {
        let Some(number) = self.newest else {
            return Ok(());
        };
        add(&mut self.runs, number)?;
        self.newest = None;
        Ok(())
    }

    /// The number of a new file joins the runs; 0 stands for none.
    fn add(&mut self, number: FileNumber) -> Result<(), Memory>
        requires settled { self.old.newest ≡ None }
        requires new { CanName self.old (new_numbers (number.0 ∷ [])) }
        ensures settled { self.new.newest ≡ None }
        ensures named { OnOk result (NamesMore (new_numbers (number.0 ∷ [])) self.old self.new) }
        ensures memory { OnErr result (NamesMore [] self.old self.new) }
    {
        if number.0 == 0 {
            return Ok(());
        }
        add(&mut self.runs, number.0)
    }

    /// The number of a new file is the newest; 0 stands for none. It takes no memory.
    fn put_newest(&mut self, number: FileNumber)
        requires settled { self.old.newest ≡ None }
        requires new { CanName self.old (new_numbers (number.0 ∷ [])) }
        ensures { NamesMore (new_numbers (number.0 ∷ [])) self.old self.new }
    {
        if number.0 != 0 {
            self.newest = Some(number.0);
        }
    }

    /// The greatest number that is named, 0 where none is.
    pub fn greatest(&self) -> u64
        ensures number { IsGreatest self.now result }
        ensures end { result < end_of_numbers }
    {
        let last = last_of(&self.runs);
        match self.newest {
            Some(newest) => last.max(newest),
            None => last,
        }
    }
}

/// The last number of the last run, 0 where there is none.
fn last_of(runs: &Runs) -> u64
    requires { AreRuns runs.now.entries }
    ensures number { IsLastInRuns runs.now.entries result }
    ensures end { result < end_of_numbers }
{
    match runs.last_key_value() {
        Some((_, last)) => *last,
        None => 0,
    }
}

/// The last run that begins at the number or before it.
fn last_up_to(runs: &Runs, number: u64) -> Option<(u64, u64)>
    ensures { IsLastUpTo runs.now.entries number result }
{
    let (first, last) = runs.range(..=number).next_back()?;
    Some((*first, *last))
}

/// Whether a run has the number.
fn is_in_run(runs: &Runs, number: u64) -> bool
    requires { AreRuns runs.now.entries }
    ensures { IsTrue result ↔ IsInRun runs.now.entries number }
{
    match last_up_to(runs, number) {
        Some((_, last)) => number <= last,
        None => false,
    }
}

/// Where a run begins that ends with this number: where the run begins that ends before it, or at the number itself.
fn begin_of(runs: &Runs, number: u64) -> u64
    requires runs { AreRuns runs.now.entries }
    requires number { number < end_of_numbers }
    ensures { IsBeginOfRun runs.now.entries number result }
{
    let Some((first, last)) = last_up_to(runs, number) else {
        return number;
    };
    if last + 1 == number { first } else { number }
}

/// Where a run ends that begins with this number: where the run ends that begins behind it, or at the number itself.
fn end_of(runs: &Runs, number: u64) -> u64
    requires { number < end_of_numbers }
    ensures { EndsWith runs.now.entries number result }
{
    match runs.get(&(number + 1)) {
        Some(last) => *last,
        None => number,
    }
}

/// The number joins the runs: one that ends before it and one that begins behind it grow together.
fn add(runs: &mut Runs, number: u64) -> Result<(), Memory>
    requires runs { AreRuns runs.old.entries }
    requires within { number < end_of_numbers }
    requires free { ¬ IsInRun runs.old.entries number }
    ensures runs { AreRuns runs.new.entries }
    ensures named { OnOk result (HasOneNumberMore number runs.old.entries runs.new.entries) }
    ensures memory { OnErr result (runs.new.entries ≡ runs.old.entries) }
{
    let first = begin_of(runs, number);
    let last = end_of(runs, number);
    runs.insert(first, last)?;
    let _ = runs.remove(&(number + 1));
    Ok(())
}
