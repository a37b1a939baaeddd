//! What entries of an index say together. Depends on `described_hulls`.
ghost use Rattle.std.specs.Prelude.{◌≡◌, ◌≢◌, List, [], ◌∷◌, ◌++◌, IfOk, OnOk, Some};
ghost use Rattle.tsdb_recover.specs.DescribedSteps.{AddsPath, IsSummary, SaysSeries};
ghost use Rattle.tsdb_flush.specs.MakingSteps.{ComeBefore};
ghost use Rattle.tsdb_flush.specs.Parts.{Filled};
ghost use Rattle.tsdb_path.specs.Nodes.{IsPath, child_of};

use crate::described_hulls::add_hull;
use std::alloc::Global;
use tsdb_base::Memory;
use tsdb_index::IndexEntry;
use tsdb_path::{Path, PathFault};
use tsdb_plan::Hull;

/// How many points the entries so far have, the hulls of their devices, and the paths of their series.
#[derive(Drop)]
pub(crate) struct Summary {
    pub(crate) points: u64,
    pub(crate) hulls: Vec<Hull>,
    pub(crate) series: Vec<Path>,
}

impl Summary {
    /// No entry so far.
    pub(crate) fn new(alloc: Global) -> Summary
        ensures { IsSummary [] result }
    {
        Summary {
            points: 0,
            hulls: Vec::new(alloc),
            series: Vec::new(alloc),
        }
    }

    /// Adds an entry, which comes behind those before in the order of a tree.
    pub(crate) fn add(&mut self, entry: &IndexEntry) -> Result<(), Memory>
        ensures { OnOk result ((part : List Filled) (filled : Filled) → SaysSeries entry.now filled
            → ComeBefore part filled.schema → IsSummary part self.old → IsSummary (part ++ filled ∷ []) self.new) }
    {
        let Some(points) = self.points.checked_add(entry.stats.count) else {
            return Err(Memory);
        };
        add_hull(&mut self.hulls, entry)?;
        add_path(&mut self.series, entry)?;
        self.points = points;
        Ok(())
    }
}

/// Adds the path of the entry's series, where it is one.
fn add_path(series: &mut Vec<Path>, entry: &IndexEntry) -> Result<(), Memory>
    ensures { OnOk result (AddsPath entry.now series.old.items series.new.items) }
{
    if let Some(path) = path_of(entry)? {
        series.push(path)?;
    }
    Ok(())
}

/// The path of the entry's series, where it is one.
fn path_of(entry: &IndexEntry) -> Result<Option<Path>, Memory>
    ensures { IfOk result (λ path. IsPath (child_of entry.now.device entry.now.measurement)
        → path ≡ Some (child_of entry.now.device entry.now.measurement)) }
{
    match entry.device.child(&entry.measurement) {
        Ok(path) => Ok(Some(path)),
        Err(fault) => no_path(fault),
    }
}

/// No path, unless memory ran out.
fn no_path(fault: PathFault) -> Result<Option<Path>, Memory>
    ensures { OnOk result (fault ≢ PathFault.Memory) }
{
    match fault {
        PathFault::Memory => Err(Memory),
        PathFault::Empty
        | PathFault::NotRoot
        | PathFault::BadNode { .. }
        | PathFault::TooLong { .. } => Ok(None),
    }
}
