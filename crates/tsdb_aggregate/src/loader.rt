//! Where the points of pieces come from. It depends on `steps`, and on `tsdb_merge` for faults.
ghost use Rattle.std.specs.Prelude.{◌≡◌, ◌+◌, ◌<◌, IfOk, IfSome, length};
ghost use Rattle.tsdb_aggregate.specs.Loads.{LoaderState, Spends, held_at};

use std::alloc::Global;
use std::sync::ledger::Ledger;
use tsdb_base::{Point, Steps};
use tsdb_merge::PullFault;

/// Gives the points of pieces, each named by its place in the list of pieces.
pub trait Loader {
    /// What is held of each piece, how often a load failed and met damage, and what all loads so far have cost. Points
    /// are told piece by piece: those in memory are, those in a real file are not. The counts never fall, and a count
    /// of faults that comes to 2^64 - 1 stays there.
    ghost state: { Self → LoaderState };

    /// Reads the surviving points of a piece. Its cost is added to the loader's own count and to `pages`, also where
    /// it fails.
    fn load<L: Ledger>(
        &mut self,
        alloc: Global,
        piece: usize,
        pages: &mut Steps<L>,
    ) -> Result<Vec<Point>, PullFault>
        requires { piece < length (state self.old).held }
        ensures points { IfOk result (λ points.
            IfSome (held_at (state self.old).held piece).points (λ told. points.items ≡ told)) }
        ensures cost { (state self.new).loads ≡ (state self.old).loads + (held_at (state self.old).held piece).cost }
        ensures spends { Spends (held_at (state self.old).held piece).cost
            (state self.old) (state self.new) pages.old pages.new result };
}
