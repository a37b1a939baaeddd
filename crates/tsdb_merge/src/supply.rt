//! Where the points of several sources come from, many at a time. It depends on `points`.
ghost use Rattle.std.specs.Prelude.{◌≡◌, ◌+◌, ◌<◌, ◌≤◌, ℕ, List, [], Option, IfOk, length};
ghost use Rattle.tsdb_base.specs.declared.point.Point.{Point};
ghost use Rattle.tsdb_merge.specs.Causes.{HasSomeCause};
ghost use Rattle.tsdb_merge.specs.Supplies.{IsFilled, KeepsOthers, Moves, left_at};

use crate::points::PullFault;
use tsdb_base::Point;

/// Several sources, each a list of points, that are read through one thing.
pub trait Supply {
    /// What is not supplied yet of each source, where it is told.
    ghost left: { Self → List (Option (List Point)) };

    /// The most points that it will still supply, told or not, so that a loop over them ends.
    ghost most: { Self → ℕ };

    /// What every call keeps beside the clauses of this trait, as a bound on what it may still cost. Whoever reads
    /// through the supply knows it of all calls together.
    ghost keeps: { Self → Self → Type 0 };

    /// How often each thing that it reads from failed. No count ever falls, and one that comes to 2^64 - 1 stays there.
    ghost failures: { Self → List ℕ };

    /// How often each thing that it reads from met damage. No count ever falls, and one that comes to 2^64 - 1 stays
    /// there.
    ghost damages: { Self → List ℕ };

    /// Moves 1 to 1,000 points from the front of the source's list and answers true, or answers false where nothing is
    /// left of it. After an error nothing is known of what is left of the source.
    fn fill(&mut self, source: usize, into: &mut Vec<Point>) -> Result<bool, PullFault>
        requires source { source < length (left self.old) }
        requires empty { into.old.items ≡ [] }
        ensures moved { IfOk result (λ more.
            Moves (left_at (left self.old) source) more into.new.items (left_at (left self.new) source)) }
        ensures filled { IfOk result (λ more. IsFilled more into.new.items) }
        ensures most { IfOk result (λ _. length into.new.items + most self.new ≤ most self.old) }
        ensures others { KeepsOthers source (left self.old) (left self.new) }
        ensures kept { keeps self.old self.new }
        ensures cause { HasSomeCause
            (failures self.old) (failures self.new) (damages self.old) (damages self.new) result };

    /// Where there was no call, it is kept.
    ghost keeps_none: { (supply : Self) → keeps supply supply };

    /// What one call keeps and then another, both together keep.
    ghost keeps_then: { (a b c : Self) → keeps a b → keeps b c → keeps a c };
}
