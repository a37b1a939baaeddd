//! Where points come from, one by one in order of time. It depends on `tsdb_base`.
ghost use Rattle.std.specs.Prelude.{◌≡◌, ◌+◌, ◌≤◌, ℕ, List, IfOk, IfSome, Option, Some, length};
ghost use Rattle.std.specs.Option.{option_to_list};
ghost use Rattle.std.specs.Vec.Iter.{into_iter_items};
ghost use Rattle.tsdb_base.specs.Points.{IsRising};
ghost use Rattle.tsdb_merge.specs.Winners.{TakesTold};
ghost use Rattle.tsdb_merge.specs.Causes.{HasPullCause};
ghost use Rattle.tsdb_base.specs.declared.point.Point.{Point};

use std::alloc::{AllocError, AllocFailed};
use std::error::Error;
use std::fmt;
use std::vec::IntoIter;
use tsdb_base::{Memory, Point};

/// Why no point could be given.
#[derive(Clone, Copy, Debug, PartialEq, Eq)]
pub enum PullFault {
    /// Something outside failed.
    Failed,
    /// Bytes are not what was written; `at` is where the bad part begins.
    Damaged { at: u64 },
    /// Out of memory.
    Memory,
}

impl From<AllocError> for PullFault {
    ghost use Rattle.std.specs.Prelude.{◌≡◌};
    ghost use Rattle.tsdb_merge.specs.declared.points.PullFault.TheVariants as fault;

    ghost from_gives = { λ _ e. e ≡ fault.Memory };

    fn from(_error: AllocError) -> PullFault {
        PullFault::Memory
    }
}

impl<T: Drop> From<AllocFailed<T>> for PullFault {
    ghost use Rattle.std.specs.Prelude.{◌≡◌};
    ghost use Rattle.tsdb_merge.specs.declared.points.PullFault.TheVariants as fault;

    ghost from_gives = { λ _ e. e ≡ fault.Memory };

    fn from(_error: AllocFailed<T>) -> PullFault {
        PullFault::Memory
    }
}

impl From<Memory> for PullFault {
    ghost use Rattle.std.specs.Prelude.{◌≡◌};
    ghost use Rattle.tsdb_merge.specs.declared.points.PullFault.TheVariants as fault;

    ghost from_gives = { λ _ e. e ≡ fault.Memory };

    fn from(_error: Memory) -> PullFault {
        PullFault::Memory
    }
}

impl fmt::Display for PullFault {
    fn fmt<W: fmt::Write>(&self, f: &mut fmt::Formatter<W>) -> fmt::Result {
        match self {
            PullFault::Failed => f.write_str("failed"),
            PullFault::Damaged { at } => write!(f, "damaged at {at}"),
            PullFault::Memory => f.write_str("memory"),
        }
    }
}

impl Error for PullFault {}

/// A list of points in rising order of time, given one by one.
pub trait Points {
    /// The points that are left, where they are told.
    ghost left: { Self → Option (List Point) };

    /// The most points that it will still give, told or not, so that a loop over them ends.
    ghost most: { Self → ℕ };

    /// How often it failed. The count never falls, and one that comes to 2^64 - 1 stays there.
    ghost failures: { Self → ℕ };

    /// How often it met damage. The count never falls, and one that comes to 2^64 - 1 stays there.
    ghost damages: { Self → ℕ };

    /// Takes the first point that is left, or answers none where no point is left. After an error nothing is known of
    /// what is left.
    fn pull(&mut self) -> Result<Option<Point>, PullFault>
        ensures next { IfOk result (λ point. TakesTold (left self.old) point (left self.new)) }
        ensures most { IfOk result (λ point. length (option_to_list point) + most self.new ≤ most self.old) }
        ensures cause { HasPullCause
            (failures self.old) (failures self.new) (damages self.old) (damages self.new) result };

    /// Where the points are told, times rise from point to point.
    ghost rising: { (points : Self) → IfSome (left points) IsRising };
}

/// Points in memory. It never fails.
#[derive(Drop)]
pub struct ListPoints {
    /// The points that are left, as std's iterator over a `Vec` that was given up for it: the first is taken without a
    /// move of the others, and no memory is taken.
    pub left: IntoIter<Point>,
    ghost rising: { IsRising (into_iter_items left) },
}

impl ListPoints {
    /// The points of a list in order of time.
    pub fn new(points: Vec<Point>) -> ListPoints
        requires { IsRising points.items }
        ensures { into_iter_items result.left ≡ points.items }
    {
        ListPoints {
            left: points.into_iter(),
        }
    }
}

impl Points for ListPoints {
    ghost left = { λ points. Some (into_iter_items points.left) };

    ghost most = { λ points. length (into_iter_items points.left) };

    ghost failures = { λ _. 0 };

    ghost damages = { λ _. 0 };

    fn pull(&mut self) -> Result<Option<Point>, PullFault> {
        Ok(self.left.next())
    }

    ghost rising = { λ points. points.rising };
}
