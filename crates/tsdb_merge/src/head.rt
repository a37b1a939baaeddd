//! The point that was read ahead from one side of a merge of two. It depends on `tsdb_base`.
ghost use Rattle.std.specs.Prelude.{◌≡◌, ◌≢◌, ◌↔◌, IsTrue, option_copied};
ghost use Rattle.tsdb_merge.specs.declared.head.Head.TheVariants.{Unread};
ghost use Rattle.tsdb_merge.specs.Steps.{IsHeadOf, IsNextOf};

use std::cmp::Ordering;
use std::mem;
use tsdb_base::Point;

/// What was read ahead from one side.
#[derive(Drop)]
pub enum Head {
    /// Nothing yet.
    Unread,
    /// The side has no more points.
    End,
    /// Its next point.
    Next(Point),
}

/// The point that was read ahead, if there is one.
pub fn into_point(head: Head) -> Option<Point>
    ensures { head ≢ Unread → IsHeadOf result head }
{
    match head {
        Head::Next(point) => Some(point),
        Head::End | Head::Unread => None,
    }
}

impl Head {
    /// The point that was read ahead, if there is one.
    fn point(&self) -> Option<&Point>
        requires { self.now ≢ Unread }
        ensures { IsHeadOf (option_copied result) self.now }
    {
        match self {
            Head::Next(point) => Some(point),
            Head::End | Head::Unread => None,
        }
    }

    /// Whether nothing was read yet.
    pub fn is_unread(&self) -> bool
        ensures { IsTrue result ↔ (self.now ≡ Unread) }
    {
        match self {
            Head::Unread => true,
            Head::End | Head::Next(_) => false,
        }
    }
}

/// Takes the earlier of the two points that were read ahead. At one time it takes the one of `high`, and drops the
/// other. Times are compared where they stand, and one point is moved.
pub fn take_next(low: &mut Head, high: &mut Head) -> Head
    requires low { low.old ≢ Unread }
    requires high { high.old ≢ Unread }
    ensures { IsNextOf low.old high.old low.new high.new result }
{
    match (low.point(), high.point()) {
        (Some(x), Some(y)) => match x.time.cmp(&y.time) {
            Ordering::Less => mem::replace(low, Head::Unread),
            Ordering::Greater => mem::replace(high, Head::Unread),
            Ordering::Equal => {
                *low = Head::Unread;
                mem::replace(high, Head::Unread)
            }
        },
        (Some(_), None) => mem::replace(low, Head::Unread),
        (None, Some(_)) => mem::replace(high, Head::Unread),
        (None, None) => Head::End,
    }
}
