//! The inner plan: files side by side in one list. It depends on `entry`.
ghost use Rattle.std.specs.Prelude.{◌≡◌, ◌+◌, ◌-◌, ◌≤◌, length, take, IfSome, IfNone, SomeIff};
ghost use Rattle.tsdb_plan.specs.Files.{total_bytes};
ghost use Rattle.tsdb_plan.specs.InnerPlan.{IsInnerPlan, HasNoInnerPlan};
ghost use Rattle.tsdb_plan.specs.Steps.{IsLongestRow};

use crate::entry::{FileEntry, Run};
use crate::{MAX_BYTES, MAX_FILES};

/// How many files the longest row at the start of the list has.
fn longest_row(files: &[FileEntry]) -> usize
    ensures { IsLongestRow files.now result }
{
    let mut room = MAX_BYTES;
    for (count, file) in files.iter().enumerate() {
        if file.claimed || count == MAX_FILES {
            return count;
        }
        let Some(left) = room.checked_sub(file.size) else {
            return count;
        };
        room = left;
    }
    files.len()
}

/// The first files side by side that one job may rewrite: at least 2 and at most 10 of them, none claimed, of at most
/// 268,435,456 bytes together.
///
/// From each place in turn as many files are taken as these limits allow; the run is the first such row that has at
/// least two files.
pub fn inner(files: &[FileEntry]) -> Option<Run>
    ensures found { IfSome result (IsInnerPlan files.now) }
    ensures none { IfNone result (HasNoInnerPlan files.now) }
{
    for first in 0..files.len() {
        let count = longest_row(&files[first..]);
        if count >= 2 {
            return Some(Run {
                first,
                end: first + count,
            });
        }
    }
    None
}
