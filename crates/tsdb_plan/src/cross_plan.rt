//! The cross plan: late files with the files in time order that they meet. It depends on `entry` and `overlap`.
ghost use Rattle.std.specs.Prelude.{◌≡◌, ◌+◌, ◌-◌, ◌≤◌, IfSome, IfNone, IsTrue, ◌↔◌};
ghost use Rattle.tsdb_plan.specs.Files.{AreHullsRising, HaveRisingHulls, total_bytes};
ghost use Rattle.tsdb_plan.specs.CrossPlan.{IsCrossPlan, HasNoCrossPlan};
ghost use Rattle.tsdb_plan.specs.Places.{IsFirstPlace, IsPastLast};
ghost use Rattle.tsdb_plan.specs.Steps.{Reaches};

use crate::MAX_BYTES;
use crate::entry::{CrossRun, FileEntry, Hull};
use crate::overlap::{greatest_time, least_time, reaches_from, reaches_up_to};

/// Whether the files have at most so many bytes together.
fn fits(files: &[FileEntry], room: u64) -> bool
    ensures { IsTrue result ↔ (total_bytes files.now ≤ room) }
{
    let mut left = room;
    for file in files {
        let Some(rest) = left.checked_sub(file.size) else {
            return false;
        };
        left = rest;
    }
    true
}

/// The first file that reaches the hulls, or the number of files.
fn first_reaching(files: &[FileEntry], hulls: &[Hull]) -> usize
    requires files { HaveRisingHulls files.now }
    requires hulls { AreHullsRising hulls.now }
    ensures { IsFirstPlace (λ file. Reaches file.hulls hulls.now) files.now result }
{
    let least = least_time(hulls);
    for (place, file) in files.iter().enumerate() {
        if reaches_from(file.hulls.items(), hulls, least) {
            return place;
        }
    }
    files.len()
}

/// One past the last file that the hulls reach, or 0.
fn past_reached(files: &[FileEntry], hulls: &[Hull]) -> usize
    requires files { HaveRisingHulls files.now }
    requires hulls { AreHullsRising hulls.now }
    ensures { IsPastLast (λ file. Reaches hulls.now file.hulls) files.now result }
{
    let greatest = greatest_time(hulls);
    for place in (0..files.len()).rev() {
        if reaches_up_to(hulls, files[place].hulls.items(), greatest) {
            return place + 1;
        }
    }
    0
}

/// The longest prefix of the unsequence files, none of them claimed, that has at most 268,435,456 bytes together with
/// the sequence files that it meets.
///
/// The sequence files that a prefix meets begin with the first that, on some device of the prefix, has a time at or
/// above the prefix's least, and end with the last that has a time at or below its greatest. There may be none of
/// them; then `first` and `end` are one place. A longer prefix meets no fewer of them, so the walk ends with the first
/// prefix that does not fit.
pub fn cross(sequence: &[FileEntry], unsequence: &[FileEntry]) -> Option<CrossRun>
    requires sequence { HaveRisingHulls sequence.now }
    requires unsequence { HaveRisingHulls unsequence.now }
    ensures found { IfSome result (IsCrossPlan sequence.now unsequence.now) }
    ensures none { IfNone result (HasNoCrossPlan sequence.now unsequence.now) }
{
    let mut plan = None;
    let mut room = MAX_BYTES;
    let mut first = sequence.len();
    let mut past = 0;
    for (place, file) in unsequence.iter().enumerate() {
        if file.claimed {
            break;
        }
        let Some(left) = room.checked_sub(file.size) else {
            break;
        };
        room = left;
        first = first_reaching(&sequence[..first], file.hulls.items());
        past += past_reached(&sequence[past..], file.hulls.items());
        let end = first.max(past);
        if !fits(&sequence[first..end], room) {
            break;
        }
        plan = Some(CrossRun {
            prefix: place + 1,
            first,
            end,
        });
    }
    plan
}
