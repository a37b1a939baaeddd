//! Taking the job. Depends on `series`.
ghost use Rattle.std.specs.Prelude.{◌<◌, ◌+◌, ◌≤◌, IfOk, length};
ghost use Rattle.tsdb_flush.specs.TakingSteps.{IsDraw, IsOldestFrozen};
ghost use Rattle.tsdb_flush.specs.Taking.{IsJobTaken, job_numbers};
ghost use Rattle.tsdb_flush.specs.Jobs.{IsJob};
ghost use Rattle.tsdb_base.specs.Limits.{end_of_numbers};

use crate::job::FlushJob;
use crate::series::{PairSeries, has_point, numbers_of, schemas_of, series_in_order};
use tsdb_base::{FileNumber, Memory, Space};
use tsdb_memory::{FrozenPair, MemoryStore};

/// The oldest frozen pair.
fn oldest(memory: &MemoryStore) -> &FrozenPair
    requires { 0 < length memory.now.frozen }
    ensures { IsOldestFrozen memory.now.frozen result.now }
{
    &memory.frozen()[0]
}

/// Draws the next number, where one of the series has a point in the space.
fn draw(series: &[PairSeries<'_>], space: Space, next: &mut u64) -> Option<FileNumber>
    requires { next.old < end_of_numbers }
    ensures { IsDraw space series.now next.old next.new result }
{
    if !has_point(series, space) {
        return None;
    }
    let number = FileNumber(*next);
    *next += 1;
    Some(number)
}

/// The job of a flush of the oldest frozen pair. Its files get the numbers from `next` on: one for each part that has a
/// point, sequence before unsequence. One of them has.
pub fn take(memory: &MemoryStore, next: u64) -> Result<FlushJob, Memory>
    requires frozen { 0 < length memory.now.frozen }
    requires left { next + 2 ≤ end_of_numbers }
    ensures job { IfOk result IsJob }
    ensures taken { IfOk result (IsJobTaken memory.now next) }
    ensures some { IfOk result (λ job. 0 < length (job_numbers job)) }
{
    // (a call that tells what always holds of memory)
    memory.sound();
    let oldest = oldest(memory);
    let in_order = series_in_order(memory, oldest.pair())?;
    oldest.pair().sound();
    let alloc = *in_order.allocator();
    let all = in_order.as_slice();
    let series = numbers_of(alloc, all)?;
    let schemas = schemas_of(alloc, all)?;
    let mut next = next;
    let sequence = draw(all, Space::Sequence, &mut next);
    let unsequence = draw(all, Space::Unsequence, &mut next);
    match oldest.share() {
        Some(pair) => Ok(FlushJob {
            born: oldest.born(),
            pair,
            series,
            schemas,
            sequence,
            unsequence,
        }),
        None => Err(Memory),
    }
}
