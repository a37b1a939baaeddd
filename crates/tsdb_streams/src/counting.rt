//! How many pages of a stream were read. Depends on `filling` and `stream`.
ghost use Rattle.std.specs.Prelude.{◌≤◌, sum_by};
ghost use Rattle.tsdb_streams.specs.Lanes.{count_due, lane_due};
ghost use Rattle.tsdb_streams.specs.Streams.{stream_due};

use crate::filling::is_due;
use crate::lane::Lane;
use crate::stream::Stream;
use tsdb_base::Range;
use tsdb_index::PageEntry;

/// How many of the pages before the one with this number are due.
fn count_before(range: &Range, passed: &[bool], pages: &[PageEntry], number: usize) -> u64
    ensures { result ≤ count_due range.now passed.now pages.now }
{
    let mut count: u64 = 0;
    for place in 0..number.min(pages.len()) {
        if is_due(range, passed, place, &pages[place]) {
            count = count.saturating_add(1);
        }
    }
    count
}

/// How many pages of a source were read: those before its next one that are due.
fn count_lane<R>(range: &Range, lane: &Lane<'_, R>) -> u64
    ensures { result ≤ lane_due range.now lane.now }
{
    match lane {
        Lane::Pages(pages) => count_before(
            range,
            &pages.passed,
            pages.entry.pages.items(),
            pages.next,
        ),
        Lane::Part(_) => 0,
    }
}

/// How many pages of the sources were read.
fn count_lanes<R>(range: &Range, lanes: &[Lane<'_, R>]) -> u64
    ensures { result ≤ sum_by (lane_due range.now) lanes.now }
{
    let mut count: u64 = 0;
    for lane in lanes {
        count = count.saturating_add(count_lane(range, lane));
    }
    count
}

impl<R> Stream<'_, R> {
    /// How many pages were read.
    pub fn pages_read(&self) -> u64
        ensures { result ≤ stream_due self.now }
    {
        count_lanes(&self.kept.range, &self.lanes)
    }
}
