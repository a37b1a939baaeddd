//! Whether a page of an entry meets some times. Depends on `survival` and tsdb_aggregate.
ghost use Rattle.std.specs.Prelude.{◌≡◌, ◌<◌, IsTrue, length, map};
ghost use Rattle.tsdb_streams.specs.Clean.{any_meets};
ghost use Rattle.tsdb_streams.specs.Cleaning.{page_times};
ghost use Rattle.tsdb_streams.specs.Order.{ArePagesInOrder, IsNextPage};

use crate::survival::times_of;
use tsdb_aggregate::overlap;
use tsdb_base::Range;
use tsdb_index::PageEntry;

/// Whether a page begins no later than it ends, and before it the one at the place before has ended.
fn is_next(pages: &[PageEntry], place: usize) -> bool
    requires { place < length pages.now }
    ensures { IsTrue result → IsNextPage pages.now place }
{
    let stats = &pages[place].stats;
    if place > 0 && stats.start <= pages[place - 1].stats.end {
        return false;
    }
    stats.start <= stats.end
}

/// Whether each of these pages begins no later than it ends, and ends before the next one begins.
pub(crate) fn are_in_order(pages: &[PageEntry]) -> bool
    ensures { IsTrue result → ArePagesInOrder pages.now }
{
    for place in 0..pages.len() {
        if !is_next(pages, place) {
            return false;
        }
    }
    true
}

/// Whether one of these pages meets the times, by a look at each.
fn some_meets(pages: &[PageEntry], times: &Range) -> bool
    ensures { result ≡ any_meets times.now (map page_times pages.now) }
{
    for page in pages {
        if overlap(&times_of(&page.stats), times) {
            return true;
        }
    }
    false
}

/// Whether one of these pages, which stand in order of time, meets the times. It looks at the first one that does not
/// end before them.
fn first_meets(pages: &[PageEntry], times: &Range) -> bool
    requires order { ArePagesInOrder pages.now }
    ensures { result ≡ any_meets times.now (map page_times pages.now) }
{
    let place = pages.partition_point(|page| page.stats.end < times.from);
    match pages.get(place) {
        Some(page) => overlap(&times_of(&page.stats), times),
        None => false,
    }
}

/// Whether one of these pages meets the times. Where they stand in order of time, it is found by a binary search.
pub(crate) fn page_meets(pages: &[PageEntry], in_order: bool, times: &Range) -> bool
    requires order { IsTrue in_order → ArePagesInOrder pages.now }
    ensures { result ≡ any_meets times.now (map page_times pages.now) }
{
    if in_order {
        first_meets(pages, times)
    } else {
        some_meets(pages, times)
    }
}
