//! The conditions on a tree. Depends on `tree` and `rising`.
ghost use Rattle.std.specs.Prelude.{◌<◌, ◌≤◌, ◌↔◌, All, AllPairs, IsTrue, length};
ghost use Rattle.tsdb_base.specs.Limits.{max_entries};
ghost use Rattle.tsdb_base.specs.Points.{IsRising};
ghost use Rattle.tsdb_pages.specs.Pages.{ArePoints};
ghost use Rattle.tsdb_pages.specs.Trees.{IsBefore, IsChunk, IsGroup, IsTree, chunks_of, page_points};

use crate::tree::{Chunk, Group, Page, Tree};
use tsdb_base::limits::{MAX_ENTRIES, MAX_PAGES, MAX_VALUES};
use tsdb_base::{DataType, Point, is_rising, suits};

/// The most points of a page.
const MAX_POINTS: usize = MAX_VALUES;

/// The most chunks of a tree.
const MAX_CHUNKS: usize = MAX_ENTRIES;

/// Whether these may be the points of a page of this type: 1 to 1,000, in order of time.
pub fn are_points(points: &[Point], data_type: DataType) -> bool
    ensures { IsTrue result ↔ ArePoints data_type points.now }
{
    !points.is_empty()
        && points.len() <= MAX_POINTS
        && points
            .iter()
            .all(|point| point.value.data_type() == data_type)
        && is_rising(points)
}

/// Whether each page has points as a page of this type.
fn are_pages(pages: &[Page], data_type: DataType) -> bool
    ensures { IsTrue result ↔ All (λ page. ArePoints data_type page.points) pages.now }
{
    pages
        .iter()
        .all(|page| are_points(page.points.items(), data_type))
}

/// Whether times rise through all pages, in each of which they do.
fn rise_through(pages: &[Page]) -> bool
    requires some { All (λ page. 0 < length page.points) pages.now }
    requires rising { All (λ page. IsRising page.points) pages.now }
    ensures { IsTrue result ↔ IsRising (page_points pages.now) }
{
    for i in 1..pages.len() {
        let before = pages[i - 1].points.items();
        let next = pages[i].points.items();
        if next[0].time <= before[before.len() - 1].time {
            return false;
        }
    }
    true
}

fn is_chunk(chunk: &Chunk) -> bool
    ensures { IsTrue result ↔ IsChunk chunk.now }
{
    let pages = chunk.pages.items();
    if !suits(chunk.data_type, chunk.encoding) {
        return false;
    }
    if pages.is_empty() || pages.len() > MAX_PAGES {
        return false;
    }
    are_pages(pages, chunk.data_type) && rise_through(pages)
}

fn are_chunks(chunks: &[Chunk]) -> bool
    ensures { IsTrue result ↔ All IsChunk chunks.now }
{
    chunks.iter().all(|chunk| is_chunk(chunk))
}

/// Whether measurements rise.
fn measurements_rise(chunks: &[Chunk]) -> bool
    ensures { IsTrue result ↔ AllPairs (λ a b. IsBefore a.measurement b.measurement) chunks.now }
{
    for i in 1..chunks.len() {
        if chunks[i - 1].measurement >= chunks[i].measurement {
            return false;
        }
    }
    true
}

fn is_group(group: &Group) -> bool
    ensures { IsTrue result ↔ IsGroup group.now }
{
    let chunks = group.chunks.items();
    !chunks.is_empty() && are_chunks(chunks) && measurements_rise(chunks)
}

fn are_groups(groups: &[Group]) -> bool
    ensures { IsTrue result ↔ All IsGroup groups.now }
{
    groups.iter().all(|group| is_group(group))
}

/// Whether devices rise.
fn devices_rise(groups: &[Group]) -> bool
    ensures { IsTrue result ↔ AllPairs (λ a b. IsBefore a.device b.device) groups.now }
{
    for i in 1..groups.len() {
        if groups[i - 1].device >= groups[i].device {
            return false;
        }
    }
    true
}

/// Whether the groups have no more chunks than a tree may have.
fn have_few_chunks(groups: &[Group]) -> bool
    ensures { IsTrue result ↔ length (chunks_of groups.now) ≤ max_entries }
{
    let mut room = MAX_CHUNKS;
    for group in groups {
        if group.chunks.items().len() > room {
            return false;
        }
        room -= group.chunks.items().len();
    }
    true
}

/// Whether a file can be written of the tree: one group or more, each with a chunk, each with a page of 1 to 1,000
/// points of the chunk's type, in an encoding that suits it; devices, measurements and times rise; a chunk has at most
/// 4,294,967,295 pages and the tree at most 1,099,511,627,520 chunks.
pub fn is_tree(tree: &Tree) -> bool
    ensures { IsTrue result ↔ IsTree tree.now }
{
    let groups = tree.groups.items();
    !groups.is_empty() && have_few_chunks(groups) && are_groups(groups) && devices_rise(groups)
}
