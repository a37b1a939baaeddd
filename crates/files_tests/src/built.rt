//! Tests of tsfile_writer: files that a builder and `write_tree` make.
ghost use Rattle.std.specs.Prelude.{◌≡◌, ◌<◌, ◌≤◌, ◌↔◌, All, IsTrue, IfOk, List, OnOk, [], length, ℕ};
ghost use Rattle.tsdb_base.specs.Values.{type_of};
ghost use Rattle.tsdb_base.specs.Points.{IsRising};
ghost use Rattle.tsdb_path.specs.Order.{AreNamesBefore};
ghost use Rattle.tsdb_path.specs.Nodes.{device_of, measurement_of, node_count};
ghost use Rattle.tsfile_writer.specs.Building.{WasGiven};
ghost use Rattle.tsfile_writer.specs.Driving.{HasLast, IsBare};

use super::reader::{Call, NO_CALL, fault_of, meta_of};
use super::samples::{ChunkRow, WORKED, WORKED_DEVICE, expect_none, numbered_tree, tree};
use std::alloc::Global;
use std::cmp::Ordering;
use std::test::Fail;
use tsdb_base::{DataType, Encoding, Memory, Point, copy_points, is_rising, suits};
use tsdb_pages::{Chunk, Tree, is_tree};
use tsdb_path::Path;
use tsfile_writer::{BuildFault, Builder, write_tree};

/// A series to build: its path, and what it has as a chunk.
#[derive(Drop)]
struct Series<'a> {
    path: Path,
    chunk: &'a Chunk,
}

/// The series of a tree, in order.
fn series_of(alloc: Global, tree: &Tree) -> Option<Vec<Series<'_>>> {
    let mut all = Vec::new(alloc);
    for group in tree.groups.items() {
        for chunk in group.chunks.items() {
            let path = group.device.child(&chunk.measurement).ok()?;
            all.push(Series { path, chunk }).ok()?;
        }
    }
    Some(all)
}

/// The points of a chunk.
fn points_of(alloc: Global, chunk: &Chunk) -> Result<Vec<Point>, Memory> {
    let mut points = Vec::new(alloc);
    for page in chunk.pages.items() {
        points.append(&mut copy_points(alloc, page.points.items())?)?;
    }
    Ok(points)
}

/// Whether the names of the second path come behind those of the first.
fn may_follow(last: &Path, next: &Path) -> Result<bool, Memory>
    requires last { 2 ≤ node_count last.now }
    requires next { 2 ≤ node_count next.now }
    ensures { IfOk result (λ may. IsTrue may → AreNamesBefore
        (device_of last.now, measurement_of last.now) (device_of next.now, measurement_of next.now)) }
{
    let before = last.device()?;
    let behind = next.device()?;
    if before < behind {
        Ok(true)
    } else if before.covers(&behind) {
        let order = last.measurement().cmp(next.measurement());
        Ok(matches!(order, Ordering::Less))
    } else {
        Ok(false)
    }
}

/// Whether these are points of the type, in order of time.
fn are_points(points: &[Point], data_type: DataType) -> bool
    ensures { IsTrue result ↔ (0 < length points.now) × All (λ point. type_of point.value ≡ data_type) points.now
        × IsRising points.now }
{
    !points.is_empty()
        && points
            .iter()
            .all(|point| point.value.data_type() == data_type)
        && is_rising(points)
}

/// Gives the points to the last series, which has none yet. What a builder may not be given fails too.
fn put_points(
    builder: &mut Builder,
    path: &Path,
    data_type: DataType,
    encoding: Encoding,
    points: Vec<Point>,
) -> Result<(), BuildFault>
    requires { IsBare path.now data_type encoding builder.old }
    ensures { OnOk result (HasLast path.now builder.new) }
{
    if !are_points(&points, data_type) {
        return Err(BuildFault::Memory);
    }
    for point in points {
        builder.point(point)?;
    }
    Ok(())
}

/// Gives the series to the builder, one behind the other. There is one at least. What a builder may not be given fails
/// too.
fn put_all(alloc: Global, all: &[Series<'_>], builder: &mut Builder) -> Result<(), BuildFault>
    requires { WasGiven builder.old [] }
    ensures { OnOk result ((path : List ℕ) × HasLast path builder.new) }
{
    let mut last: Option<&Path> = None;
    for series in all {
        let path = &series.path;
        let data_type = series.chunk.data_type;
        let encoding = series.chunk.encoding;
        if path.nodes() < 2 || !suits(data_type, encoding) {
            return Err(BuildFault::Memory);
        }
        if let Some(last) = last {
            if !may_follow(last, path)? {
                return Err(BuildFault::Memory);
            }
        }
        builder.series(path, data_type, encoding)?;
        let points = points_of(alloc, series.chunk)?;
        put_points(builder, path, data_type, encoding, points)?;
        last = Some(path);
    }
    match last {
        Some(_) => Ok(()),
        None => Err(BuildFault::Memory),
    }
}

/// The file of the series.
fn built(alloc: Global, all: &[Series<'_>]) -> Result<Vec<u8>, BuildFault> {
    let mut builder = Builder::new(alloc);
    put_all(alloc, all, &mut builder)?;
    builder.finish()
}

/// The file that a builder makes of the series of a tree, if that was made.
fn built_of(alloc: Global, tree: &Option<Tree>) -> Option<Vec<u8>> {
    let all = series_of(alloc, tree.as_ref()?)?;
    built(alloc, &all).ok()
}

/// The file of a tree.
pub fn file_of(alloc: Global, tree: &Tree) -> Option<Vec<u8>> {
    if is_tree(tree) {
        write_tree(alloc, tree).ok()
    } else {
        None
    }
}

/// The file that both a builder and `write_tree` make of a tree, if it passes the check.
fn both(alloc: Global, tree: &Option<Tree>) -> Option<Vec<u8>> {
    let bytes = file_of(alloc, tree.as_ref()?)?;
    let is_same = match built_of(alloc, tree) {
        Some(built) => built == bytes,
        None => false,
    };
    let is_right = is_same && fault_of(alloc, &bytes, Call::Check).is_none();
    is_right.then_some(bytes)
}

/// Whether both make the worked file.
fn is_worked_made(alloc: Global) -> bool {
    match both(alloc, &tree(alloc, &[WORKED_DEVICE])) {
        Some(bytes) => bytes.as_slice() == WORKED.as_slice(),
        None => false,
    }
}

#[test]
fn worked_file(rt: HostRuntime) {
    assert!(rt; is_worked_made(rt.alloc()));
}

/// A pair of type and encoding, and how many points each page of three series has.
type Case = (DataType, Encoding, [&'static [u16]; 3]);

static CASES: [Case; 2] = [
    (
        DataType::Boolean,
        Encoding::Rle,
        [&[1000, 1000], &[1000, 1000, 1], &[1]],
    ),
    (
        DataType::Text,
        Encoding::Dictionary,
        [&[1000, 1], &[999], &[1]],
    ),
];

/// The tree of the three series of a case.
fn tree_of_case(alloc: Global, case: Case) -> Option<Tree> {
    let (data_type, encoding, sizes) = case;
    let rows: [ChunkRow<'_>; 3] = [
        (b"s", data_type, encoding, sizes[0]),
        (b"t", data_type, encoding, sizes[1]),
        (b"a", data_type, encoding, sizes[2]),
    ];
    let (first, second) = rows.split_at(2);
    tree(alloc, &[(b"root.a", first), (b"root.b", second)])
}

/// The place of the first case of which they make different files, or one that is not right.
fn wrong_case(alloc: Global, cases: &[Case]) -> Option<usize> {
    for place in 0..cases.len() {
        if both(alloc, &tree_of_case(alloc, cases[place])).is_none() {
            return Some(place);
        }
    }
    None
}

/// Pages are begun at 1,000 points alone.
#[test]
fn pages_filled_in_turn(rt: HostRuntime) -> Result<(), Fail> {
    expect_none(wrong_case(rt.alloc(), &CASES))
}

/// The entries of 300 series stand in two leaves.
#[test]
fn two_leaves(rt: HostRuntime) {
    let alloc = rt.alloc();
    assert!(rt; both(alloc, &numbered_tree(alloc, b"root.d", 0, 300)).is_some());
}

/// How many pages the one chunk has of a file.
fn pages_in(alloc: Global, bytes: &[u8]) -> Option<usize> {
    match meta_of(alloc, bytes, Call::Check, NO_CALL) {
        Ok(meta) => match meta.index.entries.items() {
            [entry] => Some(entry.pages.items().len()),
            _ => None,
        },
        Err(_) => None,
    }
}

/// Whether a chunk of 300 pages of one point is written, and read.
fn are_many_pages(alloc: Global) -> bool {
    let rows: [ChunkRow<'_>; 1] = [(b"s", DataType::Int64, Encoding::Plain, &[1; 300])];
    match tree(alloc, &[(b"root.d", &rows)]) {
        Some(tree) => match file_of(alloc, &tree) {
            Some(bytes) => pages_in(alloc, &bytes) == Some(300),
            None => false,
        },
        None => false,
    }
}

/// A chunk of more pages than one byte counts.
#[test]
fn many_pages(rt: HostRuntime) {
    assert!(rt; are_many_pages(rt.alloc()));
}
