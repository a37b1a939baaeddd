//! The speed of whole files: built, checked, their index read, and one entry of it found. It depends on `tsfile_writer`
//! and `tsfile_reader`.
ghost use Rattle.std.specs.Prelude.{◌≡◌, ◌<◌, ◌≤◌, ◌↔◌, [], All, IsTrue, OnOk, length};
ghost use Rattle.tsdb_base.specs.Values.{type_of};
ghost use Rattle.tsdb_base.specs.Points.{IsRising};
ghost use Rattle.tsdb_path.specs.Nodes.{node_count};
ghost use Rattle.tsfile_writer.specs.Building.{WasGiven};
ghost use Rattle.tsfile_writer.specs.Driving.{HasLast};

use crate::bench::{Bench, Unit};
use crate::fault::Fault;
use crate::names;
use crate::points::{Values, points};
use std::alloc::Global;
use tsdb_base::{DataType, Encoding, FileNumber, List, Point, is_rising};
use tsdb_outside::Port;
use tsdb_pages::{Chunk, Group, Page, Tree, is_tree};
use tsdb_path::{Name, Path};
use tsfile_reader::{check_file, find_entry, read_meta};
use tsfile_writer::{Builder, write_tree};

/// The points of the file of one series.
pub const POINTS: u64 = 1_000_000;

/// The chunks of the file with a large index.
pub const CHUNKS: u64 = 1_000;

/// The chunks of the file in which one entry is found.
pub const SERIES: u64 = 10_000;

/// Whether the path is one of a series, and these are points of INT64, in order of time.
fn are_numbers_of(path: &Path, points: &[Point]) -> bool
    ensures { IsTrue result ↔ (2 ≤ node_count path.now) × (0 < length points.now)
        × All (λ point. type_of point.value ≡ DataType.Int64) points.now × IsRising points.now }
{
    path.nodes() >= 2
        && !points.is_empty()
        && points
            .iter()
            .all(|point| point.value.data_type() == DataType::Int64)
        && is_rising(points)
}

/// Begins a series, the first one, and gives it the points.
fn fill(builder: &mut Builder, path: &Path, points: Vec<Point>) -> Result<(), Fault>
    requires { WasGiven builder.old [] }
    ensures { OnOk result (HasLast path.now builder.new) }
{
    if !are_numbers_of(path, &points) {
        return Err(Fault::Unread);
    }
    builder.series(path, DataType::Int64, Encoding::Ts2diff)?;
    for point in points {
        builder.point(point)?;
    }
    Ok(())
}

/// The file of one series with these points.
fn build(alloc: Global, path: &Path, points: Vec<Point>) -> Result<Vec<u8>, Fault> {
    let mut builder = Builder::new(alloc);
    fill(&mut builder, path, points)?;
    Ok(builder.finish()?)
}

/// The file of one series, and the row of building it.
pub fn build_large(bench: &mut Bench, count: u64) -> Vec<u8> {
    let alloc = bench.alloc();
    let Some(path) = bench.ok(Path::read(alloc, b"root.bench.d.s")) else {
        return Vec::new(alloc);
    };
    let given = points(bench, Values::GrowingUnevenly, count);
    bench.start();
    let large = bench.list(build(alloc, &path, given));
    bench.row(
        "a file of 1,000,000 INT64 TS_2DIFF",
        "build",
        count,
        Unit::Millions,
    );
    large
}

/// A chunk of one page of ten points.
fn chunk(bench: &mut Bench, number: u64) -> Option<Chunk> {
    let alloc = bench.alloc();
    let measurement = names::name(bench, format!(in alloc; "s{number:04}"))?;
    let page = Page {
        points: List::of(points(bench, Values::GrowingUnevenly, 10)),
    };
    let mut pages = Vec::new(alloc);
    bench.push(&mut pages, page);
    Some(Chunk {
        measurement,
        data_type: DataType::Int64,
        encoding: Encoding::Ts2diff,
        pages: List::of(pages),
    })
}

/// So many chunks of a device.
fn tree(bench: &mut Bench, device: Path, count: u64) -> Tree {
    let alloc = bench.alloc();
    let mut chunks = Vec::new(alloc);
    for number in 0..count {
        let chunk = chunk(bench, number);
        bench.put(&mut chunks, chunk);
    }
    let group = Group {
        device,
        chunks: List::of(chunks),
    };
    let mut groups = Vec::new(alloc);
    bench.push(&mut groups, group);
    Tree {
        groups: List::of(groups),
    }
}

/// A file of so many chunks.
pub fn many_chunks(bench: &mut Bench, count: u64) -> Vec<u8> {
    let alloc = bench.alloc();
    let Some(device) = bench.ok(Path::read(alloc, b"root.bench.d")) else {
        return Vec::new(alloc);
    };
    let tree = tree(bench, device, count);
    if is_tree(&tree) {
        bench.list(write_tree(alloc, &tree))
    } else {
        bench.fail(Fault::Unread);
        Vec::new(alloc)
    }
}

/// What is read of a file.
#[derive(Clone, Copy)]
enum Reading {
    /// All of it, each part tested.
    Whole,
    /// Its index.
    Index,
    /// One entry of its index.
    Entry,
}

/// How a file is read, and how the table calls that.
#[derive(Clone, Copy)]
pub struct Kind {
    reading: Reading,
    rounds: u64,
    what: &'static str,
    step: &'static str,
    unit: Unit,
}

pub const WHOLE: Kind = Kind {
    reading: Reading::Whole,
    rounds: 5,
    what: "the file, on the disk",
    step: "check",
    unit: Unit::Millions,
};

pub const INDEX: Kind = Kind {
    reading: Reading::Index,
    rounds: 100,
    what: "1,000 chunks, on the disk",
    step: "read_meta",
    unit: Unit::Millions,
};

pub const ENTRY: Kind = Kind {
    reading: Reading::Entry,
    rounds: 1_000,
    what: "one of 10,000 series, on the disk",
    step: "find_entry",
    unit: Unit::Each,
};

/// A file that is read.
#[derive(Clone, Copy)]
pub struct Readable<'a> {
    pub bytes: &'a [u8],
    /// How many points or entries are read in a round.
    pub count: u64,
    pub kind: Kind,
}

/// Finds the entry of one series.
fn find_one<P: Port>(bench: &mut Bench, port: &mut P, right: &P::Right)
    requires { (P.Right.file right.now).store ≡ P.store port.old }
    ensures { P.store port.new ≡ P.store port.old }
{
    let alloc = bench.alloc();
    let Some(device) = bench.ok(Path::read(alloc, b"root.bench.d")) else {
        return;
    };
    if let Some(measurement) = bench.ok(Name::read(alloc, b"s5000")) {
        bench.note(find_entry(alloc, port, right, &device, &measurement));
    }
}

/// Reads a file through the port.
fn read_file<P: Port>(bench: &mut Bench, port: &mut P, right: &P::Right, reading: Reading)
    requires { (P.Right.file right.now).store ≡ P.store port.old }
    ensures { P.store port.new ≡ P.store port.old }
{
    let alloc = bench.alloc();
    match reading {
        Reading::Whole => bench.note(check_file(alloc, port, right)),
        Reading::Index => bench.note(read_meta(alloc, port, right)),
        Reading::Entry => find_one(bench, port, right),
    }
}

/// The row of a file in the store of a port: how many points are checked a second, how many entries of its index are
/// read, or how long it takes to find one.
fn repeat<P: Port>(bench: &mut Bench, port: &mut P, right: &P::Right, file: Readable)
    requires { (P.Right.file right.now).store ≡ P.store port.old }
    ensures { P.store port.new ≡ P.store port.old }
{
    let kind = file.kind;
    let many = bench.rounds(kind.rounds);
    bench.start();
    for _ in 0..many {
        read_file(bench, port, right, kind.reading);
    }
    bench.row(
        kind.what,
        kind.step,
        many.saturating_mul(file.count),
        kind.unit,
    );
}

/// Reads a stored file, and removes it.
fn read_and_remove<P: Port>(bench: &mut Bench, port: &mut P, sealed: P::Sealed, file: Readable)
    requires rights { P.Sealed.rights sealed ≡ 0 }
    requires store { (P.Sealed.file sealed).store ≡ P.store port.old }
    ensures { P.store port.new ≡ P.store port.old }
{
    let mut sealed = sealed;
    match P::share(&mut sealed) {
        Ok(right) => {
            repeat(bench, port, &right, file);
            P::give_back(&mut sealed, right);
        }
        Err(fault) => bench.fail(fault),
    }
    bench.note(port.remove(sealed));
}

/// The rows of the files through one port.
pub fn read_all<P: Port>(bench: &mut Bench, port: &mut P, files: &[Readable])
    ensures { P.store port.new ≡ P.store port.old }
{
    for file in files {
        match port.put(FileNumber(1), file.bytes) {
            Ok(sealed) => read_and_remove(bench, port, sealed, *file),
            Err(fault) => bench.fail(fault),
        }
    }
}
