//! A file of one series, and what is asked of it.
ghost use Rattle.std.specs.Prelude.{◌≤◌, IfOk};
ghost use Rattle.tsdb_path.specs.Nodes.{node_count};

use crate::files::{Deletion, Pair, file_of, marks_of, page_of, points_of};
use std::alloc::Global;
use std::test::Fail;
use tsdb_base::{Aggregate, DataType, Encoding, Point, Range, Time};
use tsdb_marks::Marks;
use tsdb_model::Schema;
use tsdb_path::Path;

/// A file with a point at each time from 1 to the last, whose value is its time, and what is asked of it: an aggregate,
/// or the rows. It is born at 5; the points of a part in memory are newer than all.
#[derive(Clone, Copy)]
pub struct Query {
    pub last: Time,
    pub part: &'static [Pair],
    pub deleted: &'static [Deletion],
    pub times: (Time, Time),
    pub aggregate: Option<Aggregate>,
    /// Whether the points are taken from a stream, in place of rows.
    pub streams: bool,
}

/// What a pin has beside its sources.
#[derive(Drop)]
pub struct Asked {
    pub schema: Schema,
    pub marks: Marks,
    pub range: Range,
    pub aggregate: Option<Aggregate>,
    pub part: Vec<Point>,
    pub streams: bool,
}

fn pairs_to(alloc: Global, last: Time) -> Result<Vec<Pair>, Fail> {
    let mut pairs = Vec::new(alloc);
    for time in 1..=last {
        pairs.push((time, time))?;
    }
    Ok(pairs)
}

/// The bytes of the file with points up to the last, in pages of 1,000.
pub fn bytes_to(alloc: Global, last: Time) -> Result<Vec<u8>, Fail> {
    let pairs = pairs_to(alloc, last)?;
    let mut pages = Vec::new(alloc);
    for page in pairs.chunks(1000) {
        pages.push(page_of(alloc, page)?)?;
    }
    file_of(alloc, pages)
}

fn schema_of(alloc: Global) -> Result<Schema, Fail>
    ensures { IfOk result (λ schema. 2 ≤ node_count schema.path) }
{
    let path = Path::read(alloc, b"root.g.d.s")?;
    if path.nodes() < 2 {
        return Err("no series".into());
    }
    Ok(Schema {
        path,
        data_type: DataType::Int64,
        encoding: Encoding::Plain,
    })
}

pub fn asked_of(alloc: Global, query: &Query) -> Result<Asked, Fail>
    ensures { IfOk result (λ asked. 2 ≤ node_count asked.schema.path) }
{
    let marks = marks_of(alloc, query.deleted)?;
    let part = points_of(alloc, query.part)?;
    let schema = schema_of(alloc)?;
    Ok(Asked {
        schema,
        marks,
        range: Range {
            from: query.times.0,
            to: query.times.1,
        },
        aggregate: query.aggregate,
        part,
        streams: query.streams,
    })
}
