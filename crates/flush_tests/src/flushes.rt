//! Flushes of a pair with points of one series.
ghost use Rattle.std.specs.Prelude.{◌≡◌, ◌<◌, ◌≤◌, [], None, length, All, IsTrue, IfOk, IfSome};
ghost use Rattle.tsdb_base.specs.Values.{type_of};
ghost use Rattle.tsdb_flush.specs.Jobs.{IsJob};
ghost use Rattle.tsdb_model.specs.Commands.{IsSchema};
ghost use Rattle.tsdb_path.specs.Nodes.{node_count};

use crate::schemas::schema_at;
use mem_outside::{SteadyFiles, SteadyPlace};
use std::alloc::Global;
use std::sync::Arc;
use std::test::Fail;
use tsdb_base::{DataType, Encoding, FileNumber, List, Point, SeriesId, Space, Stamp, Time, Value};
use tsdb_flush::{Built, FlushJob, FlushRefused, Flushed, run_flush};
use tsdb_memtable::{Pair, Watermarks};
use tsdb_model::Schema;
use tsdb_outside::{Files, Place};
use tsdb_path::Path;

/// The one series.
const SERIES: SeriesId = SeriesId(4);

/// Whether the points are of the type.
fn are_of(points: &[Point], data_type: DataType) -> bool
    ensures { IsTrue result → All (λ point. type_of point.value ≡ data_type) points.now }
{
    points
        .iter()
        .all(|point| point.value.data_type() == data_type)
}

/// The number, where there is a point.
fn drawn_for(points: &[Point], number: u64) -> Option<FileNumber>
    ensures none { result ≡ None → points.now ≡ [] }
    ensures some { IfSome result (λ number. 0 < length points.now) }
{
    if points.is_empty() {
        None
    } else {
        Some(FileNumber(number))
    }
}

/// The flush of a pair that has points of the one series alone. It has drawn the numbers 7 and 8, where it needs them.
fn job_of(alloc: Global, pair: Pair, schema: Schema) -> Result<FlushJob, Fail>
    requires { IsSchema schema }
    ensures { IfOk result IsJob }
{
    let data_type = schema.data_type;
    let on_time = pair.points_of(Space::Sequence, SERIES);
    let late = pair.points_of(Space::Unsequence, SERIES);
    if !are_of(on_time, data_type) || !are_of(late, data_type) {
        return Err("another type".into());
    }
    let sequence = drawn_for(on_time, 7);
    let unsequence = drawn_for(late, 8);
    Ok(FlushJob {
        born: Stamp(5),
        series: List::of(vec![in alloc; SERIES]?),
        schemas: List::of(vec![in alloc; schema]?),
        pair: Arc::new(alloc, pair)?,
        sequence,
        unsequence,
    })
}

/// Puts a point of the series.
fn put(pair: &mut Pair, marks: &Watermarks, device: &Path, time: Time) -> Result<(), Fail> {
    pair.reserve(SERIES, 1)?;
    let point = Point {
        time,
        value: Value::I64(time),
    };
    let _space = pair.put(marks, device, SERIES, point);
    Ok(())
}

/// A pair with points at these times, where the device has the watermark 20.
fn pair_at(alloc: Global, schema: &Schema, times: &[Time]) -> Result<Pair, Fail>
    requires { 3 ≤ node_count schema.now.path }
{
    let mut pair = Pair::new(alloc);
    let mut marks = Watermarks::new(alloc);
    let device = schema.path.device()?;
    marks.reserve(&device)?;
    marks.raise(&device, 20);
    for time in times {
        put(&mut pair, &marks, &device, *time)?;
    }
    Ok(pair)
}

/// What the entry of a file says.
#[derive(Clone, Copy, Debug, PartialEq, Eq)]
struct Said {
    number: u64,
    born: u64,
    points: u64,
    hulls: u64,
    from: Time,
    to: Time,
    series: u64,
}

/// What is kept of a file, where there is one with a hull.
fn said_of<F: Files>(built: &Option<Built<F>>) -> Option<Said> {
    let built = built.as_ref()?;
    let entry = &built.entry;
    let hulls = entry.hulls.items();
    let hull = hulls.first()?;
    Some(Said {
        number: entry.number.0,
        born: entry.born.0,
        points: entry.points,
        hulls: hulls.len() as u64,
        from: hull.from,
        to: hull.to,
        series: built.series.items().len() as u64,
    })
}

/// Gives the file back, where there is one.
fn give_back<F: Files>(files: &mut F, built: Option<Built<F>>)
    requires unread { IfSome built (λ built. F.Sealed.rights built.sealed ≡ 0) }
    requires store { IfSome built (λ built. (F.Sealed.file built.sealed).store ≡ F.store files.old) }
    ensures { F.store files.new ≡ F.store files.old }
{
    if let Some(
        Built {
            sealed,
            entry: _,
            series: _,
        },
    ) = built
    {
        files.keep(sealed);
    }
}

/// Runs the flush and gives its files back. Returns what was kept of each part's file, or nothing where it stopped.
fn flushed<F: Files>(
    alloc: Global,
    files: &mut F,
    job: &FlushJob,
) -> Result<Option<(Option<Said>, Option<Said>)>, Fail>
    requires { IsJob job.now }
{
    let mut port = files.port()?;
    let outcome = run_flush::<F>(alloc, job, &mut port);
    files.end_port(port);
    match outcome {
        Ok(
            Flushed {
                sequence,
                unsequence,
            },
        ) => {
            let said = (said_of(&sequence), said_of(&unsequence));
            give_back(files, sequence);
            give_back(files, unsequence);
            Ok(Some(said))
        }
        Err(
            FlushRefused {
                files: Flushed {
                    sequence,
                    unsequence,
                },
                fault: _,
            },
        ) => {
            give_back(files, sequence);
            give_back(files, unsequence);
            Ok(None)
        }
    }
}

/// What is kept of the files of a flush of a pair with points at these times.
fn said_after(
    rt: &HostRuntime,
    times: &[Time],
) -> Result<Option<(Option<Said>, Option<Said>)>, Fail> {
    let alloc = rt.alloc();
    let slots = [vec![in alloc; 0]?, vec![in alloc; 0]?];
    let mut place = SteadyPlace::new(alloc, slots, Vec::new(alloc))?;
    let (_journal, mut files) = place.take_up(b"store")?;
    let schema = schema_at(
        alloc,
        b"root.plant.pump.speed",
        DataType::Int64,
        Encoding::Ts2diff,
    )?;
    let pair = pair_at(alloc, &schema, times)?;
    let job = job_of(alloc, pair, schema)?;
    flushed(alloc, &mut files, &job)
}

/// What is kept of a file of the one series.
fn file(number: u64, points: u64, from: Time, to: Time) -> Option<Said> {
    Some(Said {
        number,
        born: 5,
        points,
        hulls: 1,
        from,
        to,
        series: 1,
    })
}

/// Points above the watermark go to the sequence file, in order of time whatever the order of their writing, one that
/// was written twice once; points at and below it go to the unsequence file.
#[test]
fn each_part_has_its_file(rt: HostRuntime) -> Result<(), Fail> {
    let said = said_after(&rt, &[30, 25, 20, 10, 30])?;
    assert!(&rt; said == Some((file(7, 2, 25, 30), file(8, 2, 10, 20))));
    Ok(())
}

/// A part without points has no file.
#[test]
fn a_part_without_points_has_no_file(rt: HostRuntime) -> Result<(), Fail> {
    assert!(&rt; said_after(&rt, &[21])? == Some((file(7, 1, 21, 21), None)));
    assert!(&rt; said_after(&rt, &[20, 1])? == Some((None, file(8, 2, 1, 20))));
    assert!(&rt; said_after(&rt, &[])? == Some((None, None)));
    Ok(())
}
