//! The job of a flush, taken from memory: its series in a worked order, its numbers, and its pair.
use crate::schemas::schema_at;
use std::alloc::Global;
use std::test::Fail;
use tsdb_base::{DataType, Encoding, FileNumber, List, Time, Value};
use tsdb_flush::{FlushJob, take};
use tsdb_log::CellRecord;
use tsdb_memory::MemoryStore;
use tsdb_path::Path;

/// The number that the next file gets.
const NEXT: u64 = 7;

/// Series in the order of their creation. One device is a prefix of others, or of others' names.
const PATHS: [&[u8]; 12] = [
    b"root.a.z",
    b"root.b.a",
    b"root.a.b.c",
    b"root.ab.a",
    b"root.a.b",
    b"root.a.b.B",
    b"root.a0.z",
    b"root.a.b.c.a",
    b"root.B.a",
    b"root.a._1",
    b"root.a.b0.a",
    b"root.a.b.a",
];

/// The same in the order of a tree: by the bytes of the device, and then by those of the measurement.
const IN_ORDER: [&[u8]; 12] = [
    b"root.B.a",
    b"root.a._1",
    b"root.a.b",
    b"root.a.z",
    b"root.a.b.B",
    b"root.a.b.a",
    b"root.a.b.c",
    b"root.a.b.c.a",
    b"root.a.b0.a",
    b"root.a0.z",
    b"root.ab.a",
    b"root.b.a",
];

/// The times of the points of a series whose device has the watermark 20, and the numbers that are drawn then: one for
/// each space with a point, sequence before unsequence.
const DRAWS: [(&[Time], Option<u64>, Option<u64>); 3] = [
    (&[21, 22], Some(7), None),
    (&[20, 1], None, Some(7)),
    (&[1, 21], Some(7), Some(8)),
];

/// Creates a series.
fn create(alloc: Global, memory: &mut MemoryStore, path: &[u8]) -> Result<(), Fail> {
    let schema = schema_at(alloc, path, DataType::Int64, Encoding::Ts2diff)?;
    if memory.series(&schema.path).is_some() || memory.stamp() > 1_000_000 {
        return Err("there already".into());
    }
    memory.prepare_create()?;
    memory.finish_create(schema);
    Ok(())
}

/// Puts a point of a series.
fn put(alloc: Global, memory: &mut MemoryStore, path: &[u8], time: Time) -> Result<(), Fail> {
    let path = Path::read(alloc, path)?;
    let Some(found) = memory.series(&path) else {
        return Err("no series".into());
    };
    if path.nodes() < 3 || found.data_type != DataType::Int64 || memory.stamp() > 1_000_000 {
        return Err("another series".into());
    }
    let device = path.device()?;
    let cells = vec![in alloc;
        CellRecord {
            series: found.id,
            value: Value::I64(time)
        },
    ]?;
    memory.prepare_insert(&cells)?;
    memory.finish_insert(&device, time, List::of(cells));
    Ok(())
}

/// The oldest frozen pair leaves.
fn leave(memory: &mut MemoryStore) -> Result<(), Fail> {
    if memory.frozen().is_empty() {
        return Err("nothing is frozen".into());
    }
    memory.finish_flushed(None);
    Ok(())
}

/// Freezes the working pair, which has a point.
fn freeze(memory: &mut MemoryStore) -> Result<(), Fail> {
    if memory.frozen().len() >= 2 {
        return Err("two are frozen".into());
    }
    if memory.is_idle() {
        return Err("nothing to freeze".into());
    }
    let freezing = memory.prepare_freeze()?;
    memory.finish_freeze(freezing);
    Ok(())
}

/// Creates these series in this order, and puts a point of each at the time.
fn fill(alloc: Global, memory: &mut MemoryStore, paths: &[&[u8]], time: Time) -> Result<(), Fail> {
    for path in paths {
        create(alloc, memory, path)?;
    }
    for path in paths {
        put(alloc, memory, path, time)?;
    }
    Ok(())
}

/// The job of the oldest frozen pair.
fn taken(memory: &MemoryStore) -> Result<FlushJob, Fail> {
    if memory.frozen().is_empty() {
        return Err("nothing is frozen".into());
    }
    Ok(take(memory, NEXT)?)
}

/// Whether the schema at the place is of the path.
fn has_schema(job: &FlushJob, place: usize, path: &[u8]) -> bool {
    match job.schemas.items().get(place) {
        Some(schema) => schema.path.bytes() == path,
        None => false,
    }
}

/// Whether the number at the place is that of the path in memory.
fn has_number(memory: &MemoryStore, job: &FlushJob, place: usize, path: &[u8]) -> bool {
    let Some(id) = job.series.items().get(place) else {
        return false;
    };
    match memory.schema(*id) {
        Some(found) => found.0.bytes() == path,
        None => false,
    }
}

/// Whether the job has these series in this order, and no other.
fn has_series(memory: &MemoryStore, job: &FlushJob, paths: &[&[u8]]) -> bool {
    for (place, path) in paths.iter().enumerate() {
        if !has_schema(job, place, path) || !has_number(memory, job, place, path) {
            return false;
        }
    }
    job.schemas.items().len() == paths.len() && job.series.items().len() == paths.len()
}

/// Series stand in the order of a tree, whatever the order of their creation.
#[test]
fn series_stand_in_the_order_of_a_tree(rt: HostRuntime) -> Result<(), Fail> {
    let mut memory = MemoryStore::new(rt.alloc());
    fill(rt.alloc(), &mut memory, &PATHS, 5)?;
    freeze(&mut memory)?;
    assert!(&rt; has_series(&memory, &taken(&memory)?, &IN_ORDER));
    Ok(())
}

/// Puts points of the first series of the table at these times, behind a flush that left the watermark 20.
fn put_behind(alloc: Global, memory: &mut MemoryStore, times: &[Time]) -> Result<(), Fail> {
    create(alloc, memory, PATHS[0])?;
    put(alloc, memory, PATHS[0], 20)?;
    freeze(memory)?;
    leave(memory)?;
    for time in times {
        put(alloc, memory, PATHS[0], *time)?;
    }
    freeze(memory)
}

/// The job of a pair of one series with points at these times, whose device has the watermark 20.
fn job_at(alloc: Global, times: &[Time]) -> Result<FlushJob, Fail> {
    let mut memory = MemoryStore::new(alloc);
    put_behind(alloc, &mut memory, times)?;
    taken(&memory)
}

/// The number of a file, where one is drawn.
fn number(file: Option<FileNumber>) -> Option<u64> {
    match file {
        Some(file) => Some(file.0),
        None => None,
    }
}

/// Whether the job has these numbers, and the one series once.
fn has_drawn(job: &FlushJob, sequence: Option<u64>, unsequence: Option<u64>) -> bool {
    number(job.sequence) == sequence
        && number(job.unsequence) == unsequence
        && job.series.items().len() == 1
}

/// Whether the job of each row has the numbers of the row.
fn are_drawn(alloc: Global) -> Result<bool, Fail> {
    for (times, sequence, unsequence) in &DRAWS {
        if !has_drawn(&job_at(alloc, times)?, *sequence, *unsequence) {
            return Ok(false);
        }
    }
    Ok(true)
}

/// A number is drawn for each part that has a point.
#[test]
fn each_part_with_a_point_draws_a_number(rt: HostRuntime) -> Result<(), Fail> {
    assert!(&rt; are_drawn(rt.alloc())?);
    Ok(())
}

/// Whether the job has this born and this one series.
fn is_of(job: &FlushJob, born: u64, id: u64) -> bool {
    match job.series.items().first() {
        Some(first) => job.born.0 == born && first.0 == id && job.series.items().len() == 1,
        None => false,
    }
}

/// Creates two series, and freezes a pair with a point of the second, and one with a point of the first.
fn freeze_two(alloc: Global, memory: &mut MemoryStore) -> Result<(), Fail> {
    create(alloc, memory, PATHS[0])?;
    create(alloc, memory, PATHS[1])?;
    put(alloc, memory, PATHS[1], 5)?;
    freeze(memory)?;
    put(alloc, memory, PATHS[0], 6)?;
    freeze(memory)
}

/// Of two frozen pairs the older one is taken, and then the other, each with the one series that has a point in it. The
/// stamp was 3 at the first freeze, behind two creations and a row, and 4 at the second.
#[test]
fn the_oldest_pair_is_taken(rt: HostRuntime) -> Result<(), Fail> {
    let mut memory = MemoryStore::new(rt.alloc());
    freeze_two(rt.alloc(), &mut memory)?;
    assert!(&rt; is_of(&taken(&memory)?, 3, 1));
    leave(&mut memory)?;
    assert!(&rt; is_of(&taken(&memory)?, 4, 0));
    Ok(())
}
