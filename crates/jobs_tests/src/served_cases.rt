//! How many bytes a compaction reads. Depends on `served` and `stored`.
use crate::served::{Served, close, new_place, open};
use crate::stored::serve_all;
use mem_outside::{MemFiles, MemJournal};
use std::alloc::Global;
use std::test::Fail;
use tsdb_model::Command;
use tsdb_print::print_reply;

/// The names of a series in the index: `root.g.d` and `a`, each behind its length in two bytes.
const NAMES: u64 = 2 + 8 + 2 + 1;

/// Statistics of INT64: the count, the first and the last time, four values, and the sum.
const STATISTICS: u64 = 7 * 8 + 16;

/// A page in the index: its place and its statistics.
const PAGE: u64 = 8 + STATISTICS;

/// A series of one page in the index: names, type, encoding and place, and the statistics of all points and of the
/// page.
const SERIES: u64 = NAMES + 1 + 1 + 8 + STATISTICS + 4 + PAGE;

/// What is read of the index of two series of one page each: the tail, the head of 7 bytes, the root with its one
/// pointer, and the leaf.
const INDEX: u64 = (8 + 6) + 7 + (1 + 4 + NAMES + 8) + (1 + 2 + 2 * SERIES);

/// A page of 1,000 points in PLAIN at times that rise by 1 from 1. Its end is where the next one begins.
const WHOLE: u64 = 1 + 4 + 4 + (2 + 1 + 1 + 1) + (2 + 1000 * 8);

/// What is read of the last page of a series, whose end the index does not say: 24 bytes for each point, and 64.
const LAST_OF_ONE: u64 = 24 + 64;

const LAST_OF_THREE: u64 = 3 * 24 + 64;

/// Inserts a point of a series at each time from the first to the last.
fn insert(
    alloc: Global,
    served: &mut Served<MemJournal, MemFiles>,
    name: &str,
    first: u64,
    last: u64,
) -> Result<(), Fail> {
    for time in first..=last {
        let line = format!(in alloc; "insert into root.g.d(timestamp,{name}) values({time},1)")?;
        serve_all(alloc, served, &[line.as_str()])?;
    }
    Ok(())
}

/// Flushes two files of two series, and deletes all their points.
fn fill(alloc: Global, served: &mut Served<MemJournal, MemFiles>) -> Result<(), Fail> {
    let series = [
        "create timeseries root.g.d.a with datatype=INT64,encoding=PLAIN",
        "create timeseries root.g.d.b with datatype=INT64,encoding=PLAIN",
    ];
    serve_all(alloc, served, &series)?;
    insert(alloc, served, "a", 1, 1_001)?;
    insert(alloc, served, "b", 5, 5)?;
    serve_all(alloc, served, &["flush"])?;
    insert(alloc, served, "a", 1_002, 1_004)?;
    insert(alloc, served, "b", 1_005, 1_005)?;
    let rest = ["flush", "delete from root.g.d.a", "delete from root.g.d.b"];
    serve_all(alloc, served, &rest)?;
    Ok(())
}

/// How many bytes the compaction of these files reads, and the printed files behind it.
fn read_by_compaction(
    alloc: Global,
    served: &mut Served<MemJournal, MemFiles>,
) -> Result<(u64, Vec<u8>), Fail> {
    fill(alloc, served)?;
    let before = served.bytes_read();
    let compacting = ["compact inner sequence", "show files"];
    let Some(files) = serve_all(alloc, served, &compacting)? else {
        return Err(Fail::from("no reply"));
    };
    let bytes = served.bytes_read().saturating_sub(before);
    Ok((bytes, print_reply(alloc, &Command::ShowFiles, &files)?))
}

/// The index of an input is read once for both of its series, and each page once. No point is left, so no output is
/// written.
#[test]
fn the_index_of_an_input_is_read_once(rt: HostRuntime) -> Result<(), Fail> {
    let older = INDEX + PAGE + WHOLE + 2 * LAST_OF_ONE;
    let newer = INDEX + LAST_OF_THREE + LAST_OF_ONE;
    let mut place = new_place(rt.alloc(), &[], &[])?;
    let mut served = open(rt.alloc(), &mut place, 1_000_000, 1)?;
    let read = read_by_compaction(rt.alloc(), &mut served);
    close(&mut place, served);
    let (bytes, files) = read?;
    assert_eq!(rt; bytes, older + newer);
    assert!(rt; files.as_slice() == "frozen 0\nworking 0 0\nmarks 0\n".as_bytes());
    Ok(())
}
