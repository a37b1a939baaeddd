//! A file on a real disk whose pages are spoiled behind whole statistics, after it was stored. An opening would find
//! that, so no program can be led here.
ghost use Rattle.std.specs.Prelude.{◌≡◌};

use crate::asking::{Answer, ask_file};
use crate::queries::{Query, asked_of, bytes_to};
use fs_outside::FsPlace;
use std::fs;
use std::test::Fail;
use tsdb_base::{Aggregate, FileNumber, Time};
use tsdb_outside::{Files, Place, Port, StoreFault};

/// The first byte of the first page: behind the head, the group of `root.g.d`, and the chunk of `s`.
const FIRST_PAGE: usize = 7 + 11 + 6;

/// How many bytes the pages of 2,000 points have, and the place behind them, at which the index begins.
const PAGES: usize = 2 * (1 + 4 + 4 + 2 + 1000 * 8) + 5 + 6;

/// Overwrites the pages, and nothing else.
fn spoil(bytes: &mut [u8]) {
    let behind = FIRST_PAGE + PAGES;
    for (place, byte) in bytes.iter_mut().enumerate() {
        if FIRST_PAGE <= place && place < behind {
            *byte = 0xff;
        }
    }
}

/// Stores the file, spoils its pages, asks, and removes it.
fn ask_spoiled<F: Files>(
    rt: &HostRuntime,
    port: &mut F::Port,
    query: &Query,
) -> Result<Answer, Fail>
    ensures same_store { F.Port.store port.new ≡ F.Port.store port.old }
{
    let mut bytes = bytes_to(rt.alloc(), query.last)?;
    let asked = asked_of(rt.alloc(), query)?;
    let Ok(mut sealed) = port.put(FileNumber(1), &bytes) else {
        return Err("not stored".into());
    };
    spoil(&mut bytes);
    let spoils = fs::write(rt, "store/1.tsfile", &bytes);
    let answer = ask_file::<F>(rt.alloc(), port, asked, &mut sealed);
    let _ = port.remove(sealed);
    let answer = answer?;
    spoils?;
    Ok(answer)
}

fn ask_in_files<F: Files>(rt: &HostRuntime, files: &mut F, query: &Query) -> Result<Answer, Fail> {
    let mut port = files.port()?;
    let answer = ask_spoiled::<F>(rt, &mut port, query);
    files.end_port(port);
    answer
}

fn ask_in_place<P: Place>(rt: &HostRuntime, place: &mut P, query: &Query) -> Result<Answer, Fail> {
    let (journal, mut files) = place.take_up(b"store")?;
    let answer = ask_in_files(rt, &mut files, query);
    place.put_down(journal, files);
    answer
}

/// What a pin of the spoiled file answers, in a store in the directory of the test.
fn ask_on_disk(rt: &HostRuntime, query: &Query) -> Result<Answer, Fail> {
    let mut place = FsPlace::new(rt.clone()?);
    ask_in_place(rt, &mut place, query)
}

/// What is asked of the points at the times 1 to 2,000, between two times, and what comes.
type Row = (Option<Aggregate>, (Time, Time), Answer);

const FAILED: Answer = Answer::Fault(StoreFault::Failed);

const ROWS: [Row; 6] = [
    // The range has both pages, so their statistics are enough.
    (Some(Aggregate::Count), (1, 2_000), Answer::Value(2_000)),
    (
        Some(Aggregate::MaxValue),
        (Time::MIN, Time::MAX),
        Answer::Value(2_000),
    ),
    // It has the first page, and none of the second.
    (Some(Aggregate::Count), (1, 1_000), Answer::Value(1_000)),
    // A page has to be read.
    (Some(Aggregate::Count), (1, 1_999), FAILED),
    (None, (3, 3), FAILED),
    // No page meets the range.
    (None, (2_001, 3_000), Answer::Nothing),
];

/// The place of the first row to which something else comes.
fn first_wrong(rt: &HostRuntime, rows: &[Row]) -> Result<Option<usize>, Fail> {
    for (place, row) in rows.iter().enumerate() {
        let query = Query {
            last: 2_000,
            part: &[],
            deleted: &[],
            times: row.1,
            aggregate: row.0,
            streams: false,
        };
        if ask_on_disk(rt, &query)? != row.2 {
            return Ok(Some(place));
        }
    }
    Ok(None)
}

#[test]
fn spoiled_pages_behind_whole_statistics_still_count(rt: HostRuntime) -> Result<(), Fail> {
    assert_eq!(rt; first_wrong(&rt, &ROWS)?, None);
    Ok(())
}
