//! Which files are stored behind a command: those that are listed, and no others. Depends on `served`.
use crate::served::{Served, close, new_place, open};
use mem_outside::{MemFiles, MemJournal, MemPlace};
use std::alloc::Global;
use std::test::Fail;
use tests_support::command_of;
use tsdb_base::FileNumber;
use tsdb_model::Reply;
use tsdb_outside::{Files, Place};

const CREATE: &str = "create timeseries root.g.d.s with datatype=INT64,encoding=PLAIN";

const SELECT: &str = "select s from root.g.d";

/// Commands, each with the numbers of the files that are stored behind it.
const STEPS: &[(&str, &[u64])] = &[
    (CREATE, &[]),
    ("insert into root.g.d(timestamp,s) values(10,1)", &[]),
    ("flush", &[1]),
    ("insert into root.g.d(timestamp,s) values(20,2)", &[1]),
    ("flush", &[1, 2]),
    ("compact inner sequence", &[3]),
    (SELECT, &[3]),
    // A late point, between those of the file.
    ("insert into root.g.d(timestamp,s) values(15,3)", &[3]),
    ("flush", &[3, 4]),
    ("compact cross", &[5]),
    ("select count(s) from root.g.d", &[5]),
    // A compaction whose points are all deleted has no output.
    ("delete from root.g.d.s", &[5]),
    ("insert into root.g.d(timestamp,s) values(30,4)", &[5]),
    ("flush", &[5, 6]),
    ("delete from root.g.d.s", &[5, 6]),
    ("compact inner sequence", &[]),
];

/// The reply to the last of the commands.
pub fn serve_all<'a>(
    alloc: Global,
    served: &mut Served<MemJournal, MemFiles>,
    lines: &[&'a str],
) -> Result<Option<Reply>, Fail> {
    let mut last = None;
    for line in lines {
        let command = command_of(alloc, line)?;
        last = Some(served.serve(alloc, &command));
    }
    Ok(last)
}

/// The numbers of the files that a place has.
fn stored_in(place: &mut MemPlace) -> Result<Vec<FileNumber>, Fail> {
    let (journal, files) = place.take_up(b"d")?;
    let mut files = files;
    let numbers = files.list()?;
    place.put_down(journal, files);
    Ok(numbers)
}

/// The reply to the last of the commands, and the numbers of the files that are stored behind it, where these calls of
/// the journal fail.
fn stored_behind<'a>(
    alloc: Global,
    journal: &[u64],
    lines: &[&'a str],
) -> Result<(Option<Reply>, Vec<FileNumber>), Fail> {
    let mut place = new_place(alloc, journal, &[])?;
    let mut served = open(alloc, &mut place, 10_000, 1)?;
    let last = serve_all(alloc, &mut served, lines);
    close(&mut place, served);
    let last = last?;
    Ok((last, stored_in(&mut place)?))
}

/// Whether these are the stored files behind the last of the commands.
fn are_stored<'a>(alloc: Global, lines: &[&'a str], numbers: &[u64]) -> Result<bool, Fail> {
    let (_, stored) = stored_behind(alloc, &[], lines)?;
    Ok(
        stored.len() == numbers.len()
            && stored
                .iter()
                .zip(numbers)
                .all(|(file, number)| file.0 == *number),
    )
}

/// A flush, a compaction and a query leave no file that is not listed.
#[test]
fn listed_files_are_stored_and_no_others(rt: HostRuntime) -> Result<(), Fail> {
    let mut lines = Vec::new(rt.alloc());
    for (line, numbers) in STEPS {
        lines.push(*line)?;
        assert!(rt; are_stored(rt.alloc(), &lines, numbers)?, "behind {line}");
    }
    Ok(())
}

/// Whether the stored files are those of the listing that is the last reply, where this call of the journal fails.
fn are_listed(alloc: Global, call: u64) -> Result<bool, Fail> {
    let lines = [
        CREATE,
        "insert into root.g.d(timestamp,s) values(10,1)",
        "flush",
        "insert into root.g.d(timestamp,s) values(20,2)",
        SELECT,
        "show files",
    ];
    let (last, stored) = stored_behind(alloc, &[call], &lines)?;
    Ok(match &last {
        Some(Reply::Files(listing)) => {
            let files = listing.files.items();
            files.len() == stored.len() && files.iter().all(|file| stored.contains(&file.number))
        }
        _ => false,
    })
}

/// A file of a flush that the log may name stays until the doubt is closed. Then a query removes it.
#[test]
fn a_query_removes_what_a_failed_flush_left(rt: HostRuntime) -> Result<(), Fail> {
    for call in 1..25 {
        assert!(rt; are_listed(rt.alloc(), call)?, "call {call} fails");
    }
    Ok(())
}
