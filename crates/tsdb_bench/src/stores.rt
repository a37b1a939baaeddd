//! What is measured in stores on the disk. It depends on `files`, `stored` and `fs_outside`.

use crate::bench::Bench;
use crate::files::{
    CHUNKS, ENTRY, INDEX, POINTS, Readable, SERIES, WHOLE, build_large, many_chunks, read_all,
};
use crate::stored;
use fs_outside::FsPlace;
use std::fs;
use tsdb_outside::{Files, Place};

/// The folder of a store on the disk, which is made and removed here.
const FOLDER: &str = "tsdb_bench_store";

/// What is measured in a store.
#[derive(Clone, Copy)]
enum Work<'a, 'b> {
    /// The reading of these files.
    Read(&'a [Readable<'b>]),
    /// So many small files.
    Small(u64),
}

/// The rows of a store at this place.
fn at_place<P: Place>(bench: &mut Bench, place: &mut P, work: Work) {
    match place.take_up(FOLDER.as_bytes()) {
        Ok((journal, mut stored)) => {
            match stored.port() {
                Ok(mut port) => {
                    match work {
                        Work::Read(files) => read_all(bench, &mut port, files),
                        Work::Small(count) => stored::rows(bench, &mut stored, &mut port, count),
                    }
                    stored.end_port(port);
                }
                Err(fault) => bench.fail(fault),
            }
            place.put_down(journal, stored);
        }
        Err(fault) => bench.fail(fault),
    }
}

/// The rows of a store on the disk.
fn on_disk(bench: &mut Bench, work: Work) {
    let rt = bench.rt();
    let mut disk = FsPlace::new(rt);
    at_place(bench, &mut disk, work);
    if !bench.has_failed() {
        bench.note(fs::remove_dir_all(&rt, FOLDER));
    }
}

/// The rows of files that are built, checked, and opened.
pub fn files(bench: &mut Bench) {
    let count = bench.rounds(POINTS);
    let chunks = bench.rounds(CHUNKS);
    let series = bench.rounds(SERIES);
    let large = build_large(bench, count);
    let wide = many_chunks(bench, chunks);
    let widest = many_chunks(bench, series);
    let files = [
        Readable {
            bytes: &large,
            count,
            kind: WHOLE,
        },
        Readable {
            bytes: &wide,
            count: chunks,
            kind: INDEX,
        },
        Readable {
            bytes: &widest,
            count: 1,
            kind: ENTRY,
        },
    ];
    on_disk(bench, Work::Read(&files));
}

/// The rows of many small files.
pub fn stored(bench: &mut Bench) {
    let count = bench.rounds(stored::FILES);
    on_disk(bench, Work::Small(count));
}
