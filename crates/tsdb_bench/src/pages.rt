//! The speed of pages of 1,000 points, and of the statistics of one. It depends on `tsdb_pages` and on `tsdb_stats`.

use crate::bench::{Bench, Unit};
use crate::fault::Fault;
use crate::points::{Values, points};
use tsdb_base::{DataType, Encoding, Point, suits};
use tsdb_pages::{are_points, read_page, write_page};
use tsdb_stats::stats_of;

/// The points of a page.
const PAGE: u64 = 1000;

/// A page that is measured, and how the table calls it.
#[derive(Clone, Copy)]
struct Measured {
    what: &'static str,
    values: Values,
    data_type: DataType,
    encoding: Encoding,
}

const PAGES: &[Measured] = &[
    Measured {
        what: "a page, INT64 PLAIN",
        values: Values::Any,
        data_type: DataType::Int64,
        encoding: Encoding::Plain,
    },
    Measured {
        what: "a page, INT64 TS_2DIFF",
        values: Values::Growing,
        data_type: DataType::Int64,
        encoding: Encoding::Ts2diff,
    },
    Measured {
        what: "a page, INT64 RLE of runs of 100",
        values: Values::Runs,
        data_type: DataType::Int64,
        encoding: Encoding::Rle,
    },
    Measured {
        what: "a page, TEXT DICTIONARY of five",
        values: Values::Texts,
        data_type: DataType::Text,
        encoding: Encoding::Dictionary,
    },
];

/// The rows of writing a page, and of reading it.
fn both_rows(bench: &mut Bench, one: Measured, points: &[Point]) {
    let (data_type, encoding) = (one.data_type, one.encoding);
    if !suits(data_type, encoding) || !are_points(points, data_type) {
        bench.fail(Fault::Unread);
        return;
    }
    let alloc = bench.alloc();
    let many = bench.rounds(2000);
    bench.start();
    for _ in 0..many {
        bench.note(write_page(alloc, points, data_type, encoding));
    }
    bench.row(one.what, "write", many.saturating_mul(PAGE), Unit::Millions);
    let body = bench.list(write_page(alloc, points, data_type, encoding));
    bench.start();
    for _ in 0..many {
        bench.note(read_page(alloc, &body, data_type, encoding));
    }
    bench.row(one.what, "read", many.saturating_mul(PAGE), Unit::Millions);
}

/// The row of the statistics of a page.
fn statistics(bench: &mut Bench, what: &str, points: &[Point]) {
    if points.is_empty() {
        return;
    }
    let many = bench.rounds(20_000);
    bench.start();
    for _ in 0..many {
        bench.note(stats_of(points));
    }
    bench.row(what, "stats_of", many.saturating_mul(PAGE), Unit::Millions);
}

/// The rows of pages and of statistics.
pub fn pages(bench: &mut Bench) {
    for one in PAGES {
        let points = points(bench, one.values, PAGE);
        both_rows(bench, *one, &points);
    }
    let numbers = points(bench, Values::Any, PAGE);
    statistics(bench, "statistics of INT64", &numbers);
    let texts = points(bench, Values::Texts, PAGE);
    statistics(bench, "statistics of TEXT", &texts);
}
