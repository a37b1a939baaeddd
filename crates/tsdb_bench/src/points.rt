//! Points that are measured. It depends on `bench`, `numbers` and `tsdb_base`.

use crate::bench::Bench;
use crate::numbers::next;
use tsdb_base::{Point, Text, Value};

/// What the values of points are.
#[derive(Clone, Copy)]
pub enum Values {
    /// Any 64 bits.
    Any,
    /// Numbers that grow by 1,000 from point to point, give or take 15.
    Growing,
    /// The same, give or take 255.
    GrowingUnevenly,
    /// The same number for 100 points.
    Runs,
    /// One of five texts of eight bytes.
    Texts,
}

/// The point at a place, where a step that looks random has come to `seed`.
fn point(bench: &mut Bench, values: Values, place: u64, time: u64, seed: u64) -> Option<Point> {
    let number = match values {
        Values::Any => seed,
        Values::Growing => place.wrapping_mul(1000).wrapping_add(seed >> 60),
        Values::GrowingUnevenly => place.wrapping_mul(1000).wrapping_add(seed >> 56),
        Values::Runs => place / 100,
        Values::Texts => ((seed >> 32) % 5).wrapping_add(0x3030_3030_3030_3030),
    };
    let value = match values {
        Values::Texts => {
            let text = Text::new(bench.alloc(), &number.to_be_bytes());
            Value::Text(bench.ok(text)?)
        }
        _ => Value::I64(number.cast_signed()),
    };
    let time = time.cast_signed();
    Some(Point { time, value })
}

/// So many points, with times about 1,000 apart.
pub fn points(bench: &mut Bench, values: Values, count: u64) -> Vec<Point> {
    let mut points = Vec::new(bench.alloc());
    let mut seed = 7u64;
    let mut time = 1_700_000_000_000u64;
    for place in 0..count {
        seed = next(seed);
        time = time.wrapping_add(1000 + (seed >> 60));
        let point = point(bench, values, place, time, seed);
        bench.put(&mut points, point);
    }
    points
}
