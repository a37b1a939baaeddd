//! Whether two entries are the same. Depends on tsdb_base and tsdb_index.
ghost use Rattle.std.specs.Prelude.{◌≡◌, ◌↔◌, IsTrue};

use tsdb_base::{Stats, Value};
use tsdb_index::{IndexEntry, PageEntry};

fn is_same_value(value: &Value, other: &Value) -> bool
    ensures { IsTrue result ↔ (value.now ≡ other.now) }
{
    match (value, other) {
        (Value::Bool(a), Value::Bool(b)) => *a == *b,
        (Value::I32(a), Value::I32(b)) => *a == *b,
        (Value::I64(a), Value::I64(b)) => *a == *b,
        (Value::Text(a), Value::Text(b)) => *a == *b,
        _ => false,
    }
}

fn is_same_extreme(value: &Option<Value>, other: &Option<Value>) -> bool
    ensures { IsTrue result ↔ (value.now ≡ other.now) }
{
    match (value, other) {
        (Some(a), Some(b)) => is_same_value(a, b),
        (None, None) => true,
        _ => false,
    }
}

fn are_same_stats(stats: &Stats, other: &Stats) -> bool
    ensures { IsTrue result ↔ (stats.now ≡ other.now) }
{
    stats.count == other.count
        && stats.start == other.start
        && stats.end == other.end
        && is_same_value(&stats.first, &other.first)
        && is_same_value(&stats.last, &other.last)
        && is_same_extreme(&stats.least, &other.least)
        && is_same_extreme(&stats.greatest, &other.greatest)
        && stats.sum == other.sum
}

fn is_same_page(page: &PageEntry, other: &PageEntry) -> bool
    ensures { IsTrue result ↔ (page.now ≡ other.now) }
{
    page.place == other.place && are_same_stats(&page.stats, &other.stats)
}

fn are_same_pages(pages: &[PageEntry], others: &[PageEntry]) -> bool
    ensures { IsTrue result ↔ (pages.now ≡ others.now) }
{
    if pages.len() != others.len() {
        return false;
    }
    for i in 0..pages.len() {
        if !is_same_page(&pages[i], &others[i]) {
            return false;
        }
    }
    true
}

/// Whether both entries are the same.
pub fn is_same_entry(entry: &IndexEntry, other: &IndexEntry) -> bool
    ensures { IsTrue result ↔ (entry.now ≡ other.now) }
{
    entry.device == other.device
        && entry.measurement == other.measurement
        && entry.data_type == other.data_type
        && entry.encoding == other.encoding
        && entry.place == other.place
        && are_same_stats(&entry.stats, &other.stats)
        && are_same_pages(entry.pages.items(), other.pages.items())
}
