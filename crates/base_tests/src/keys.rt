//! What maps ask of their keys, and threads of what they share and hand over. It depends on std alone.
use std::alloc::Global;
use std::collections::{BTreeMap, HashMap};
use std::hash::Hash;

pub fn crosses_threads<T: Send + Sync>(_value: &T) {}

/// Whether a map finds the key by the hash of the same key. Keys cross threads.
pub fn is_found<K: Eq + Hash + Send + Sync + Drop>(
    alloc: Global,
    key: Option<K>,
    same: Option<K>,
) -> bool {
    let mut numbers = HashMap::new(alloc);
    match (key, same) {
        (Some(key), Some(same)) => {
            crosses_threads(&same);
            numbers.insert(key, 1u8).is_ok() && numbers.get(&same) == Some(&1)
        }
        _ => false,
    }
}

/// Whether a map gives the first key first, though it came last.
pub fn is_first<K: Ord + Drop>(alloc: Global, first: Option<K>, second: Option<K>) -> bool {
    let mut numbers = BTreeMap::new(alloc);
    match (first, second) {
        (Some(first), Some(second)) => {
            let has_second = numbers.insert(second, 2u8).is_ok();
            let has_first = numbers.insert(first, 1).is_ok();
            has_second && has_first && numbers.values().next() == Some(&1)
        }
        _ => false,
    }
}
