//! What is known of a file once its ends are read, and once its root is. Depends on tsdb_index.
ghost use Rattle.std.specs.Prelude.{◌<◌, ◌≤◌, ◌^◌};

use tsdb_index::{Index, Pointer};

/// Where a file ends, where its root begins, and the version that its head says.
#[derive(Clone, Copy)]
pub struct Ends {
    pub size: u64,
    pub root: u64,
    pub version: u8,
    pub ghost long: { 21 ≤ size },
    pub ghost inside: { root < size },
    pub ghost limit: { size < 2 ^ 63 },
}

/// The root of a file.
#[derive(Drop)]
pub struct Root {
    pub pointers: Vec<Pointer>,
    /// Where the first leaf stands.
    pub place: u64,
    pub ghost behind_head: { 7 ≤ place },
}

/// What the tail, the head and the root of a file say.
#[derive(Drop)]
pub struct Front {
    pub ends: Ends,
    pub root: Root,
}

/// What the tail, the head, the root and the leaves of a file say.
#[derive(Drop)]
pub struct Outline {
    pub ends: Ends,
    /// Where the first leaf stands.
    pub place: u64,
    pub pointers: Vec<Pointer>,
    pub index: Index,
    pub ghost behind_head: { 7 ≤ place },
}
