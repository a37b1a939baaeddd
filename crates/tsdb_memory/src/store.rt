//! What is in memory: the series by their numbers, the stamp, the watermarks, the marks, the frozen pairs and the
//! working pair. Depends on `shared`, `tsdb_memtable` and `tsdb_marks`.
ghost use Rattle.std.specs.Prelude.{◌≡◌, ◌≤◌};
ghost use Rattle.tsdb_memory.specs.StateOfMemory.{IsMemoryOf};
ghost use Rattle.tsdb_base.specs.Limits.{end_of_numbers};
ghost use Rattle.tsdb_state.specs.NewStore.{new_store};

use crate::shared::SharedPair;
use indexmap::IndexMap;
use std::alloc::Global;
use std::marker::Model;
use tsdb_base::{DataType, Encoding, Stamp};
use tsdb_marks::Marks;
use tsdb_memtable::{Pair, Watermarks};
use tsdb_path::Path;

/// A pair that was frozen, and the stamp at its freeze.
#[derive(Drop)]
pub struct FrozenPair {
    pub(crate) born: Stamp,
    pub(crate) pair: SharedPair,
}

/// What is in memory. The series are numbered from 0 in the order of their creation, each with its type and its
/// encoding; frozen pairs stand from the oldest on. A contract sees a `MemoryState`.
#[derive(Drop)]
pub struct MemoryStore {
    pub(crate) alloc: Global,
    pub(crate) series: IndexMap<Path, (DataType, Encoding)>,
    pub(crate) stamp: u64,
    pub(crate) watermarks: Watermarks,
    pub(crate) marks: Marks,
    pub(crate) frozen: Vec<FrozenPair>,
    pub(crate) working: Pair,
}

impl Model for MemoryStore {
    ghost use Rattle.tsdb_memory.specs.Store.{MemoryState};

    ghost Value = { MemoryState };

    ghost use Rattle.tsdb_memory.specs.Model.{IsMemoryKept, memory_view};

    ghost view = { memory_view };

    ghost invariant = { IsMemoryKept };
}

impl MemoryStore {
    /// What a new store has in memory: nothing.
    pub fn new(alloc: Global) -> MemoryStore
        ensures { IsMemoryOf result new_store }
    {
        MemoryStore {
            alloc,
            series: IndexMap::new(alloc),
            stamp: 0,
            watermarks: Watermarks::new(alloc),
            marks: Marks::new(alloc),
            frozen: Vec::new(alloc),
            working: Pair::new(alloc),
        }
    }

    /// How many changes were accepted so far, at most 2^63.
    pub fn stamp(&self) -> u64
        ensures value { result ≡ self.now.stamp }
        ensures end { result ≤ end_of_numbers }
    {
        self.stamp
    }
}
