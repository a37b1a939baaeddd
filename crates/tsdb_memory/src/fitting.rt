//! When a row fits the working pair. Depends on nothing here.
ghost use Rattle.std.specs.Prelude.{◌≡◌, ◌⊎◌, ◌+◌, ◌≤◌, ◌↔◌, IsTrue, length};
ghost use Rattle.tsdb_model.specs.Commands.{IsRow};
ghost use Rattle.tsdb_memory.specs.StateOfMemory.{IsMemoryOf};
ghost use Rattle.tsdb_memtable.specs.Pairs.{HasRisingSeries, byte_count};
ghost use Rattle.tsdb_memory.specs.Fits.{FitsPair, HasCounts, HasNoPairPoint, pair_point_count};
ghost use Rattle.tsdb_memory.specs.Fits as bytes;
ghost use Rattle.tsdb_base.specs.Limits.{max_pair_bytes};
ghost use Rattle.tsdb_state.specs.State.{StoreState};

use crate::store::MemoryStore;
use tsdb_base::Space;
use tsdb_base::limits::MAX_PAIR_BYTES;
use tsdb_memtable::Pair;
use tsdb_model::{Cell, Literal, Row};

/// Whether the row fits the working pair, with this limit of points: the pair has no point, or its points and the row's
/// cells are at most the limit, and their bytes at most 67,108,864. A row that does not fit waits for a freeze.
pub fn fits_pair(memory: &MemoryStore, row: &Row, limit: u64) -> bool
    requires { IsRow row.now }
    ensures fits { IsTrue result ↔ FitsPair limit row.now memory.now.working }
    ensures counts { (state : StoreState) → IsMemoryOf memory.now state
        → HasCounts memory.now.working state.working }
{
    // (it tells that what is counted is what a state has)
    memory.sound();
    let cells = row.cells.items();
    has_place(
        memory.working(),
        limit,
        cells.len() as u64,
        row_bytes(cells),
    )
}

/// Whether the pair has no point, or stays within its limits with so many cells and bytes more.
fn has_place(pair: &Pair, limit: u64, cells: u64, bytes: u64) -> bool
    ensures rising { HasRisingSeries pair.now }
    ensures place { IsTrue result ↔ (HasNoPairPoint pair.now ⊎ ((pair_point_count pair.now + cells ≤ limit)
        × (byte_count pair.now + bytes ≤ max_pair_bytes))) }
{
    let points = u128::from(pair.points(Space::Sequence))
        + u128::from(pair.points(Space::Unsequence));
    points == 0
        || points + u128::from(cells) <= u128::from(limit)
            && u128::from(pair.bytes()) + u128::from(bytes) <= u128::from(MAX_PAIR_BYTES)
}

/// How many bytes a cell counts in the limit of a pair: 8 for its time, and 1, 8 or the text's length for its literal.
fn cell_bytes(cell: &Cell) -> u64
    ensures value { result ≡ bytes.cell_bytes cell.now }
    ensures most { result ≤ 65543 }
{
    let value = match &cell.value {
        Literal::Bool(_) => 1,
        Literal::Int(_) => 8,
        Literal::Text(text) => text.bytes().len() as u64,
    };
    8 + value
}

/// How many bytes the cells of a row count.
fn row_bytes(cells: &[Cell]) -> u64
    requires { length cells.now ≤ 1000 }
    ensures { result ≡ bytes.row_bytes cells.now }
{
    let mut bytes = 0;
    for cell in cells {
        bytes += cell_bytes(cell);
    }
    bytes
}
