//! The room that effects take which are prepared and never finished. Depends on `tsdb_memory`.

use std::alloc::Global;
use std::test::Fail;
use tsdb_base::{Range, SeriesId, Value};
use tsdb_log::CellRecord;
use tsdb_memory::MemoryStore;

/// How often an effect is prepared and not finished.
const TIMES: u64 = 20_000;

/// Two cells of one row.
fn two_cells(alloc: Global) -> Result<Vec<CellRecord>, Fail> {
    let mut cells = Vec::new(alloc);
    for series in 0..2u64 {
        let value = Value::I64(7);
        cells.push(CellRecord {
            series: SeriesId(series),
            value,
        })?;
    }
    Ok(cells)
}

/// Prepares each effect, and finishes none.
fn refuse(store: &mut MemoryStore, cells: &[CellRecord]) -> Result<(), Fail> {
    store.prepare_create()?;
    store.prepare_insert(cells)?;
    store.prepare_delete(&Range { from: 1, to: 2 })?;
    store.prepare_delete(&Range { from: 2, to: 1 })?;
    let _ = store.prepare_freeze()?;
    Ok(())
}

/// For how many more marks there is a place, and for how many more points of each series there is room.
fn room(store: &MemoryStore) -> [u64; 3] {
    let working = store.working();
    [
        store.marks().spare() as u64,
        working.spare(SeriesId(0)),
        working.spare(SeriesId(1)),
    ]
}

/// Whether so many effects that are prepared and not finished hold no more room than the first.
fn holds_no_more(alloc: Global, times: u64) -> Result<bool, Fail> {
    let cells = two_cells(alloc)?;
    let mut store = MemoryStore::new(alloc);
    refuse(&mut store, &cells)?;
    let first = room(&store);
    for _ in 0..times {
        refuse(&mut store, &cells)?;
    }
    Ok(room(&store) == first && first == [1, 1, 1])
}

#[test]
fn effects_that_are_not_finished_hold_room_for_one(rt: HostRuntime) -> Result<(), Fail> {
    assert!(rt; holds_no_more(rt.alloc(), TIMES)?);
    Ok(())
}
