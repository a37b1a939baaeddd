//! Tables of rows that are right or wrong. It depends on std alone.
use std::alloc::Global;
use std::test::Fail;

/// A row of a table, which is right or wrong by itself. Where memory ran out, it is wrong.
pub trait Row {
    fn is_right(&self, alloc: Global) -> bool;
}

/// The place of the first row that is wrong.
pub fn first_wrong<R: Row>(alloc: Global, rows: &[R]) -> Option<usize> {
    for place in 0..rows.len() {
        if !rows[place].is_right(alloc) {
            return Some(place);
        }
    }
    None
}

/// Fails where a place is wrong.
pub fn expect_none(wrong: Option<usize>) -> Result<(), Fail> {
    match wrong {
        None => Ok(()),
        Some(place) => Err(Fail::new(format_args!("{place} is wrong"))),
    }
}
