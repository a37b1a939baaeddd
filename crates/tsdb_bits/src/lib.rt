//! Numbers as LEB128 and zigzag, values packed at a width, and the form that the encodings of lists share. Depends on
//! tsdb_base.
//!
//! What the four encodings of lists share: the limit of 1,000 values, the number of values, what an encoder leaves, and
//! the form of a decoder's answer.
#![tactic(auto)]

mod appends;
mod fault;
mod laws;
mod leb;
mod number;
mod packing;
mod places;
mod zigzag_code;

pub use appends::all_or_none;
pub use fault::{BitFault, UnpackFault};
pub use laws::{
    bits_stand_in_order, leb_is_prefix_free, leb_is_short, packing_is_one_to_one, width_is_least,
    zigzag_is_one_to_one,
};
pub use leb::{get_leb, put_leb};
pub use number::{MAX_LIST_VALUES, take_count, take_number};
pub use packing::{pack, unpack, width};
pub use places::take_packed;
pub use tsdb_base::Memory;
pub use zigzag_code::{unzigzag, zigzag};
