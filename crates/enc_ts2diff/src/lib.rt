//! TS_2DIFF: lists of INT32 and INT64 values by the differences of neighbours. It depends on `tsdb_base` and
//! `tsdb_bits`.
#![tactic(auto)]

mod decode;
mod encode;
mod laws;

pub use decode::{decode_i32, decode_i64};
pub use encode::{encode_i32_into, encode_i64_into};
pub use laws::{one_spelling, spelling_is_short};
pub use tsdb_base::{DecodeFault, Memory};
