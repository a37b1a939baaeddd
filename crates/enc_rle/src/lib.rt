//! Run-length encoding of lists of BOOLEAN, INT32 and INT64 values. It depends on `tsdb_base` and `tsdb_bits`.
#![tactic(auto)]

mod coded;
mod decode;
mod encode;
mod laws;

pub use decode::{decode_bool, decode_i32, decode_i64};
pub use encode::{encode_bool_into, encode_i32_into, encode_i64_into};
pub use laws::{one_spelling, runs_are_joined, spelling_is_short};
pub use tsdb_base::{DecodeFault, Memory};
