//! The PLAIN encoding: how many values there are, and then each value by itself. It depends on `tsdb_base` and
//! `tsdb_bits`.
#![tactic(auto)]

mod decode;
mod encode;
mod laws;

pub use decode::{decode_bool, decode_i32, decode_i64, decode_text};
pub use encode::{encode_bool_into, encode_i32_into, encode_i64_into, encode_text_into};
pub use laws::{one_spelling, spelling_is_short};
pub use tsdb_base::{DecodeFault, Memory};
