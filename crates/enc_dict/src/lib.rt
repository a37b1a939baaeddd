//! The DICTIONARY encoding of texts: the different texts in the order of their first use, and the place of each value
//! among them. It depends on `tsdb_base` and `tsdb_bits`.
#![tactic(auto)]

mod decode;
mod dictionary;
mod encode;
mod laws;

pub use decode::decode_text;
pub use encode::encode_text_into;
pub use laws::{one_spelling, spelling_is_short};
pub use tsdb_base::{DecodeFault, Memory};
