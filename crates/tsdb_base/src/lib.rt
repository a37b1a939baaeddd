//! The values that the engine stores, and the small types that its crates share. It depends on
//! std alone.
#![tactic(auto)]

mod answers;
mod fault;
mod field;
mod ids;
pub mod limits;
mod list;
mod plain;
mod point;
mod rising;
mod steps;
mod text;
mod value;

pub use answers::{Aggregate, Answer, Figure};
pub use fault::{DecodeFault, Memory};
pub use field::{encoding_byte, type_byte};
pub use ids::{FileNumber, SeriesId, Space, Stamp};
pub use list::List;
pub use plain::{PlainValue, put_all, take_all};
pub use point::{Point, Range, Stats, Time, copy_points};
pub use rising::is_rising;
pub use steps::Steps;
pub use text::{Text, TextFault};
pub use value::{DataType, Encoding, Value, suits};
