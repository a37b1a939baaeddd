//! The fields of the formats, one behind another: numbers, names, paths, types, encodings, values and statistics, each
//! read and written exactly, with the place of the first bad one. A file's index and the log's records are made of
//! them. Depends on tsdb_base and tsdb_path.
#![tactic(auto)]

mod fault;
mod many;
mod reading;
mod rest;
mod statistics;
mod writing;

pub use fault::FieldFault;
pub use many::{FieldReader, read_fields};
pub use reading::{read_field, read_name, read_path, read_value};
pub use rest::Rest;
pub use statistics::{read_stats, write_stats};
pub use tsdb_path::{Name, Path, compare_names};
pub use writing::{write_name, write_path, write_value};
