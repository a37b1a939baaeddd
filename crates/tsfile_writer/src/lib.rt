//! Writing a TsFile: of a tree at once, or series by series with pages filled in turn. Both put parts one behind
//! another at the end of the bytes, and keep beside them what the index says of each chunk. Depends on tsdb_base,
//! tsdb_path, tsdb_bits, tsdb_stats, tsdb_fields, tsdb_index and tsdb_pages.
#![tactic(auto)]

mod builder;
mod fault;
mod laws;
mod layout;
mod tree;
mod tree_facts;

pub use builder::Builder;
pub use fault::BuildFault;
pub use laws::one_file_of_series;
pub use tree::write_tree;
pub use tree_facts::trees_are_made;
