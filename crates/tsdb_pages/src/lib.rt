//! The pages of a TsFile, the lists of values in them, and the tree that a file is written from. Depends on tsdb_base,
//! tsdb_bits, enc_plain, enc_dict, enc_ts2diff, enc_rle, tsdb_stats and tsdb_index.
//!
//! The pages of a TsFile, and the tree of groups, chunks and pages that a file is written from: the body of a page,
//! written and read exactly, the conditions on a tree, and in specs/ the bytes of the file of a tree.
//!
//! ```text
//! file  = head group{1..} index tail       nothing between, nothing behind
//! head  = "TsFile" version:u8             51 or 52
//! group = 47 device:name chunk{1..}
//! chunk = 43 measurement:name type:u8 encoding:u8 page{1..}
//! page  = 50 length:u32 body               the length of the body
//! body  = length:u32 times values          the length of the times; times in TS_2DIFF, values in the chunk's encoding
//! tail  = root:u64 "TsFile"                the place of the root
//! ```
//!
//! Lists of values of one type, in the encoding that a series has.
#![tactic(auto)]

mod body;
mod check;
mod decoder;
mod encoder;
mod fault;
mod item;
mod laws;
mod tree;
mod value_laws;

pub use body::{read_page, write_page};
pub use check::{are_points, is_tree};
pub use decoder::decode;
pub use encoder::encode_into;
pub use fault::PageFault;
pub use item::HasValue;
pub use laws::{
    body_is_short, entries_are_index, entries_stand, file_ends, one_file, one_page, one_tree,
    one_version, read_entries,
};
pub use tree::{Chunk, Group, Page, Tree};
pub use value_laws::{one_spelling, spelling_is_short};
