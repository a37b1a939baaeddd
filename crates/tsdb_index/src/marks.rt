//! The bytes that mark the parts of a TsFile, each of them once. It depends on nothing.

/// The first bytes of a file that is written: `TsFile` and the version.
pub const HEAD: [u8; 7] = *b"TsFile\x52";

/// The first bytes of an older file.
pub const OLD_HEAD: [u8; 7] = *b"TsFile\x51";

/// The last bytes of a file.
pub const MAGIC: [u8; 6] = *b"TsFile";

/// The byte behind `TsFile` in the head of a file that is written. Its statistics of numbers have a sum.
pub const VERSION: u8 = 0x52;

/// The one that older files have there, whose statistics have no sum.
pub const OLD_VERSION: u8 = 0x51;

/// The first byte of a group.
pub const GROUP: u8 = 0x47;

/// The first byte of a chunk.
pub const CHUNK: u8 = 0x43;

/// The first byte of a page.
pub const PAGE: u8 = 0x50;

/// The first byte of a leaf of the index.
pub const LEAF: u8 = 0x49;

/// The first byte of the root of the index.
pub const ROOT: u8 = 0x52;
