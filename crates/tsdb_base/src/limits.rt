//! The limits of what the engine reads, holds and stores, each of them once. docs/FORMATS.md has them in a table.

/// The most bytes of a text.
pub const MAX_TEXT_BYTES: usize = 65_535;

/// The most values of an encoded list, and so the most points of a page.
pub const MAX_VALUES: usize = 1_000;

/// The most bytes of a path.
pub const MAX_PATH_BYTES: usize = 255;

/// The most nodes of a path.
pub const MAX_NODES: usize = 16;

/// The most cells of a row, and the most items of a select.
pub const MAX_NAMES: usize = 1_000;

/// Where the stamp, and the numbers of files, end.
pub const END_OF_NUMBERS: u64 = 1 << 63;

/// A slot, or a stored file, has fewer bytes.
pub const END_OF_SLOT: u64 = 1 << 63;

/// The most entries of a leaf of an index.
pub const MAX_LEAF_ENTRIES: usize = 256;

/// The most entries of an index, and so the most chunks of a file: 256 for each of 2^32 - 1 leaves.
pub const MAX_ENTRIES: usize = 1_099_511_627_520;

/// The most pages of a chunk.
pub const MAX_PAGES: usize = 4_294_967_295;

/// The most bytes that a point counts: 8 for its time, and those of the longest text.
pub const MAX_POINT_BYTES: u64 = 65_543;

/// The most points that a working pair of more than one row has, whatever the options say.
pub const MAX_PAIR_POINTS: u64 = 1_000_000;

/// The most bytes that a working pair of more than one row counts.
pub const MAX_PAIR_BYTES: u64 = 67_108_864;

/// The most frozen pairs.
pub const MAX_FROZEN: usize = 2;

/// The most files of an inner run.
pub const MAX_INPUTS: usize = 10;

/// The most bytes of the files of a plan together.
pub const MAX_PLAN_BYTES: u64 = 268_435_456;

/// The most bytes of a script.
pub const MAX_SCRIPT_BYTES: usize = 67_108_864;

/// The most bytes of a line, its end counted.
pub const MAX_LINE_BYTES: usize = 1_048_576;

/// The most commands of a script.
pub const MAX_COMMANDS: usize = 1_000_000;

/// The most different sessions of a script.
pub const MAX_SESSIONS: usize = 8;

/// Every number of a session is below this.
pub const SESSION_NUMBERS: usize = 1_000;

/// The points of a pair where `--pair` is not given.
pub const DEFAULT_PAIR_POINTS: u64 = 10_000;

/// The most workers of a kind.
pub const MAX_WORKERS: u64 = 4;
