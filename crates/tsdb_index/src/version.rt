//! What the versions of a file differ in. Depends on `marks`.
ghost use Rattle.std.specs.Prelude.{◌≡◌};
ghost use Rattle.tsdb_index.specs.Versions as versions;

use crate::marks::VERSION;

/// Whether the statistics of numbers have a sum.
pub fn has_sums(version: u8) -> bool
    ensures { result ≡ versions.has_sums version }
{
    version == VERSION
}
