//! What an encoder leaves behind what was there. It depends on `tsdb_base`.
ghost use Rattle.std.specs.Prelude.{◌≡◌, take, OnOk, OnErr};

use tsdb_base::Memory;

/// Ends an append to a list that had `start` bytes. After `Memory` it has these bytes alone.
pub fn all_or_none(
    appended: Result<(), Memory>,
    start: usize,
    into: &mut Vec<u8>,
) -> Result<(), Memory>
    ensures same { result ≡ appended }
    ensures ok { OnOk result (into.new.items ≡ into.old.items) }
    ensures memory { OnErr result (into.new.items ≡ take start into.old.items) }
{
    if appended.is_err() {
        into.truncate(start);
    }
    appended
}
