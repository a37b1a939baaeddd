//! The least stamp at which something that marks may cover was frozen. Depends on the store's fields.
ghost use Rattle.std.specs.Prelude.{◌≡◌, Some, map};
ghost use Rattle.tsdb_memory.specs.Least.{least_with, lesser_born as lesser_of};

use crate::store::FrozenPair;
use tsdb_base::Stamp;

/// The lesser of the least so far and one more.
pub fn lesser(least: Option<Stamp>, born: Stamp) -> Stamp
    ensures { result ≡ lesser_of least born.0 }
{
    match least {
        Some(least) if least.0 <= born.0 => least,
        _ => born,
    }
}

/// The least stamp at a freeze: of the files whose least is told, and of these pairs.
pub(crate) fn least_born(listed: Option<Stamp>, frozen: &[FrozenPair]) -> Option<Stamp>
    ensures { result ≡ least_with listed (map (λ pair. pair.born.0) frozen.now) }
{
    let mut least = listed;
    for pair in frozen {
        least = Some(lesser(least, pair.born));
    }
    least
}
