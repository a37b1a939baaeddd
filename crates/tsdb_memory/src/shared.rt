//! A pair that was frozen, as a flush that writes it can share it.
//!
//! Nothing can be proved of the number of owners of an `Arc`, so a pair that is still changed is not held in one. A
//! freeze takes the memory of an `Arc` with an empty pair in it, and swaps the pair into that. Should the `Arc` have
//! another owner, which it never has, the pair is held by itself.
ghost use Rattle.std.specs.Prelude.{◌≡◌, IfSome};
ghost use Rattle.std.specs.Arc.{arc_value};
ghost use Rattle.tsdb_memory.specs.SharedPairs.{pair_in};

use std::sync::Arc;
use tsdb_memtable::Pair;

/// A pair that may have several owners, or one that has one.
#[derive(Drop)]
pub enum SharedPair {
    Shared(Arc<Pair>),
    Alone(Pair),
}

impl SharedPair {
    /// The pair, in place of the one that is there.
    pub(crate) fn in_place(place: Arc<Pair>, pair: Pair) -> SharedPair
        ensures { pair_in result ≡ pair }
    {
        let mut place = place;
        match Arc::get_mut(&mut place) {
            Some(there) => *there = pair,
            None => return SharedPair::Alone(pair),
        }
        SharedPair::Shared(place)
    }

    /// The pair.
    pub(crate) fn pair(&self) -> &Pair
        ensures { result.now ≡ pair_in self.now }
    {
        match self {
            SharedPair::Shared(pair) => pair,
            SharedPair::Alone(pair) => pair,
        }
    }

    /// One more owner, where there can be one.
    pub(crate) fn share(&self) -> Option<Arc<Pair>>
        ensures { IfSome result (λ shared. arc_value shared ≡ pair_in self.now) }
    {
        match self {
            SharedPair::Shared(pair) => Arc::try_clone(pair).ok(),
            SharedPair::Alone(_) => None,
        }
    }
}
