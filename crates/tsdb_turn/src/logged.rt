//! What the value under a turn means to the turn. It depends on nothing.
ghost use Rattle.std.specs.Prelude.{◌≡◌, ℕ, List, length};

/// A value with a list of entries, each made under the number of a pass.
pub trait Logged {
    /// What one pass adds to the list.
    type Entry;
    /// What the value keeps for the number of one pass.
    type Account;

    // The entries, the oldest first.
    ghost entries_of: { Self → List Self.Entry };
    // The number of the pass that added an entry.
    ghost number_of: { Self.Entry → ℕ };
    // What the value keeps for a number.
    ghost account_of: { Self → ℕ → Self.Account };
    // A number that no turn lowers.
    ghost reach_of: { Self → ℕ };
    // The first value comes from the second, with which the turn was opened.
    ghost comes_from: { Self → Self → Type 0 };

    /// How many entries there are.
    fn entries(&self) -> u64
        ensures { result ≡ length (entries_of self.now) };

    /// The reach.
    fn reach(&self) -> u64
        ensures { result ≡ reach_of self.now };
}
