//! A law of the words, a call that does nothing.
ghost use Rattle.std.specs.Prelude.{◌≡◌, ℕ, List};
ghost use Rattle.tsdb_run.specs.Words as model;
ghost use Rattle.tsdb_run.specs.Words.{AreWords, AreOptionsWithinLimits};

/// A list of words asks for one thing at most, which is within the limits of the options.
pub fn one_meaning()
    ensures one { (words : List (List ℕ)) (one other : model.Asked) → AreWords words one → AreWords words other
        → one ≡ other }
    ensures limits { (words : List (List ℕ)) (asked : model.Asked) → AreWords words asked
        → AreOptionsWithinLimits asked }
{}
