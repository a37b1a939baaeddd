//! How a core is set up. Depends on nothing here.
ghost use Rattle.std.specs.Prelude.{◌≡◌};
ghost use Rattle.tsdb_core.specs.Limits.{IsPairLimit};

/// How a core is set up.
#[derive(Clone, Copy, Debug, PartialEq, Eq)]
pub struct Options {
    /// The most points of a working pair of several rows, from 1 to 1,000,000.
    pub pair_points: u64,
}

/// The most points of a working pair of several rows.
#[derive(Clone, Copy)]
pub(crate) struct PairLimit {
    points: u64,
    ghost within: { IsPairLimit points },
}

impl PairLimit {
    pub(crate) fn of(options: Options) -> PairLimit
        requires { IsPairLimit options.pair_points }
        ensures { result.points ≡ options.pair_points }
    {
        PairLimit {
            points: options.pair_points,
        }
    }

    pub(crate) fn points(self) -> u64
        ensures value { result ≡ self.points }
        ensures within { IsPairLimit result }
    {
        self.points
    }
}
