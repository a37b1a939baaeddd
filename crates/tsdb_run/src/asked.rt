//! What the words ask for. Depends on nothing here.
ghost use Rattle.std.specs.Prelude.{◌≡◌};

use std::marker::Model;

/// What the words of the command line ask for. The directory is lent from the words.
#[derive(Drop)]
pub struct Asked<'a> {
    directory: &'a [u8],
    pair_points: u64,
    workers: u64,
}

impl<'a> Model for Asked<'a> {
    ghost use Rattle.tsdb_run.specs.Words as model;

    ghost Value = { model.Asked };

    ghost view = { λ asked. record {
      directory = asked.directory.now;
      pair_points = asked.pair_points;
      workers = asked.workers;
    } };
}

impl<'a> Asked<'a> {
    /// What is asked for by these.
    pub(crate) fn of(directory: &'a [u8], pair_points: u64, workers: u64) -> Asked<'a>
        ensures { result ≡ record { directory = directory.now; pair_points = pair_points; workers = workers } }
    {
        Asked {
            directory,
            pair_points,
            workers,
        }
    }

    /// The directory of the store.
    pub fn directory(&self) -> &'a [u8]
        ensures { result.now ≡ self.now.directory }
    {
        self.directory
    }

    /// The most points of a pair.
    pub fn pair_points(&self) -> u64
        ensures { result ≡ self.now.pair_points }
    {
        self.pair_points
    }

    /// How many workers of each kind are started.
    pub fn workers(&self) -> u64
        ensures { result ≡ self.now.workers }
    {
        self.workers
    }
}
