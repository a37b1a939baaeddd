//! The listing of a core. Depends on `engine` and tsdb_fileset.
ghost use Rattle.std.specs.Prelude.{IfOk};

use crate::engine::Core;
use tsdb_base::{Memory, Space};
use tsdb_fileset::file_lines;
use tsdb_model::Listing;
use tsdb_outside::{Files, Journal};

impl<J: Journal, F: Files> Core<J, F> {
    ghost use Rattle.tsdb_core.specs.Listings.{IsListing, TellsStore};

    /// What the store holds: its files with their points, how many pairs are frozen, the points of the working pair, and
    /// how many marks there are.
    pub fn show(&self) -> Result<Listing, Memory>
        ensures listing { IfOk result (IsListing self.now) }
        ensures tells { IfOk result (TellsStore self.now) }
    {
        let memory = self.logged.memory();
        let files = file_lines(
            self.alloc,
            self.files.entries(Space::Sequence),
            self.files.entries(Space::Unsequence),
        )?;
        Ok(Listing {
            files,
            frozen: memory.frozen().len() as u64,
            working: [
                memory.points(Space::Sequence),
                memory.points(Space::Unsequence),
            ],
            marks: memory.marks().marks().len() as u64,
        })
    }
}
