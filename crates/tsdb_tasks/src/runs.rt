//! Where files stand in a list. Depends on tsdb_plan.
ghost use Rattle.std.specs.Prelude.{◌≡◌, ◌≢◌, ◌<◌, ◌≤◌, [], ℕ, IfNone, IfSome, get_or, length, slice_range};
ghost use Rattle.tsdb_fileset.specs.Files.{entry_numbers};
ghost use Rattle.tsdb_fileset.specs.Replacing.{IsWithin};
ghost use Rattle.tsdb_base.specs.Lists.{IsRun, count};
ghost use Rattle.tsdb_plan.specs.declared.entry.FileEntry.{FileEntry as EntryOf};
ghost use Rattle.tsdb_outside.specs.Files.{plain_numbers};

use tsdb_base::FileNumber;
use tsdb_plan::{FileEntry, Run};

/// Where the first file with this number stands.
fn place_of(entries: &[FileEntry], number: FileNumber) -> Option<usize>
    ensures found { IfSome result (λ place. (place < length entries.now)
        × ((d : EntryOf) → (get_or entries.now place d).number.0 ≡ number.0)) }
    ensures none { IfNone result ((place : ℕ) (d : EntryOf) → place < length entries.now
        → (get_or entries.now place d).number.0 ≢ number.0) }
{
    entries.iter().position(|entry| entry.number.0 == number.0)
}

/// The run of the files with these numbers, which stand side by side in the list. Without a number it is empty.
pub fn run_of(entries: &[FileEntry], numbers: &[FileNumber]) -> Run
    requires run { IsRun (plain_numbers numbers.now) (entry_numbers entries.now) }
    requires once { (number : ℕ) → count number (entry_numbers entries.now) ≤ 1 }
    ensures within { IsWithin result entries.now }
    ensures empty { numbers.now ≡ [] → result.first ≡ 0 }
    ensures numbers { entry_numbers (slice_range entries.now result.first result.end) ≡ plain_numbers numbers.now }
{
    let Some(first) = numbers.first() else {
        return Run { first: 0, end: 0 };
    };
    let Some(place) = place_of(entries, *first) else {
        unreachable!()
    };
    Run {
        first: place,
        end: place + numbers.len(),
    }
}
