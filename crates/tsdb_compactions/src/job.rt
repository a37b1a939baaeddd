//! A compaction that is out. Depends on tsdb_base, tsdb_model, tsdb_marks and tsdb_outside.
ghost use Rattle.std.specs.Prelude.{◌≡◌};
ghost use Rattle.tsdb_base.specs.declared.ids.Space.{Space as SpaceOf};
ghost use Rattle.tsdb_compactions.specs.Jobs.{crosses};

use tsdb_base::{FileNumber, List, Space, Stamp};
use tsdb_marks::Marks;
use tsdb_model::Schema;
use tsdb_outside::Files;

/// A listed file that a job reads, with a right to read it.
pub struct Input<F: Files> {
    pub number: FileNumber,
    pub born: Stamp,
    pub right: F::Right,
}

/// A compaction that is out: the files that it reads, and what its output will be.
pub struct Job<F: Files> {
    /// The list in which the output will stand. The output of a cross job stands in the sequence list, and at least one
    /// of its inputs is late.
    pub space: Space,
    /// The stamp at its beginning.
    pub born: Stamp,
    /// The place of a sequence output in its list.
    pub place: u64,
    /// Its inputs from the lowest to the highest priority: sequence files in the order of their list, and then late
    /// ones.
    pub inputs: List<Input<F>>,
    /// The numbers of the inputs that are sequence files, and of the late ones: the end of the job records them.
    pub sequence: List<FileNumber>,
    pub unsequence: List<FileNumber>,
    /// The marks of the series of its inputs, at its beginning.
    pub marks: Marks,
    /// The schemas of these series, in the order of a tree.
    pub schemas: List<Schema>,
    /// The number drawn for its output.
    pub output: FileNumber,
}

impl<F: Files> Job<F> {
    /// Whether it is a cross job: its output stands in the sequence list, and it has late inputs. Every other is an
    /// inner one.
    pub fn is_cross(&self) -> bool
        ensures { result ≡ crosses self.now.space self.now.unsequence }
    {
        match self.space {
            Space::Sequence => has_some(self.unsequence.items()),
            Space::Unsequence => false,
        }
    }
}

/// Whether there are late inputs.
fn has_some(late: &[FileNumber]) -> bool
    ensures { result ≡ crosses SpaceOf.Sequence late.now }
{
    !late.is_empty()
}
