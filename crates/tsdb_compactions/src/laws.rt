//! The laws. The functions do nothing; their contracts say them.
ghost use Rattle.std.specs.Prelude.{◌≡◌, ℕ, [], Bool, IsSome, List};
ghost use Rattle.std.specs.List.{AllByRecursion as Each, filter};
ghost use Rattle.tsdb_compactions.specs.Jobs.{IsCompactionOf};
ghost use Rattle.tsdb_compactions.specs.Outputs.{HasNoWinner, HasOutput, IsBuiltFor, IsToldAs, TellsInputs};
ghost use Rattle.tsdb_compactions.specs.Outputs.{TellsTruth};
ghost use Rattle.tsdb_compactions.specs.Plans.{IsOfMoment, IsPlanned};
ghost use Rattle.tsdb_state.specs.Layers.{survivor};
ghost use Rattle.tsdb_base.specs.Lists.{Among};
ghost use Rattle.tsdb_state.specs.Places.{Content, PointPlace};
ghost use Rattle.tsdb_marks.specs.Lists.{is_of};
ghost use Rattle.tsdb_marks.specs.declared.marks.Mark.{Mark};
ghost use Rattle.tsdb_state.specs.Jobs.{Describes};
ghost use Rattle.tsdb_state.specs.Order.{IsInOrder};
ghost use Rattle.tsdb_state.specs.Plans.{ClaimLate};
ghost use Rattle.tsdb_state.specs.State.{Compaction, EngineState, KnownFiles, KnownFile, File, ToldContents};
ghost use Rattle.tsdb_state.specs.Steps.{Begins, IsOutput};

use crate::job::Job;
use tsdb_flush::Built;
use tsdb_outside::Files;

/// A file that was built for a job has the winners of its inputs, where its token and the rights to read them tell
/// bytes.
pub fn an_output_has_the_winners_of_its_job<F: Files>(_job: &Job<F>, _built: &Built<F>)
    ensures { (told : ToldContents) → IsBuiltFor F.Right.file F.Sealed.file F.Sealed.rights _job.now _built.now
        → TellsInputs F.Right.file told _job.now → IsSome (F.Sealed.file _built.now.sealed).bytes
        → HasOutput told _job.now (F.Sealed.file _built.now.sealed) _built.now }
{}

/// A job none of whose places has a winner has no output.
pub fn a_job_without_a_point_has_no_output<F: Files>(_job: &Job<F>)
    ensures { (told : ToldContents) (compaction : Compaction) → IsCompactionOf _job.now compaction
        → HasNoWinner F.Right.file _job.now → TellsInputs F.Right.file told _job.now → IsOutput told compaction [] }
{}

/// Of the points of a file, the marks of its series leave the same as all marks: so a job needs no others.
pub fn the_marks_of_its_series_are_enough()
    ensures { (paths : List (List ℕ)) (marks : List Mark) (entry : KnownFile) (content : Content) (born : ℕ)
        → Describes entry content → ((path : List ℕ) → Among path entry.series → Among path paths)
        → (place : PointPlace)
        → survivor (filter (is_of paths) marks) place (record { born = born; content = content })
        ≡ survivor marks place (record { born = born; content = content }) }
{}

/// A compaction of the files of a plan begins in a state in order, with the stamp, the marks of the series of its
/// inputs and the next number: the late inputs of the jobs that are out have to be claimed.
pub fn a_planned_compaction_begins()
    ensures { (told : ToldContents) (known : KnownFiles) (named : List ℕ) (engine : EngineState) (claimed : File → Bool)
        (job : Compaction) → IsInOrder told known named engine → ClaimLate claimed engine.compactions
        → IsPlanned known claimed engine job → IsOfMoment known engine job → Begins told job engine }
{}

/// What is told of a job stays the truth while its inputs are told as they were, whatever comes to be told beside them:
/// so a job can be committed with what was told at its beginning.
pub fn the_truth_of_a_job_stays<F: Files>(_job: &Job<F>)
    ensures truth { (told later : ToldContents) → Each (IsToldAs told later) _job.now.inputs
        → TellsTruth F.Right.file told _job.now → TellsTruth F.Right.file later _job.now }
    ensures inputs { (told later : ToldContents) → Each (IsToldAs told later) _job.now.inputs
        → TellsInputs F.Right.file told _job.now → TellsInputs F.Right.file later _job.now }
{}
