//! Laws of compaction plans: what a plan names can begin as a job. The functions do nothing; their contracts are the
//! laws.
ghost use Rattle.std.specs.List.{AllByRecursion};
ghost use Rattle.std.specs.Prelude.{◌++◌, Bool, List};
ghost use Rattle.tsdb_base.specs.declared.ids.Space.{Space};
ghost use Rattle.tsdb_plan.specs.CrossPlan.{IsCrossPlan};
ghost use Rattle.tsdb_plan.specs.InnerPlan.{IsInnerPlan};
ghost use Rattle.tsdb_plan.specs.declared.entry.CrossRun.{CrossRun};
ghost use Rattle.tsdb_plan.specs.declared.entry.Run.{Run};
ghost use Rattle.tsdb_state.specs.Jobs.{AreApart, EntriesMatch, HasKind, Stands};
ghost use Rattle.tsdb_state.specs.Plans.{ClaimLate, IsCrossJob, IsInnerSequenceJob, IsInnerUnsequenceJob};
ghost use Rattle.tsdb_state.specs.Plans.{IsSequenceFree, file_entries};
ghost use Rattle.tsdb_state.specs.State.{Compaction, KnownFiles, File, ToldContents};

/// The files of a cross plan stand as a cross job asks: sequence files before the run have only times below those of
/// the late files, and files behind it only times above them, by the hulls that are kept of them.
pub fn a_cross_plan_has_its_gap()
    ensures stands { (told : ToldContents) (known : KnownFiles) (early_claimed late_claimed : File → Bool)
        (sequence unsequence : List File) (run : CrossRun) (job : Compaction)
        → EntriesMatch told known (sequence ++ unsequence)
        → IsCrossPlan (file_entries known early_claimed sequence) (file_entries known late_claimed unsequence) run
        → IsCrossJob run sequence unsequence job
        → HasKind Space.Sequence job × Stands Space.Sequence told sequence unsequence job }
    ensures apart { (known : KnownFiles) (early_claimed late_claimed : File → Bool) (sequence unsequence : List File)
        (run : CrossRun) (job : Compaction) (jobs : List Compaction)
        → IsCrossPlan (file_entries known early_claimed sequence) (file_entries known late_claimed unsequence) run
        → IsCrossJob run sequence unsequence job → ClaimLate late_claimed jobs → IsSequenceFree jobs
        → AllByRecursion (AreApart job) jobs }
{}

/// The files of an inner plan of the sequence list stand as its job asks.
pub fn an_inner_sequence_plan_stands()
    ensures stands { (told : ToldContents) (known : KnownFiles) (claimed : File → Bool)
        (sequence unsequence : List File)
        (run : Run) (job : Compaction)
        → IsInnerPlan (file_entries known claimed sequence) run → IsInnerSequenceJob run sequence job
        → HasKind Space.Sequence job × Stands Space.Sequence told sequence unsequence job }
    ensures apart { (claimed : File → Bool) (sequence : List File) (run : Run) (job : Compaction)
        (jobs : List Compaction)
        → IsInnerSequenceJob run sequence job → ClaimLate claimed jobs → IsSequenceFree jobs
        → AllByRecursion (AreApart job) jobs }
{}

/// The files of an inner plan of the unsequence list stand as its job asks.
pub fn an_inner_unsequence_plan_stands()
    ensures stands { (told : ToldContents) (known : KnownFiles) (claimed : File → Bool)
        (sequence unsequence : List File)
        (run : Run) (job : Compaction)
        → IsInnerPlan (file_entries known claimed unsequence) run → IsInnerUnsequenceJob run unsequence job
        → HasKind Space.Unsequence job × Stands Space.Unsequence told sequence unsequence job }
    ensures apart { (known : KnownFiles) (claimed : File → Bool) (unsequence : List File) (run : Run) (job : Compaction)
        (jobs : List Compaction)
        → IsInnerPlan (file_entries known claimed unsequence) run → IsInnerUnsequenceJob run unsequence job
        → ClaimLate claimed jobs → AllByRecursion (AreApart job) jobs }
{}
