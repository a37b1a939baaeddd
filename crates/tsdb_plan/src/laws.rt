//! The laws by which a cross plan is made in one pass. They say what the definitions mean; no body calls them.
ghost use Rattle.tsdb_plan.specs.Laws.{FirstsAreLeast, EndsAreGreatest, ShorterAreEligible};

/// The first sequence file that a prefix of unsequence files meets is the least of its files' own firsts.
pub fn firsts_are_least()
    ensures { FirstsAreLeast }
{}

/// One past the last sequence file that a prefix of unsequence files meets is the greatest of its files' own.
pub fn ends_are_greatest()
    ensures { EndsAreGreatest }
{}

/// Where a prefix of unsequence files fits with what it meets, each shorter one does.
pub fn shorter_are_eligible()
    ensures { ShorterAreEligible }
{}
