//! A job ends.

ghost use Rattle.job_laws.specs.Ending.{JobsEnd, MergedPairsWereLive, MergedTagsWereLive, RightRulesStay};

/// No tag becomes live at the end of a job, and the signatures that are kept stay.
pub fn merged_tags_were_live()
    ensures { MergedTagsWereLive }
{}

/// No pair becomes live at the end of a job.
pub fn merged_pairs_were_live()
    ensures { MergedPairsWereLive }
{}

/// Rules of a pair that stays live at the end of a job stay right.
pub fn right_rules_stay()
    ensures { RightRulesStay }
{}

/// With right and tight rules, no more for a pair than it had, a job ends, and the state is steady.
pub fn jobs_end()
    ensures { JobsEnd }
{}
