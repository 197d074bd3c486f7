//! What leaves a job covering.

ghost use Rattle.recompile.specs.Changing.{QuietChangesKeepJobs};

/// A line that gives no tag members and adds no pair leaves a job covering, which needn't be told of it.
pub fn quiet_changes_keep_jobs()
    ensures { QuietChangesKeepJobs }
{}
