//! Lines that build no rules, and the start of a job.

ghost use Rattle.job_upkeep.specs.Upkeep.{JobsBegin, NoJobsStart, QuietLinesKeepJobs, RefusedLinesKeepJobs, SteadySettingsAreFew};

use exchange_laws::{pairs_are_live, steps_stay_steady};
use job_laws::{jobs_leave_lines, units_stay};
use recompile::quiet_changes_keep_jobs;

/// The tags of a steady state are few.
pub fn steady_settings_are_few()
    ensures { SteadySettingsAreFew }
{}

/// A refused line leaves the job as it is.
pub fn refused_lines_keep_jobs()
    ensures { RefusedLinesKeepJobs }
{}

/// A line that builds no rules leaves the job as it is.
pub fn quiet_lines_keep_jobs()
    ensures { QuietLinesKeepJobs }
{
    steps_stay_steady();
    jobs_leave_lines();
    units_stay();
    quiet_changes_keep_jobs();
}

/// Where no job runs, none runs after a line that isn't a job's.
pub fn no_jobs_start()
    ensures { NoJobsStart }
{
    jobs_leave_lines();
}

/// A job for what a state has owes all units, and covers the state after `recompile`.
pub fn jobs_begin()
    ensures { JobsBegin }
{
    pairs_are_live();
}
