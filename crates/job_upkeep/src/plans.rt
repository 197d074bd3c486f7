//! Lines that build rules by a plan.

ghost use Rattle.job_upkeep.specs.Upkeep.{AddedAreFew, PlansTellChanges, PoliciesKeepJobs, ReroutingsKeepJobs};

use exchange_laws::steps_stay_steady;
use fast_path::plans_are_committed;
use job_laws::{jobs_leave_lines, units_start_anew};

/// A plan says what becomes of what a job works on.
pub fn plans_tell_changes()
    ensures { PlansTellChanges }
{
    steps_stay_steady();
    plans_are_committed();
}

/// Where the routes change, a plan adds at most so many pairs for a fresh tag as there are ports.
pub fn added_are_few()
    ensures { AddedAreFew }
{}

/// A job that is told what a plan says covers what a change of the routes leaves.
pub fn reroutings_keep_jobs()
    ensures { ReroutingsKeepJobs }
{
    steps_stay_steady();
    plans_are_committed();
    jobs_leave_lines();
}

/// A job that begins anew covers what another policy leaves.
pub fn policies_keep_jobs()
    ensures { PoliciesKeepJobs }
{
    steps_stay_steady();
    plans_are_committed();
    jobs_leave_lines();
    units_start_anew();
}
