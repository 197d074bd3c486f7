//! Any line in a state in which a job may run.

ghost use Rattle.job_laws.specs.Steps.{AllRunsStaySteady, AllStepsStaySteady, JobsLeaveLines, SteadyWithoutJobs, UnitsAreAdded, UnitsStartAnew, UnitsStay};

/// A steady state is one in which a job may run, and none does.
pub fn steady_without_jobs()
    ensures { SteadyWithoutJobs }
{}

/// A line that isn't a job's does the same with a job as without one, but for what the job owes.
pub fn jobs_leave_lines()
    ensures { JobsLeaveLines }
{}

/// After a line that builds no rules a job owes as much as before.
pub fn units_stay()
    ensures { UnitsStay }
{}

/// After a change of the routes it owes the units of what is new besides.
pub fn units_are_added()
    ensures { UnitsAreAdded }
{}

/// After another policy it owes all units.
pub fn units_start_anew()
    ensures { UnitsStartAnew }
{}

/// Any line that can be written, with a reply that fits, leaves a state steady in which a job may run.
pub fn all_steps_stay_steady()
    ensures { AllStepsStaySteady }
{}

/// The state after any legal run of such lines is steady.
pub fn all_runs_stay_steady()
    ensures { AllRunsStaySteady }
{}
