//! A job starts, and goes on.

ghost use Rattle.job_laws.specs.Units.{RecompilesAreAccepted, WorksAreAccepted};

/// `recompile` is answered with all units, and a job owes them.
pub fn recompiles_are_accepted()
    ensures { RecompilesAreAccepted }
{}

/// `work` of fewer units than the job owes is answered with the rest, and nothing else changes.
pub fn works_are_accepted()
    ensures { WorksAreAccepted }
{}
