//! What holds of the state between any two lines of a legal run.

ghost use Rattle.exchange_laws.specs.Steady.{RunsStaySteady, StartsSteady, StepsStaySteady};

/// The state before the first line is steady.
pub fn starts_steady()
    ensures { StartsSteady }
{}

/// Any line that can be written, with a reply that fits, leaves a steady state steady.
pub fn steps_stay_steady()
    ensures { StepsStaySteady }
{}

/// The state after any legal run of such lines is steady.
pub fn runs_stay_steady()
    ensures { RunsStaySteady }
{}
