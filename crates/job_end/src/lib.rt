//! The end of a background job: the classes merged and the rules tight, planned before anything changes, and committed
//! without taking memory.
#![tactic(auto)]

mod changed;
mod committing;
mod ended;
mod laws;
mod offering;
mod planning;
mod swapping;

pub use committing::{commit_end, reserve_end};
pub use ended::End;
pub use laws::ends_are_committed;
pub use planning::plan_end;
