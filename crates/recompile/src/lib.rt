//! The background job: it regroups the prefixes and tightens the rules in small units, while lines go on between any two.
#![tactic(auto)]

mod job;
mod laws;
mod lists;
mod swap;
mod tight;
mod units;

pub use job::Job;
pub use laws::quiet_changes_keep_jobs;
pub use swap::{Built, Progress, Swap};
