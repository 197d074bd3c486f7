//! Laws of a background job beside the lines of an exchange: what a job must be told of a line so that it covers the state
//! that the line leaves. The functions' contracts are the laws, and their bodies only cite others.
#![tactic(auto)]

mod lines;
mod plans;

pub use lines::{
    jobs_begin, no_jobs_start, quiet_lines_keep_jobs, refused_lines_keep_jobs,
    steady_settings_are_few,
};
pub use plans::{added_are_few, plans_tell_changes, policies_keep_jobs, reroutings_keep_jobs};
