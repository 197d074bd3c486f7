//! Laws of the background job: what its lines do to a steady exchange, and that any other line does the same with a job as
//! without one. The functions have empty bodies, and their contracts are the laws.
#![tactic(auto)]

mod changes;
mod ending;
mod replying;
mod sharing;
mod steps;
mod units;

pub use changes::{changes_are_listed, same_rules_are_equal};
pub use ending::{jobs_end, merged_pairs_were_live, merged_tags_were_live, right_rules_stay};
pub use replying::{all_lines_have_replies, all_runs_go_on};
pub use sharing::{least_tags_stay, merged_prefixes_share, shared_tags_tell};
pub use steps::{
    all_runs_stay_steady, all_steps_stay_steady, jobs_leave_lines, steady_without_jobs,
    units_are_added, units_start_anew, units_stay,
};
pub use units::{recompiles_are_accepted, works_are_accepted};
