//! Runs over sources and sinks in memory, whose calls fail where they are told to, and tests of such runs.
#![tactic(auto)]

mod ended;
mod paced;
#[cfg(test)]
mod tests;

pub use ended::{Ended, Given, over_streams, run_given};
pub use paced::Pace;
