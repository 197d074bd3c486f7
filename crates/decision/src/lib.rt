//! The choice of the best of a participant's routes (RFC 4271 9.1.2.2).
#![tactic(auto)]

mod candidate;
mod choice;
mod eliminations;

pub use candidate::Candidate;
pub use choice::best;
