//! What participants were told of the prefixes, what is present for them, and what is pending.
#![tactic(auto)]

mod changes;
mod counts;
mod leaving;
mod participants;
mod queue;
mod session;

pub use changes::Entries;
pub use participants::Adverts;
