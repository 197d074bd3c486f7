//! Routes, export rules, and what follows from them: each participant's best route, and the signature of a prefix.
#![tactic(auto)]

mod admission;
mod announced;
mod bests;
mod change;
mod choices;
mod compared;
mod down;
mod edits;
mod effect;
mod effects;
mod export;
mod fault;
mod held;
mod laws;
mod names;
mod proposal;
mod propose;
mod repeated;
mod rows;
mod rules;
mod server;
mod signature;
mod terms;
mod update;

pub use fault::RouteFault;
pub use laws::trimmed_signatures_are_those;
pub use proposal::Proposal;
pub use server::RouteServer;
