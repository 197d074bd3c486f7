//! The participants and ports of an exchange, in order of declaration.
#![tactic(auto)]

mod fault;
mod index;
mod owners;
mod participants;
mod ports;
mod registry;

pub use fault::RegFault;
pub use net_types::{Participant, PortInfo};
pub use registry::Registry;
