//! Isolation: which policies a participant may have, as the outbound and the inbound one.
#![tactic(auto)]

mod fault;
mod inbound;
mod naming;
mod names;
mod outbound;
mod ports;

pub use inbound::check_in;
pub use naming::named;
pub use names::Names;
pub use net_types::{IsolateFault, Kind};
pub use outbound::check_out;
