//! Border routers: they hear advertisements and ARP replies, ask for next hops, and put datagrams into frames to the MACs
//! that they were told.
#![tactic(auto)]

mod addresses;
mod fault;
mod heard;
mod message;
mod octets;
mod router;

pub use fault::TagFault;
pub use heard::News;
pub use message::news;
pub use router::Router;
