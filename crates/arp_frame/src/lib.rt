//! ARP frames for Ethernet and IPv4 (RFC 826): requests are read, requests and replies are written.
#![tactic(auto)]

mod read;
mod write;
mod writer;

pub use read::{ArpRequest, read_request};
pub use write::{reply, request};
