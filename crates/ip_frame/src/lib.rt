//! IPv4 frames: their headers are read and rewritten, with the checksums over them, and datagrams are put into frames
//! (RFC 791, RFC 1624).
#![tactic(auto)]

mod checksum;
mod datagram;
mod layout;
mod ports;
mod read;
mod words;
mod write;

pub use datagram::wrap;
pub use read::headers;
pub use write::rewrite;
