//! The codec of UPDATE messages (RFC 4271 4.3, 6.3; RFC 1997; RFC 6793).
//!
//! As the standard says: the layout, the table of attributes, and the errors with their subcodes.
//!
//! Here: a fault never ends the session; the partial flag and the flag of a length in two octets are never a fault; bits
//! past a prefix's length are ignored; only the length of an optional attribute's value is checked; an AS4_PATH that is no
//! path is ignored, and how much of AS_PATH stands before AS4_PATH, and when two segments become one.
#![tactic(auto)]

mod attributes;
mod decoding;
mod encoding;
mod fault;
mod laws;
mod lengths;
mod messages;
mod octets;
mod paths;
mod prefixes;
mod ranges;
mod said;

pub use decoding::decode;
pub use fault::UpdateFault;
pub use laws::{
    messages_read_back, reading_is_spelling, single_messages_are_canonical, spellings_are_sound,
};
pub use lengths::{encoded_len, is_oversize};
pub use messages::{announcement, encode, withdrawal};
