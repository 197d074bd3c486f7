//! Laws of replies: each line has one. The functions have empty bodies, and their contracts are the laws.
#![tactic(auto)]

mod replying;

pub use replying::{lines_have_replies, ports_keep_macs};
