//! Finite maps from prefixes, with the longest prefix that covers an address.
#![tactic(auto)]

mod change;
mod iter;
mod map;
mod parts;
mod place;
mod spare;
mod table;
mod trie;

pub use iter::Iter;
pub use map::PrefixMap;
