//! Maps over keys in an order, whose new entries go into memory that was reserved before.
#![tactic(auto)]

mod balance;
mod change;
mod iter;
mod keys;
mod leaving;
mod map;
mod put;
mod run;
mod spare;
mod tree;
mod values;

pub use iter::Iter;
pub use leaving::Tally;
pub use map::OrderedMap;
pub use values::{Change, Lapse};
