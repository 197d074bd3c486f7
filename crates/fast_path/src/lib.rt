//! The fast path: what a line that builds rules does to tags and rules, planned before anything changes, and committed
//! without taking memory.
#![tactic(auto)]

mod building;
mod carried;
mod classes;
mod committing;
mod draft;
mod emptied;
mod fresh;
mod group_key;
mod grouping;
mod known;
mod last;
mod moves;
mod offering;
mod pairs;
mod parts;
mod planned;
mod planning;
mod tagging;

pub use building::push_flows;
pub use carried::plans_are_committed;
pub use committing::{commit, reserve};
pub use emptied::old_tags;
pub use known::part_in;
pub use offering::{offer_all, reserve_all};
pub use pairs::{dropped_pairs, gone_pairs, is_among, push_pairs, untold};
pub use parts::{forget_all, give_all, remove_all};
pub use planned::{Advert, Changes, Class, FastFault, Plan};
pub use planning::plan;
