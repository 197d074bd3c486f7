//! The pool of the exchange's tags: which are free, the addresses that next hops get, and their virtual MACs.
#![tactic(auto)]

mod mac;
mod place;
mod pool;

pub use mac::vmac;
pub use pool::Pool;
