//! One line of an exchange that isn't a job's: the reply to an event, the state after it, and what a background job is told.
#![tactic(auto)]

mod address_set;
mod arp_responder;
mod exchange;
mod line_order;
mod next_hops;
mod octets;
mod policy_text;
mod pool_range;
mod programs;
mod rebuilt;
mod replies;
mod request;
mod stop;
mod taking;
mod telling;

pub use exchange::Core;
pub use replies::{bare_reply, refused};
