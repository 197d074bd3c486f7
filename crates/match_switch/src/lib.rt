//! The table of the switch: rules by port and tag, and what they make of a frame.
#![tactic(auto)]

mod blocks;
mod fault;
mod forwarding;
mod gone;
mod iter;
mod leaving;
mod recent;
mod switch;

pub use fault::PutFault;
pub use iter::Iter;
pub use switch::Switch;
