//! Generated lines: the same for the same seed and number, so that a load can be run again.
#![tactic(auto)]

mod datagrams;
mod digits;
mod drawing;
mod lines;
mod updates;

pub use lines::line;
