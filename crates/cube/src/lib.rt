//! Tests and operations on cubes of headers, as sets of headers.
#![tactic(auto)]

mod fields;
mod ops;

pub use ops::{has, meet, pull, within};
