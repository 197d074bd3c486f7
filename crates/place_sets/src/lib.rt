//! Sets of places, as bits.
#![tactic(auto)]

mod place_set;

pub use place_set::PlaceSet;
