//! Cubes of which the first with a packet's headers lies within each atom that has them, and of each the first rule that holds it.
#![tactic(auto)]

mod blocks;
mod cells;
mod cut;
mod fields;
mod firsts;
mod inside;
mod listed;
mod tests;

pub use cells::{Cells, cells_of};
pub use fields::single_fields;
pub use firsts::firsts_of;
pub use inside::Inside;
