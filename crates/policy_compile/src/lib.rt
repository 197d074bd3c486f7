//! Policies compiled to classifiers, and how wide they are.
#![tactic(auto)]

mod apart;
mod at_cells;
mod atoms;
mod by_print;
mod columns;
mod fields;
mod groups;
mod locations;
mod meets;
mod memo;
mod mods;
mod outcomes;
mod pairs;
mod parts;
mod policies;
mod preds;
mod prints;
mod regroup;
mod rows;
mod seen;
mod set_table;
mod sets;
mod singles;
mod stages;
mod sums;
mod ways;
mod width;

pub use policies::compile;
pub use width::{count_meets, too_wide, width_is_tested};
