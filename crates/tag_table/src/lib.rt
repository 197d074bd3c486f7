//! Maps from tags to values, for tags that are small and dense: a table with a place for each number.
#![tactic(auto)]

mod iter;
mod places;
mod table;

pub use iter::Iter;
pub use table::TagTable;
