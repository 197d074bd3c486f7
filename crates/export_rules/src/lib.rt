//! Export rules: their texts, the participants that they name, and what they allow.
#![tactic(auto)]

mod bound;
mod fault;
mod laws;
mod parsed;
mod reading;

pub use bound::Bound;
pub use fault::{BindFault, RulesFault};
pub use laws::reading_is_spelling;
pub use parsed::{Rules, parse_rules};
