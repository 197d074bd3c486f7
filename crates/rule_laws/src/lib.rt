//! Laws of the rules of a pair, whatever the policies are. The functions have empty bodies, and their contracts are the laws.
#![tactic(auto)]

mod rules;

pub use rules::{offers_differ, right_rules_are_few, right_rules_are_some, right_rules_exist};
