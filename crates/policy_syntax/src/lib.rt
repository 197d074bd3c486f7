//! The texts of policies: what they spell, where they are wrong, and their canonical form.
#![tactic(auto)]

mod fault;
mod fields;
mod laws;
mod node;
mod policies;
mod preds;
mod printing;
mod rule;
mod text;
mod tree;

pub use fault::SyntaxFault;
pub use laws::reading_is_spelling;
pub use node::Node;
pub use printing::print;
pub use rule::PolicyText;
pub use text::parse;
pub use tree::{Pred, Target, Test, Tree};
