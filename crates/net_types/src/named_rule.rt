//! Export rules as a text writes them.

use crate::export::Which;
use crate::list::Name;

/// A rule with a participant's name in place of the participant.
#[derive(Drop)]
pub struct NamedRule {
    pub allow: bool,
    /// The name of the participant that the rule is about; without one it is about every one.
    pub who: Option<Name>,
    pub which: Which,
}
