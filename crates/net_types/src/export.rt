//! Export rules: to whom a participant gives its routes, and which.

use crate::address::Pid;
use crate::prefix::Prefix;

/// Which prefixes a rule is about.
#[derive(Clone, Copy, Debug, PartialEq, Eq)]
pub enum Which {
    Every,
    /// This prefix alone.
    Exactly(Prefix),
    /// This prefix and all that lie within it.
    Within(Prefix),
}

/// A rule; the first of a participant's rules that applies decides.
#[derive(Clone, Copy, Debug, PartialEq, Eq)]
pub struct ExportRule {
    pub allow: bool,
    /// The participant that the rule is about; without one it is about every one.
    pub who: Option<Pid>,
    pub which: Which,
}
