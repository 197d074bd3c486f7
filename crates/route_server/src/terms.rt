//! What decides on routes beside the routes themselves.

use net_types::{ExportRules, Pids};
use registry::Registry;

/// What is declared, each participant's export rules, and whom each participant's outbound policy names in a forward.
#[derive(Clone, Copy)]
pub struct Terms<'a> {
    pub names: &'a Registry,
    pub rules: &'a [ExportRules],
    pub named: &'a [Pids],
}
