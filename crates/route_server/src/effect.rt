//! What is another for a prefix afterwards.

use net_types::{Prefix, Sig};
use std::rc::Rc;

/// The signature of a prefix afterwards, and the place of each participant's best route in the prefix's row.
#[derive(Drop)]
pub struct Effect {
    /// The place of the prefix's change.
    pub at: usize,
    pub prefix: Prefix,
    /// Changes with the same rows share it.
    pub sig: Rc<Sig>,
    pub bests: Vec<Option<usize>>,
}
