//! A participant's route for a prefix.

ghost use Rattle.std.specs.Prelude.{◌≡◌, sum_by};
ghost use Rattle.net_types.specs.Paths.{hops_of};

use net_types::{Pid, SharedAttrs};

/// A route, with the number of its hops, which is counted once. A copy of it is a further owner of the same attributes.
#[derive(Drop)]
pub struct Held {
    pub from: Pid,
    pub hops: u32,
    pub attrs: SharedAttrs,
    ghost counted: { hops ≡ sum_by hops_of attrs.path },
}
