//! Rules of the table: what is done with the packets of a cube.

use crate::actions::Actions;
use crate::address::{PortNo, Tag};
use crate::cube::Cube;

/// A port of the exchange and a tag: what a block of rules is kept for.
#[derive(Clone, Copy, Debug, PartialEq, Eq, PartialOrd, Ord, Hash)]
pub struct Pair {
    pub port: PortNo,
    pub tag: Tag,
}

/// What is done with the packets whose headers lie in a cube.
#[derive(Drop)]
pub struct Rule {
    pub cube: Cube,
    pub actions: Actions,
}
