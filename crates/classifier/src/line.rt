//! Rules.

ghost use Rattle.std.specs.Prelude.{◌≡◌, IfOk};

use crate::results::Results;
use net_types::{Cube, Items, Memory, TryCopy};

/// A rule: what it gives to the headers of a cube.
#[derive(Drop)]
pub struct Line {
    pub cube: Cube,
    pub results: Results,
}

/// Rules in their order.
pub type Lines = Items<Line>;

impl TryCopy for Line {
    fn copy(&self) -> Result<Line, Memory> {
        Ok(Line {
            cube: self.cube,
            results: self.results.copy()?,
        })
    }
}
