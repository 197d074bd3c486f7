//! Rules that stand one after another.

ghost use Rattle.std.specs.Prelude.{◌≡◌, IsTrue};
ghost use Rattle.classifier.specs.Hulls.{holds_each};

use crate::hull::hull_of;
use crate::line::Line;
use net_types::Cube;

/// Rules that stand one after another, and a cube that holds the cube of each.
#[derive(Drop)]
pub struct Run<'a> {
    pub hull: Cube,
    pub lines: &'a [Line],
    ghost held: { IsTrue (holds_each hull lines.now) },
}

impl<'a> Run<'a> {
    /// The run of these rules.
    pub fn new(lines: &'a [Line]) -> Run<'a>
        ensures { result.lines.now ≡ lines.now }
    {
        let hull = match lines.first() {
            Some(first) => hull_of(first.cube, lines),
            None => Cube::everything(),
        };
        Run { hull, lines }
    }
}
