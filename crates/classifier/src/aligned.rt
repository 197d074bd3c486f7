//! Rules that have the same cubes in the same order.

ghost use Rattle.std.specs.Prelude.{◌≡◌, true};
ghost use Rattle.classifier.specs.Meaning.{cubes_of};

use crate::line::Line;

/// Whether the rules of both have the same cubes in the same order.
pub fn are_aligned(xs: &[Line], ys: &[Line]) -> bool
    ensures { result ≡ true → cubes_of xs.now ≡ cubes_of ys.now }
{
    if xs.len() != ys.len() {
        return false;
    }
    for i in 0..xs.len() {
        if xs[i].cube != ys[i].cube {
            return false;
        }
    }
    true
}
