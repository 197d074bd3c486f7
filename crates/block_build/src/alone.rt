//! Receivers that have one rule, for all headers.

ghost use Rattle.std.specs.Prelude.{◌≡◌, ◌∷◌, [], IfOk, IsTrue, length};
ghost use Rattle.net_types.specs.Cubes.{everything};
ghost use Rattle.classifier.specs.Items.{add_all};
ghost use Rattle.classifier.specs.Lines.{line};
ghost use Rattle.block_build.specs.Spreads.{beside};

use classifier::{Line, Results, push_all};
use net_types::{Cube, Memory};
use std::alloc::Global;

/// Whether this is the cube of all headers.
pub(crate) fn is_everything(cube: &Cube) -> bool
    ensures { IsTrue result → cube.now ≡ everything }
{
    *cube == Cube::everything()
}

/// A rule with what a receiver makes of every packet.
fn joined(alloc: Global, mut x: Line, results: &Results) -> Result<Line, Memory>
    ensures { IfOk result (λ z. z ≡ line (add_all x.results results.now) x.cube) }
{
    push_all(alloc, &mut x.results, results)?;
    Ok(x)
}

/// One rule beside that of a receiver. Its results grow where they are.
pub(crate) fn beside_alone(mut lines: Vec<Line>, results: &Results) -> Result<Vec<Line>, Memory>
    requires { length lines.items ≡ 1 }
    ensures { IfOk result (λ v. v.items ≡ beside lines.items (line results.now everything ∷ [])) }
{
    let Some(x) = lines.pop() else {
        return Ok(lines);
    };
    let alloc = *lines.allocator();
    lines.push(joined(alloc, x, results)?)?;
    Ok(lines)
}
