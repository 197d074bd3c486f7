//! The rules of one set of results, of a test and of its negation.

ghost use Rattle.std.specs.Prelude.{◌≡◌, IfOk, [], ◌∷◌};
ghost use Rattle.net_types.specs.Cubes.{everything};
ghost use Rattle.classifier.specs.Lines.{add_lines, line, negated, turned, tested};

use crate::line::Line;
use crate::results::Results;
use crate::seen::push_line;
use net_types::{Assign, Cube, Loc, Memory};
use std::alloc::Global;
use std::collections::HashSet;

/// The packet as it is where there are no results, and nothing elsewhere.
fn turn(alloc: Global, results: &Results) -> Result<Results, Memory>
    ensures { IfOk result (λ r. r ≡ turned results.now) }
{
    let mut turned = Results::new(alloc);
    if results.is_empty() {
        turned.push((Assign::none(), Loc::Stay))?;
    }
    Ok(turned)
}

/// The rules with their results turned round.
pub fn negation_of(alloc: Global, xs: &[Line]) -> Result<Vec<Line>, Memory>
    ensures { IfOk result (λ v. v.items ≡ negated xs.now) }
{
    let mut lines = Vec::new(alloc);
    for x in xs {
        let results = turn(alloc, &x.results)?;
        lines.push(Line {
            cube: x.cube,
            results,
        })?;
    }
    Ok(lines)
}

/// One rule for all headers.
pub fn lines_of_all(alloc: Global, results: Results) -> Result<Vec<Line>, Memory>
    ensures { IfOk result (λ v. v.items ≡ line results everything ∷ []) }
{
    let mut lines = Vec::new(alloc);
    lines.push(Line {
        cube: Cube::everything(),
        results,
    })?;
    Ok(lines)
}

/// The packet as it is in a cube, and nothing elsewhere.
pub fn lines_of_test(alloc: Global, cube: &Cube) -> Result<Vec<Line>, Memory>
    ensures { IfOk result (λ v. v.items ≡ add_lines [] (tested cube.now)) }
{
    let mut there = Results::new(alloc);
    there.push((Assign::none(), Loc::Stay))?;
    let inside = Line {
        cube: *cube,
        results: there,
    };
    let elsewhere = Line {
        cube: Cube::everything(),
        results: Results::new(alloc),
    };
    let mut lines = Vec::new(alloc);
    let mut seen = HashSet::new(alloc);
    push_line(&mut lines, &mut seen, inside)?;
    push_line(&mut lines, &mut seen, elsewhere)?;
    Ok(lines)
}
