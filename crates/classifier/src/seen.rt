//! Rules are put last where they can be reached, which those before them tell, and a set of their cubes where they are many.

ghost use Rattle.std.specs.Prelude.{◌≡◌, ◌||◌, ◌++◌, ◌∷◌, [], false, OnOk};
ghost use Rattle.net_types.specs.Cubes.{everything};
ghost use Rattle.classifier.specs.Lines.{add_line, add_lines, line, joined, same_cube};
ghost use Rattle.classifier.specs.Seen.{Agrees, HasAll, is_there};

use crate::join::{Join, join_results};
use crate::line::Line;
use crate::unions::Unions;
use net_types::{Cube, Memory};
use std::collections::HashSet;

/// How many rules are looked at one by one, which is less work than to look for one's cube in a set.
const FEW: usize = 16;

/// Whether two cubes are equal.
fn is_same(a: &Cube, b: &Cube) -> bool
    ensures { result ≡ same_cube a.now b.now }
{
    a == b
}

/// Whether one of the rules has this cube, or that of all headers.
fn has_cube(lines: &[Line], cube: &Cube) -> bool
    ensures { result ≡ (is_there lines.now cube.now || is_there lines.now everything) }
{
    let all = Cube::everything();
    for line in lines {
        if is_same(&line.cube, cube) || is_same(&line.cube, &all) {
            return true;
        }
    }
    false
}

/// Whether a rule of this cube can never be reached behind the others.
pub fn is_hidden(lines: &[Line], seen: &HashSet<Cube>, cube: &Cube) -> bool
    requires { Agrees lines.now seen.now }
    ensures { result ≡ (is_there lines.now cube.now || is_there lines.now everything) }
{
    if lines.len() > FEW {
        seen.contains(cube) || seen.contains(&Cube::everything())
    } else {
        has_cube(lines, cube)
    }
}

/// Puts the cubes of rules into a set, which has none of them yet where they are few.
fn note_all(lines: &[Line], seen: &mut HashSet<Cube>) -> Result<(), Memory>
    requires { Agrees lines.now seen.old }
    ensures { OnOk result (HasAll lines.now seen.new) }
{
    if lines.len() > FEW {
        return Ok(());
    }
    for line in lines {
        seen.insert(line.cube)?;
    }
    Ok(())
}

/// Has the set ready for one more rule, of this cube.
fn note_next(lines: &[Line], seen: &mut HashSet<Cube>, cube: Cube) -> Result<(), Memory>
    requires { Agrees lines.now seen.old }
    ensures { OnOk result (Agrees (lines.now ++ line [] cube ∷ []) seen.new) }
{
    if lines.len() < FEW {
        return Ok(());
    }
    note_all(lines, seen)?;
    seen.insert(cube)?;
    Ok(())
}

/// Puts a rule last that can be reached.
pub fn push_reached(
    lines: &mut Vec<Line>,
    seen: &mut HashSet<Cube>,
    next: Line,
) -> Result<(), Memory>
    requires agrees { Agrees lines.old.items seen.old }
    requires reached { (is_there lines.old.items next.cube || is_there lines.old.items everything) ≡ false }
    ensures lines { OnOk result (lines.new.items ≡ add_line lines.old.items next) }
    ensures agrees { OnOk result (Agrees lines.new.items seen.new) }
{
    note_next(lines, seen, next.cube)?;
    lines.push(next)?;
    Ok(())
}

/// Puts a rule last, where it can be reached.
pub fn push_line(lines: &mut Vec<Line>, seen: &mut HashSet<Cube>, next: Line) -> Result<(), Memory>
    requires { Agrees lines.old.items seen.old }
    ensures lines { OnOk result (lines.new.items ≡ add_line lines.old.items next) }
    ensures agrees { OnOk result (Agrees lines.new.items seen.new) }
{
    if !is_hidden(lines, seen, &next.cube) {
        push_reached(lines, seen, next)?;
    }
    Ok(())
}

/// Puts rules last in their order, each where it can be reached.
#[tactic(auto, using(crate::proofs::AddLemmas::add_lines_append))]
pub fn push_lines(
    lines: &mut Vec<Line>,
    seen: &mut HashSet<Cube>,
    others: Vec<Line>,
) -> Result<(), Memory>
    requires { Agrees lines.old.items seen.old }
    ensures lines { OnOk result (lines.new.items ≡ add_lines lines.old.items others.items) }
    ensures agrees { OnOk result (Agrees lines.new.items seen.new) }
{
    for next in others {
        push_line(lines, seen, next)?;
    }
    Ok(())
}

/// Puts the rule of a cube that joins two rules last, where it can be reached.
pub fn push_joined(
    unions: &mut Unions,
    lines: &mut Vec<Line>,
    seen: &mut HashSet<Cube>,
    cube: Cube,
    join: Join,
    x: &Line,
    y: &Line,
) -> Result<(), Memory>
    requires { Agrees lines.old.items seen.old }
    ensures lines { OnOk result (lines.new.items ≡ add_line lines.old.items (line (joined join x.now.results y.now.results) cube)) }
    ensures agrees { OnOk result (Agrees lines.new.items seen.new) }
{
    if !is_hidden(lines, seen, &cube) {
        let results = join_results(unions, join, &x.results, &y.results)?;
        push_reached(lines, seen, Line { cube, results })?;
    }
    Ok(())
}
