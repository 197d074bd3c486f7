//! Rules that a receiver's don't cut otherwise than rules before them.

ghost use Rattle.std.specs.Prelude.{◌≡◌, ◌||◌, false, IsTrue, IfOk, OnOk, if◌then◌else◌};
ghost use Rattle.net_types.specs.Cubes.{everything};
ghost use Rattle.classifier.specs.Items.{add_all};
ghost use Rattle.classifier.specs.Lines.{add_line, add_lines, line, row};
ghost use Rattle.classifier.specs.Seen.{Agrees, is_there};
ghost use Rattle.classifier.specs.declared.join.Join.TheVariants.{Union};
ghost use Rattle.block_build.specs.Bounds.{AreMeets};
ghost use Rattle.block_build.specs.Closed.{AreClosed, AreThere, IsThere};
ghost use Rattle.block_build.specs.Groups.{lines_within};
ghost use Rattle.block_build.specs.Receivers.{received_items, received_lines};

use crate::group::Group;
use crate::holding::first_holding;
use crate::received::Received;
use crate::stop::Stop;
use crate::tested::is_same;
use classifier::{Line, is_hidden, push_reached};
use net_types::{Cube, Memory, PortNo};
use std::collections::HashSet;

/// So many looks a tested cube takes, whose meet is looked for among all cubes.
const TEST: usize = 8;

/// How many looks it takes to see for so many rules whether a receiver's cut them otherwise than the rules before them.
pub(crate) fn looks_of(rules: usize, tests: usize) -> usize {
    rules.saturating_mul(tests).saturating_mul(TEST)
}

/// Whether what a cube has in common with a tested one is the cube of a rule, or all that it has.
fn is_there(lines: &[Line], seen: &HashSet<Cube>, cube: &Cube, test: &Cube) -> bool
    requires agrees { Agrees lines.now seen.now }
    requires fresh { (is_there lines.now cube.now || is_there lines.now everything) ≡ false }
    ensures { IsTrue result → IsThere lines.now cube.now test.now }
{
    let Some(met) = cube::meet(cube, test) else {
        return true;
    };
    is_same(&met, cube) || is_hidden(lines, seen, &met)
}

/// Whether it is with each of the tested cubes.
fn are_there(lines: &[Line], seen: &HashSet<Cube>, cube: &Cube, tests: &[Cube]) -> bool
    requires agrees { Agrees lines.now seen.now }
    requires fresh { (is_there lines.now cube.now || is_there lines.now everything) ≡ false }
    ensures { IsTrue result → AreThere lines.now cube.now tests.now }
{
    for test in tests {
        if !is_there(lines, seen, cube, test) {
            return false;
        }
    }
    true
}

/// Puts a rule joined with one of a receiver last, with its own cube.
fn push_own(
    received: &mut Received,
    lines: &mut Vec<Line>,
    seen: &mut HashSet<Cube>,
    x: &Line,
    hop: PortNo,
    y: &Line,
) -> Result<(), Memory>
    requires agrees { Agrees lines.old.items seen.old }
    requires fresh { (is_there lines.old.items x.now.cube || is_there lines.old.items everything) ≡ false }
    ensures lines { OnOk result (lines.new.items ≡ add_line lines.old.items (line (add_all x.now.results (received_items hop y.now.results)) x.now.cube)) }
    ensures agrees { OnOk result (Agrees lines.new.items seen.new) }
{
    let results = received.beside(&x.results, hop, &y.results)?;
    let cube = x.cube;
    push_reached(lines, seen, Line { cube, results })
}

/// Adds a rule joined with each of a receiver's where these don't cut it otherwise than the rules that are there: then it is
/// joined with the first one that holds it. Answers whether it did.
pub(crate) fn push_uncut(
    received: &mut Received,
    lines: &mut Vec<Line>,
    seen: &mut HashSet<Cube>,
    x: &Line,
    hop: PortNo,
    groups: &[Group<'_>],
    tests: &[Cube],
) -> Result<bool, Stop>
    requires agrees { Agrees lines.old.items seen.old }
    requires closed { AreClosed tests.now lines.old.items }
    requires meets { AreMeets tests.now (received_lines hop (lines_within groups.now)) }
    ensures lines { IfOk result (λ done. lines.new.items ≡ (if done then add_lines lines.old.items (row Union x.now (received_lines hop (lines_within groups.now))) else lines.old.items)) }
    ensures agrees { OnOk result (Agrees lines.new.items seen.new) }
    ensures closed { OnOk result (AreClosed tests.now lines.new.items) }
{
    if is_hidden(lines, seen, &x.cube) {
        return Ok(false);
    }
    received.count(looks_of(1, tests.len()))?;
    if !are_there(lines, seen, &x.cube, tests) {
        return Ok(false);
    }
    match first_holding(groups, &x.cube) {
        Some(y) => {
            push_own(received, lines, seen, x, hop, y)?;
            Ok(true)
        }
        None => Ok(false),
    }
}
