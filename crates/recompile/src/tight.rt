//! Rules that are tight as they are, of which nothing is built.

ghost use Rattle.std.specs.Prelude.{◌≡◌, ◌+◌, true, false, unwrap_or, IfOk, IfSome, IsOk};
ghost use Rattle.block_build.specs.Tight.{IsTightForm};
ghost use Rattle.events.specs.Sound.{IsTight};
ghost use Rattle.recompile.specs.Tight.{has_within};

use block_build::{Block, build_tight};
use cube::within;
use net_types::{Cube, Memory, Rule, Steps};
use std::alloc::Global;
use std::sync::ledger::Ledger;

/// Whether one of the rules' cubes lies within a cube.
fn has_within(cube: &Cube, rules: &[Rule]) -> bool
    ensures { result ≡ has_within cube.now rules.now }
{
    for later in rules {
        if within(&later.cube, cube) {
            return true;
        }
    }
    false
}

/// Whether no rule's cube lies within an earlier one's.
fn is_tight(rules: &[Rule]) -> bool
    ensures yes { result ≡ true → IsTight rules.now }
    ensures no { result ≡ false → ¬ IsTight rules.now }
{
    for i in 0..rules.len() {
        if has_within(&rules[i].cube, &rules[i + 1..]) {
            return false;
        }
    }
    true
}

/// A tight form of rules that aren't tight; nothing of those that are, which are their own. It counts one step. Memory is the
/// only refusal, and tight rules need none.
pub(crate) fn tightened<L: Ledger>(
    alloc: Global,
    old: &[Rule],
    steps: &mut Steps<L>,
) -> Result<Option<Block>, Memory>
    ensures step { steps.new ≡ steps.old + 1 }
    ensures tight { IfOk result (λ made. IsTightForm old.now (unwrap_or made old.now)) }
    ensures needed { IfOk result (λ made. IfSome made (λ block. ¬ IsTight old.now)) }
    ensures spared { IsTight old.now → IsOk result }
{
    if is_tight(old) {
        steps.tick();
        return Ok(None);
    }
    Ok(Some(build_tight(alloc, old, steps)?))
}
