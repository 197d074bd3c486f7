//! Rules without those that lie within an earlier one.

ghost use Rattle.std.specs.Prelude.{◌≡◌, ◌+◌, ◌++◌, ◌∷◌, [], IfOk, OnOk, if◌then◌else◌};
ghost use Rattle.events.specs.Sound.{cubes_of};
ghost use Rattle.block_build.specs.Tight.{IsTightForm, is_inside, sifted};

use crate::block::Block;
use cube::within;
use net_types::{Cube, Memory, Rule, Steps, TryCopy};
use std::alloc::Global;
use std::sync::ledger::Ledger;

/// Whether a cube lies within one of the rules' cubes.
fn is_inside(rules: &[Rule], cube: &Cube) -> bool
    ensures { result ≡ is_inside (cubes_of rules.now) cube.now }
{
    for earlier in rules {
        if within(cube, &earlier.cube) {
            return true;
        }
    }
    false
}

/// Puts an equal rule last, unless its cube lies within that of one before it.
fn push_outside(rules: &mut Vec<Rule>, next: &Rule) -> Result<(), Memory>
    ensures { OnOk result (rules.new.items ≡ (if is_inside (cubes_of rules.old.items) next.now.cube then rules.old.items else rules.old.items ++ next.now ∷ [])) }
{
    if !is_inside(rules, &next.cube) {
        rules.push(next.copy()?)?;
    }
    Ok(())
}

/// The rules whose cubes don't lie within an earlier one's.
fn tight_rules(alloc: Global, old: &[Rule]) -> Result<Vec<Rule>, Memory>
    ensures { IfOk result (λ v. v.items ≡ sifted [] old.now) }
{
    let mut rules = Vec::new(alloc);
    for next in old {
        push_outside(&mut rules, next)?;
    }
    Ok(rules)
}

/// A tight form of rules: those that don't lie within an earlier one's, which are all that are ever the first. It counts one
/// step. Memory is the only refusal.
pub fn build_tight<L: Ledger>(
    alloc: Global,
    old: &[Rule],
    steps: &mut Steps<L>,
) -> Result<Block, Memory>
    ensures step { steps.new ≡ steps.old + 1 }
    ensures tight { IfOk result (λ block. IsTightForm old.now block) }
{
    steps.tick();
    let rules = tight_rules(alloc, old)?;
    let block = Block::new(alloc, rules)?;
    Ok(block)
}
