//! Rules over ports to leave by, as rules of the table.

ghost use Rattle.std.specs.Prelude.{◌≡◌, ◌<◌, ◌++◌, ◌∷◌, [], IfOk, OnOk, IsPermutation, length};
ghost use Rattle.block_build.specs.Rules.{action_at, actions_in, actions_of, rule_of, rules_of};

use crate::turned::Turned;
use classifier::Line;
use net_types::{Action, Actions, Assign, Loc, Memory, Rule};
use std::alloc::Global;

/// Puts the action of what leaves by a port last.
fn push_action(actions: &mut Vec<Action>, set: Assign, loc: Loc) -> Result<(), Memory>
    ensures { OnOk result (actions.new.items ≡ actions.old.items ++ action_at set loc) }
{
    if let Loc::Out(port) = loc {
        actions.push(Action { port, set })?;
    }
    Ok(())
}

/// The actions of what leaves by ports, in no order.
fn actions_in(alloc: Global, items: &[(Assign, Loc)]) -> Result<Vec<Action>, Memory>
    ensures { IfOk result (λ v. v.items ≡ actions_in items.now) }
{
    let mut actions = Vec::with_capacity(alloc, items.len())?;
    for pair in items {
        push_action(&mut actions, pair.0, pair.1)?;
    }
    Ok(actions)
}

/// Whether an assignment comes before another, by srcip, dstip, srcport and dstport, an absent field before a present one.
fn sets_before(a: &Assign, b: &Assign) -> bool {
    let ports = a.sport.cmp(&b.sport).then(a.dport.cmp(&b.dport));
    let targets = a.dst.cmp(&b.dst).then(ports);
    a.src.cmp(&b.src).then(targets).is_lt()
}

/// Whether an action comes before another: by port, and at the same port by what is set.
fn comes_before(a: &Action, b: &Action) -> bool {
    if a.port.0 == b.port.0 {
        sets_before(&a.set, &b.set)
    } else {
        a.port.0 < b.port.0
    }
}

/// How many places an action is moved back at most.
const NEAR: usize = 8;

/// Moves an action back past those just before it that it comes before.
fn settle_at(actions: &mut [Action], place: usize)
    requires { place < length actions.old }
    ensures { IsPermutation actions.old actions.new }
{
    for at in (place.saturating_sub(NEAR)..place).rev() {
        if !comes_before(&actions[at + 1], &actions[at]) {
            return;
        }
        actions.swap(at, at + 1);
    }
}

/// Moves each action back past those just before it that it comes before. Actions that are nearly in order, as results
/// mostly give them, then are in order.
fn settle(actions: &mut [Action])
    ensures { IsPermutation actions.old actions.new }
{
    for place in 0..actions.len() {
        settle_at(actions, place);
    }
}

/// The actions of what leaves by ports, in order, each once. Sorting takes one look an action where they are in order.
pub(crate) fn actions_of(alloc: Global, items: &[(Assign, Loc)]) -> Result<Actions, Memory>
    ensures { IfOk result (λ a. a ≡ actions_of items.now) }
{
    let mut actions = actions_in(alloc, items)?;
    settle(actions.as_mut_slice());
    Ok(Actions::from_vec(actions))
}

/// So many rules share their actions with their copies. Longer lists of actions are shared anyway.
const FEW: usize = 16;

/// The actions of one of so many rules. Where these are few, a copy is a further owner of the actions.
fn held(actions: Actions, rules: usize) -> Result<Actions, Memory>
    ensures { IfOk result (λ same. same ≡ actions) }
{
    if rules <= FEW {
        actions.shared()
    } else {
        Ok(actions)
    }
}

/// Puts the rule of a line last, one of so many.
fn push_rule(
    rules: &mut Vec<Rule>,
    turned: &mut Turned,
    x: Line,
    count: usize,
) -> Result<(), Memory>
    ensures { OnOk result (rules.new.items ≡ rules.old.items ++ rule_of x ∷ []) }
{
    let Line { cube, results } = x;
    let actions = held(turned.actions(results)?, count)?;
    rules.push(Rule { cube, actions })?;
    Ok(())
}

/// The rules of the table. Each line goes as its rule comes.
pub(crate) fn rules_of(alloc: Global, xs: Vec<Line>) -> Result<Vec<Rule>, Memory>
    ensures { IfOk result (λ v. v.items ≡ rules_of xs.items) }
{
    let mut turned = Turned::new(alloc);
    let count = xs.len();
    let mut rules = Vec::with_capacity(alloc, count)?;
    for x in xs {
        push_rule(&mut rules, &mut turned, x, count)?;
    }
    Ok(rules)
}
