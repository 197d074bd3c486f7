//! Policies. Each function is handed how many groups may still be opened.

ghost use Rattle.std.specs.Prelude.{◌≡◌, ◌-◌, ◌<◌, ◌≤◌, ◌^◌, length, codes, IfOk};
ghost use Rattle.net_types.specs.PolicyReading.{read_keyword, read_fwd, read_match, read_modify, read_m, read_atom_from, read_atom, read_then, read_thens, read_chain, read_plus, read_pluses, read_policy, read_policy_group, read_pred_group, read_start};
ghost use Rattle.net_types.specs.Policies.{Drop, Pass, Block};
ghost use Rattle.policy_syntax.specs.Answers.{Gives};
ghost use Rattle.policy_syntax.specs.Views.{policy_of};

use crate::fault::SyntaxFault;
use crate::fields::{all_assigned, assigned, target};
use crate::preds::{pred, too_deep};
use crate::tree::Tree;
use bumpalo::Bump;
use net_types::{Assign, Span};
use text_fields::{next_is, place, sign, spaces, word};

#[tactic(auto, unfolding(net_types::specs::PolicyReading::read_keyword))]
fn drop_word(size: usize, rest: &[u8]) -> Result<(Tree<'_>, &[u8]), SyntaxFault>
    requires { size < 2 ^ 32 }
    ensures reads { Gives (λ x. (policy_of x.0, x.1.now)) result (read_keyword (codes "drop") Drop size rest.now) }
    ensures left { IfOk result (λ x. length x.1.now < length rest.now) }
{
    let rest = word(size, b"drop", rest)?;
    Ok((Tree::Drop, spaces(rest)))
}

#[tactic(auto, unfolding(net_types::specs::PolicyReading::read_keyword))]
fn pass_word(size: usize, rest: &[u8]) -> Result<(Tree<'_>, &[u8]), SyntaxFault>
    requires { size < 2 ^ 32 }
    ensures reads { Gives (λ x. (policy_of x.0, x.1.now)) result (read_keyword (codes "pass") Pass size rest.now) }
    ensures left { IfOk result (λ x. length x.1.now < length rest.now) }
{
    let rest = word(size, b"pass", rest)?;
    Ok((Tree::Pass, spaces(rest)))
}

#[tactic(auto, unfolding(net_types::specs::PolicyReading::read_keyword))]
fn block_word(size: usize, rest: &[u8]) -> Result<(Tree<'_>, &[u8]), SyntaxFault>
    requires { size < 2 ^ 32 }
    ensures reads { Gives (λ x. (policy_of x.0, x.1.now)) result (read_keyword (codes "block") Block size rest.now) }
    ensures left { IfOk result (λ x. length x.1.now < length rest.now) }
{
    let rest = word(size, b"block", rest)?;
    Ok((Tree::Block, spaces(rest)))
}

// Start is the place at which the atom stands.
#[tactic(auto, unfolding(net_types::specs::PolicyReading::read_fwd))]
fn fwd(size: usize, start: u32, rest: &[u8]) -> Result<(Tree<'_>, &[u8]), SyntaxFault>
    requires { size < 2 ^ 32 }
    ensures reads { Gives (λ x. (policy_of x.0, x.1.now)) result (read_fwd start size rest.now) }
    ensures left { IfOk result (λ x. length x.1.now < length rest.now) }
{
    let rest = word(size, b"fwd", rest)?;
    let rest = sign(size, b"(", spaces(rest))?;
    let (target, rest) = target(size, rest)?;
    let rest = word(size, b")", spaces(rest))?;
    let end = place(size, rest);
    Ok((Tree::Fwd(target, Span { start, end }), spaces(rest)))
}

// A test behind its first letter.
#[tactic(auto, unfolding(net_types::specs::PolicyReading::read_match))]
fn match_pred<'a>(
    arena: &'a Bump,
    depth: u32,
    size: usize,
    rest: &'a [u8],
) -> Result<(Tree<'a>, &'a [u8]), SyntaxFault>
    requires { size < 2 ^ 32 }
    ensures reads { Gives (λ x. (policy_of x.0, x.1.now)) result (read_match (read_pred_group depth) size rest.now) }
    ensures left { IfOk result (λ x. length x.1.now < length rest.now) }
{
    let rest = word(size, b"atch", rest)?;
    let rest = sign(size, b"(", spaces(rest))?;
    let (pred, rest) = pred(arena, depth, size, rest)?;
    Ok((Tree::Match(pred), sign(size, b")", rest)?))
}

// A modification behind its first letter.
#[tactic(auto, unfolding(net_types::specs::PolicyReading::read_modify))]
fn modify(size: usize, start: u32, rest: &[u8]) -> Result<(Tree<'_>, &[u8]), SyntaxFault>
    requires { size < 2 ^ 32 }
    ensures reads { Gives (λ x. (policy_of x.0, x.1.now)) result (read_modify start size rest.now) }
    ensures left { IfOk result (λ x. length x.1.now < length rest.now) }
{
    let rest = word(size, b"odify", rest)?;
    let rest = sign(size, b"(", spaces(rest))?;
    let (first, rest) = assigned(size, rest)?;
    let (all, rest) = all_assigned(size, first.added_to(Assign::none()), rest)?;
    let rest = word(size, b")", rest)?;
    let end = place(size, rest);
    Ok((Tree::Set(all, Span { start, end }), spaces(rest)))
}

#[tactic(auto, unfolding(net_types::specs::PolicyReading::read_m))]
fn match_or_modify<'a>(
    arena: &'a Bump,
    depth: u32,
    size: usize,
    start: u32,
    rest: &'a [u8],
) -> Result<(Tree<'a>, &'a [u8]), SyntaxFault>
    requires { size < 2 ^ 32 }
    ensures reads { Gives (λ x. (policy_of x.0, x.1.now)) result (read_m (read_pred_group depth) start size rest.now) }
    ensures left { IfOk result (λ x. length x.1.now < length rest.now) }
{
    let rest = word(size, b"m", rest)?;
    match rest {
        [b'a', ..] => match_pred(arena, depth, size, rest),
        _ => modify(size, start, rest),
    }
}

#[cycle(policies)]
#[tactic(auto, unfolding(net_types::specs::PolicyReading::read_atom, net_types::specs::PolicyReading::read_atom_from))]
fn atom<'a>(
    arena: &'a Bump,
    depth: u32,
    size: usize,
    rest: &'a [u8],
) -> Result<(Tree<'a>, &'a [u8]), SyntaxFault>
    requires { size < 2 ^ 32 }
    ensures reads { Gives (λ x. (policy_of x.0, x.1.now)) result (read_atom (read_pred_group depth) (read_policy_group depth) size rest.now) }
    ensures left { IfOk result (λ x. length x.1.now < length rest.now) }
{
    let start = place(size, rest);
    match rest {
        [b'd', ..] => drop_word(size, rest),
        [b'p', ..] => pass_word(size, rest),
        [b'b', ..] => block_word(size, rest),
        [b'f', ..] => fwd(size, start, rest),
        [b'm', ..] => match_or_modify(arena, depth, size, start, rest),
        _ => group(arena, depth, size, rest),
    }
}

#[cycle(policies)]
#[tactic(auto, unfolding(net_types::specs::PolicyReading::read_then))]
fn then_atom<'a>(
    arena: &'a Bump,
    depth: u32,
    size: usize,
    rest: &'a [u8],
) -> Result<(Tree<'a>, &'a [u8]), SyntaxFault>
    requires { size < 2 ^ 32 }
    ensures reads { Gives (λ x. (policy_of x.0, x.1.now)) result (read_then (read_pred_group depth) (read_policy_group depth) size rest.now) }
    ensures left { IfOk result (λ x. length x.1.now < length rest.now) }
{
    let rest = sign(size, b">>", rest)?;
    atom(arena, depth, size, rest)
}

#[cycle(policies)]
fn thens<'a>(
    arena: &'a Bump,
    depth: u32,
    size: usize,
    first: Tree<'a>,
    rest: &'a [u8],
) -> Result<(Tree<'a>, &'a [u8]), SyntaxFault>
    requires { size < 2 ^ 32 }
    ensures reads { Gives (λ x. (policy_of x.0, x.1.now)) result (read_thens (read_pred_group depth) (read_policy_group depth) (policy_of first.entry) size rest.now) }
    ensures left { IfOk result (λ x. length x.1.now ≤ length rest.now) }
{
    let mut all = first;
    let mut left = rest;
    while next_is(b">", left) {
        let (next, after) = then_atom(arena, depth, size, left)?;
        all = Tree::Then(arena.try_alloc(all)?, arena.try_alloc(next)?);
        left = after;
    }
    Ok((all, left))
}

#[cycle(policies)]
#[tactic(auto, unfolding(net_types::specs::PolicyReading::read_chain))]
fn chain<'a>(
    arena: &'a Bump,
    depth: u32,
    size: usize,
    rest: &'a [u8],
) -> Result<(Tree<'a>, &'a [u8]), SyntaxFault>
    requires { size < 2 ^ 32 }
    ensures reads { Gives (λ x. (policy_of x.0, x.1.now)) result (read_chain (read_pred_group depth) (read_policy_group depth) size rest.now) }
    ensures left { IfOk result (λ x. length x.1.now < length rest.now) }
{
    let (first, rest) = atom(arena, depth, size, rest)?;
    thens(arena, depth, size, first, rest)
}

#[cycle(policies)]
#[tactic(auto, unfolding(net_types::specs::PolicyReading::read_plus))]
fn plus_chain<'a>(
    arena: &'a Bump,
    depth: u32,
    size: usize,
    rest: &'a [u8],
) -> Result<(Tree<'a>, &'a [u8]), SyntaxFault>
    requires { size < 2 ^ 32 }
    ensures reads { Gives (λ x. (policy_of x.0, x.1.now)) result (read_plus (read_pred_group depth) (read_policy_group depth) size rest.now) }
    ensures left { IfOk result (λ x. length x.1.now < length rest.now) }
{
    let rest = sign(size, b"+", rest)?;
    chain(arena, depth, size, rest)
}

#[cycle(policies)]
fn pluses<'a>(
    arena: &'a Bump,
    depth: u32,
    size: usize,
    first: Tree<'a>,
    rest: &'a [u8],
) -> Result<(Tree<'a>, &'a [u8]), SyntaxFault>
    requires { size < 2 ^ 32 }
    ensures reads { Gives (λ x. (policy_of x.0, x.1.now)) result (read_pluses (read_pred_group depth) (read_policy_group depth) (policy_of first.entry) size rest.now) }
    ensures left { IfOk result (λ x. length x.1.now ≤ length rest.now) }
{
    let mut all = first;
    let mut left = rest;
    while next_is(b"+", left) {
        let (next, after) = plus_chain(arena, depth, size, left)?;
        all = Tree::Both(arena.try_alloc(all)?, arena.try_alloc(next)?);
        left = after;
    }
    Ok((all, left))
}

#[cycle(policies)]
#[tactic(auto, unfolding(net_types::specs::PolicyReading::read_policy))]
fn policy<'a>(
    arena: &'a Bump,
    depth: u32,
    size: usize,
    rest: &'a [u8],
) -> Result<(Tree<'a>, &'a [u8]), SyntaxFault>
    requires { size < 2 ^ 32 }
    ensures reads { Gives (λ x. (policy_of x.0, x.1.now)) result (read_policy (read_pred_group depth) (read_policy_group depth) size rest.now) }
    ensures left { IfOk result (λ x. length x.1.now < length rest.now) }
{
    let (first, rest) = chain(arena, depth, size, rest)?;
    pluses(arena, depth, size, first, rest)
}

#[cycle(policies)]
#[tactic(auto, unfolding(net_types::specs::PolicyReading::read_policy_group, grammar::specs::TokenReading::read_parens))]
fn group<'a>(
    arena: &'a Bump,
    depth: u32,
    size: usize,
    rest: &'a [u8],
) -> Result<(Tree<'a>, &'a [u8]), SyntaxFault>
    requires { size < 2 ^ 32 }
    ensures reads { Gives (λ x. (policy_of x.0, x.1.now)) result (read_policy_group depth size rest.now) }
    ensures left { IfOk result (λ x. length x.1.now < length rest.now) }
{
    if depth == 0 {
        return Err(too_deep(size, rest));
    }
    let rest = sign(size, b"(", rest)?;
    let (inner, rest) = policy(arena, depth - 1, size, rest)?;
    Ok((inner, sign(size, b")", rest)?))
}

/// The policy of a text, and what is left behind it.
#[tactic(auto, unfolding(net_types::specs::PolicyReading::read_start))]
pub fn start<'a>(
    arena: &'a Bump,
    depth: u32,
    size: usize,
    rest: &'a [u8],
) -> Result<(Tree<'a>, &'a [u8]), SyntaxFault>
    requires { size < 2 ^ 32 }
    ensures { Gives (λ x. (policy_of x.0, x.1.now)) result (read_start depth size rest.now) }
{
    policy(arena, depth, size, spaces(rest))
}
