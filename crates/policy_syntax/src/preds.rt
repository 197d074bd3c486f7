//! Predicates. Each function is handed how many groups may still be opened.

ghost use Rattle.std.specs.Prelude.{◌≡◌, ◌-◌, ◌<◌, ◌≤◌, ◌^◌, length, codes, IfOk};
ghost use Rattle.net_types.specs.PolicyReading.{read_is, read_true, read_prim, read_not, read_lit, read_and, read_ands, read_conj, read_or, read_ors, read_pred, read_pred_group};
ghost use Rattle.grammar.specs.Octets.{among};
ghost use Rattle.grammar.specs.TextReading.{read_either};
ghost use Rattle.grammar.specs.TokenReading.{read_too_deep, read_sign};
ghost use Rattle.policy_syntax.specs.Answers.{Gives, Fails};
ghost use Rattle.text_fields.specs.Answers.{Gives as TokenGives};
ghost use Rattle.net_types.specs.Policies.{Pred as Predicate, Policy};
ghost use Rattle.policy_syntax.specs.Views.{pred_of};

use crate::fault::SyntaxFault;
use crate::fields::test;
use crate::tree::Pred;
use bumpalo::Bump;
use net_types::Span;
use text_fields::{WrongOctet, next_is, place, sign, spaces, word};

#[tactic(auto, unfolding(net_types::specs::PolicyReading::read_is))]
fn tested(size: usize, rest: &[u8]) -> Result<(Pred<'_>, &[u8]), SyntaxFault>
    requires { size < 2 ^ 32 }
    ensures reads { Gives (λ x. (pred_of x.0, x.1.now)) result (read_is size rest.now) }
    ensures left { IfOk result (λ x. length x.1.now < length rest.now) }
{
    let start = place(size, rest);
    let (test, after) = test(size, rest)?;
    let end = place(size, after);
    Ok((Pred::Is(test, Span { start, end }), spaces(after)))
}

#[tactic(auto, unfolding(net_types::specs::PolicyReading::read_true))]
fn truth(size: usize, rest: &[u8]) -> Result<(Pred<'_>, &[u8]), SyntaxFault>
    requires { size < 2 ^ 32 }
    ensures reads { Gives (λ x. (pred_of x.0, x.1.now)) result (read_true size rest.now) }
    ensures left { IfOk result (λ x. length x.1.now < length rest.now) }
{
    let rest = word(size, b"true", rest)?;
    Ok((Pred::Yes, spaces(rest)))
}

/// No more group may be opened, so one that opens here is too deep.
#[tactic(auto, unfolding(grammar::specs::TokenReading::read_too_deep))]
pub fn too_deep(size: usize, rest: &[u8]) -> SyntaxFault
    requires { size < 2 ^ 32 }
    ensures pred { Fails result (read_too_deep {X = Predicate} size rest.now) }
    ensures policy { Fails result (read_too_deep {X = Policy} size rest.now) }
{
    match rest {
        [b'(', ..] => SyntaxFault::TooDeep {
            at: place(size, rest),
        },
        _ => SyntaxFault::Syntax {
            at: place(size, rest),
        },
    }
}

#[cycle(preds)]
#[tactic(auto, unfolding(net_types::specs::PolicyReading::read_prim))]
fn prim<'a>(
    arena: &'a Bump,
    depth: u32,
    size: usize,
    rest: &'a [u8],
) -> Result<(Pred<'a>, &'a [u8]), SyntaxFault>
    requires { size < 2 ^ 32 }
    ensures reads { Gives (λ x. (pred_of x.0, x.1.now)) result (read_prim (read_pred_group depth) size rest.now) }
    ensures left { IfOk result (λ x. length x.1.now < length rest.now) }
{
    match rest {
        [b't', ..] => truth(size, rest),
        [b'(', ..] => pred_group(arena, depth, size, rest),
        _ => tested(size, rest),
    }
}

#[cycle(preds)]
#[tactic(auto, unfolding(net_types::specs::PolicyReading::read_lit, net_types::specs::PolicyReading::read_not))]
fn lit<'a>(
    arena: &'a Bump,
    depth: u32,
    size: usize,
    rest: &'a [u8],
) -> Result<(Pred<'a>, &'a [u8]), SyntaxFault>
    requires { size < 2 ^ 32 }
    ensures reads { Gives (λ x. (pred_of x.0, x.1.now)) result (read_lit (read_pred_group depth) size rest.now) }
    ensures left { IfOk result (λ x. length x.1.now < length rest.now) }
{
    match rest {
        [b'!', ..] => {
            let rest = sign(size, b"!", rest)?;
            let (inner, rest) = prim(arena, depth, size, rest)?;
            Ok((Pred::Not(arena.try_alloc(inner)?), rest))
        }
        _ => prim(arena, depth, size, rest),
    }
}

// One of the signs of a conjunction.
fn and_sign(size: usize, rest: &[u8]) -> Result<&[u8], WrongOctet>
    requires { size < 2 ^ 32 }
    ensures reads { TokenGives (λ r. (tt, r.now)) result (read_either (among (codes "&")) (read_sign (codes "&")) (read_sign (codes ",")) size rest.now) }
    ensures left { IfOk result (λ r. length r.now < length rest.now) }
{
    match rest {
        [b'&', ..] => sign(size, b"&", rest),
        _ => sign(size, b",", rest),
    }
}

#[cycle(preds)]
#[tactic(auto, unfolding(net_types::specs::PolicyReading::read_and))]
fn and_lit<'a>(
    arena: &'a Bump,
    depth: u32,
    size: usize,
    rest: &'a [u8],
) -> Result<(Pred<'a>, &'a [u8]), SyntaxFault>
    requires { size < 2 ^ 32 }
    ensures reads { Gives (λ x. (pred_of x.0, x.1.now)) result (read_and (read_pred_group depth) size rest.now) }
    ensures left { IfOk result (λ x. length x.1.now < length rest.now) }
{
    let rest = and_sign(size, rest)?;
    lit(arena, depth, size, rest)
}

#[cycle(preds)]
fn ands<'a>(
    arena: &'a Bump,
    depth: u32,
    size: usize,
    first: Pred<'a>,
    rest: &'a [u8],
) -> Result<(Pred<'a>, &'a [u8]), SyntaxFault>
    requires { size < 2 ^ 32 }
    ensures reads { Gives (λ x. (pred_of x.0, x.1.now)) result (read_ands (read_pred_group depth) (pred_of first.entry) size rest.now) }
    ensures left { IfOk result (λ x. length x.1.now ≤ length rest.now) }
{
    let mut all = first;
    let mut left = rest;
    while next_is(b"&,", left) {
        let (next, after) = and_lit(arena, depth, size, left)?;
        all = Pred::And(arena.try_alloc(all)?, arena.try_alloc(next)?);
        left = after;
    }
    Ok((all, left))
}

#[cycle(preds)]
#[tactic(auto, unfolding(net_types::specs::PolicyReading::read_conj))]
fn conj<'a>(
    arena: &'a Bump,
    depth: u32,
    size: usize,
    rest: &'a [u8],
) -> Result<(Pred<'a>, &'a [u8]), SyntaxFault>
    requires { size < 2 ^ 32 }
    ensures reads { Gives (λ x. (pred_of x.0, x.1.now)) result (read_conj (read_pred_group depth) size rest.now) }
    ensures left { IfOk result (λ x. length x.1.now < length rest.now) }
{
    let (first, rest) = lit(arena, depth, size, rest)?;
    ands(arena, depth, size, first, rest)
}

#[cycle(preds)]
#[tactic(auto, unfolding(net_types::specs::PolicyReading::read_or))]
fn or_conj<'a>(
    arena: &'a Bump,
    depth: u32,
    size: usize,
    rest: &'a [u8],
) -> Result<(Pred<'a>, &'a [u8]), SyntaxFault>
    requires { size < 2 ^ 32 }
    ensures reads { Gives (λ x. (pred_of x.0, x.1.now)) result (read_or (read_pred_group depth) size rest.now) }
    ensures left { IfOk result (λ x. length x.1.now < length rest.now) }
{
    let rest = sign(size, b"|", rest)?;
    conj(arena, depth, size, rest)
}

#[cycle(preds)]
fn ors<'a>(
    arena: &'a Bump,
    depth: u32,
    size: usize,
    first: Pred<'a>,
    rest: &'a [u8],
) -> Result<(Pred<'a>, &'a [u8]), SyntaxFault>
    requires { size < 2 ^ 32 }
    ensures reads { Gives (λ x. (pred_of x.0, x.1.now)) result (read_ors (read_pred_group depth) (pred_of first.entry) size rest.now) }
    ensures left { IfOk result (λ x. length x.1.now ≤ length rest.now) }
{
    let mut all = first;
    let mut left = rest;
    while next_is(b"|", left) {
        let (next, after) = or_conj(arena, depth, size, left)?;
        all = Pred::Or(arena.try_alloc(all)?, arena.try_alloc(next)?);
        left = after;
    }
    Ok((all, left))
}

#[cycle(preds)]
#[tactic(auto, unfolding(net_types::specs::PolicyReading::read_pred))]
pub fn pred<'a>(
    arena: &'a Bump,
    depth: u32,
    size: usize,
    rest: &'a [u8],
) -> Result<(Pred<'a>, &'a [u8]), SyntaxFault>
    requires { size < 2 ^ 32 }
    ensures reads { Gives (λ x. (pred_of x.0, x.1.now)) result (read_pred (read_pred_group depth) size rest.now) }
    ensures left { IfOk result (λ x. length x.1.now < length rest.now) }
{
    let (first, rest) = conj(arena, depth, size, rest)?;
    ors(arena, depth, size, first, rest)
}

#[cycle(preds)]
#[tactic(auto, unfolding(net_types::specs::PolicyReading::read_pred_group, grammar::specs::TokenReading::read_parens))]
fn pred_group<'a>(
    arena: &'a Bump,
    depth: u32,
    size: usize,
    rest: &'a [u8],
) -> Result<(Pred<'a>, &'a [u8]), SyntaxFault>
    requires { size < 2 ^ 32 }
    ensures reads { Gives (λ x. (pred_of x.0, x.1.now)) result (read_pred_group depth size rest.now) }
    ensures left { IfOk result (λ x. length x.1.now < length rest.now) }
{
    if depth == 0 {
        return Err(too_deep(size, rest));
    }
    let rest = sign(size, b"(", rest)?;
    let (inner, rest) = pred(arena, depth - 1, size, rest)?;
    Ok((inner, sign(size, b")", rest)?))
}
