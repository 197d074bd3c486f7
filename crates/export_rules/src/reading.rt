//! Reading rules from a text. Each function is given the length of the whole text and what is left of it.

ghost use Rattle.std.specs.Prelude.{◌≡◌, ◌<◌, ◌≤◌, ◌^◌, ◌∷◌, [], length, IfOk, OnOk};
ghost use Rattle.net_types.specs.ExportReading.{read_verdict, read_receiver, read_reach, read_about, read_rule, read_more_rule, read_more_rules, read_rules};
ghost use Rattle.export_rules.specs.Answers.{Gives};
ghost use Rattle.export_rules.specs.Views.{receiver_of, rule_of};
ghost use Rattle.net_types.specs.ExportTexts.{put_last};
ghost use Rattle.text_fields.specs.Answers.{Gives as TokenGives};

use crate::fault::RulesFault;
use net_types::{Items, Memory, NamedRule, Prefix, Which};
use std::alloc::Global;
use text_fields::{WrongOctet, gap, name, next_is, prefix, sign, spaces, word};

/// A rule whose name is a slice of the text.
#[derive(Clone, Copy)]
pub struct Written<'a> {
    allow: bool,
    who: Option<&'a str>,
    which: Which,
}

#[tactic(auto, unfolding(net_types::specs::ExportReading::read_verdict))]
fn verdict(size: usize, rest: &[u8]) -> Result<(bool, &[u8]), WrongOctet>
    requires { size < 2 ^ 32 }
    ensures reads { TokenGives (λ x. (x.0, x.1.now)) result (read_verdict size rest.now) }
    ensures left { IfOk result (λ x. length x.1.now < length rest.now) }
{
    match rest {
        [b'a', ..] => Ok((true, word(size, b"allow", rest)?)),
        _ => Ok((false, word(size, b"deny", rest)?)),
    }
}

#[tactic(auto, unfolding(net_types::specs::ExportReading::read_receiver))]
fn receiver(size: usize, rest: &[u8]) -> Result<(Option<&str>, &[u8]), WrongOctet>
    requires { size < 2 ^ 32 }
    ensures reads { TokenGives (λ x. (receiver_of x.0, x.1.now)) result (read_receiver size rest.now) }
    ensures left { IfOk result (λ x. length x.1.now < length rest.now) }
{
    match rest {
        [b'*', ..] => Ok((None, word(size, b"*", rest)?)),
        _ => {
            let (name, rest) = name(size, rest)?;
            Ok((Some(name), rest))
        }
    }
}

#[tactic(auto, unfolding(net_types::specs::ExportReading::read_reach))]
fn reach(size: usize, prefix: Prefix, rest: &[u8]) -> Result<(Which, &[u8]), WrongOctet>
    requires { size < 2 ^ 32 }
    ensures reads { TokenGives (λ x. (x.0, x.1.now)) result (read_reach prefix size rest.now) }
    ensures left { IfOk result (λ x. length x.1.now ≤ length rest.now) }
{
    match rest {
        [b'+', ..] => Ok((Which::Within(prefix), word(size, b"+", rest)?)),
        _ => Ok((Which::Exactly(prefix), rest)),
    }
}

#[tactic(auto, unfolding(net_types::specs::ExportReading::read_about))]
fn about(size: usize, rest: &[u8]) -> Result<(Which, &[u8]), WrongOctet>
    requires { size < 2 ^ 32 }
    ensures reads { TokenGives (λ x. (x.0, x.1.now)) result (read_about size rest.now) }
    ensures left { IfOk result (λ x. length x.1.now < length rest.now) }
{
    match rest {
        [b'*', ..] => Ok((Which::Every, word(size, b"*", rest)?)),
        _ => {
            let (prefix, rest) = prefix(size, rest)?;
            reach(size, prefix, rest)
        }
    }
}

// A rule and the spaces behind it.
#[tactic(auto, unfolding(net_types::specs::ExportReading::read_rule))]
fn rule(size: usize, rest: &[u8]) -> Result<(Written<'_>, &[u8]), WrongOctet>
    requires { size < 2 ^ 32 }
    ensures reads { TokenGives (λ x. (rule_of x.0, x.1.now)) result (read_rule size rest.now) }
    ensures left { IfOk result (λ x. length x.1.now < length rest.now) }
{
    let (allow, rest) = verdict(size, rest)?;
    let (who, rest) = receiver(size, gap(size, rest)?)?;
    let (which, rest) = about(size, gap(size, rest)?)?;
    Ok((Written { allow, who, which }, spaces(rest)))
}

#[tactic(auto, unfolding(net_types::specs::ExportReading::read_more_rule))]
fn more_rule(size: usize, rest: &[u8]) -> Result<(Written<'_>, &[u8]), WrongOctet>
    requires { size < 2 ^ 32 }
    ensures reads { TokenGives (λ x. (rule_of x.0, x.1.now)) result (read_more_rule size rest.now) }
    ensures left { IfOk result (λ x. length x.1.now < length rest.now) }
{
    rule(size, sign(size, b";", rest)?)
}

// Puts a rule last, with a name of its own.
fn put_last(all: &mut Vec<NamedRule>, rule: Written<'_>) -> Result<(), Memory>
    ensures { OnOk result (all.new.items ≡ put_last all.old.items (rule_of rule.entry)) }
{
    let alloc = *all.allocator();
    let who = match rule.who {
        None => None,
        Some(name) => Some(Items::from_vec(Vec::from_slice(alloc, name.as_bytes())?)),
    };
    all.push(NamedRule {
        allow: rule.allow,
        who,
        which: rule.which,
    })?;
    Ok(())
}

// The rules behind those so far.
fn more_rules(
    size: usize,
    first: Vec<NamedRule>,
    rest: &[u8],
) -> Result<(Vec<NamedRule>, &[u8]), RulesFault>
    requires { size < 2 ^ 32 }
    ensures reads { Gives (λ x. (x.0.items, x.1.now)) result (read_more_rules first.items size rest.now) }
{
    let mut all = first;
    let mut left = rest;
    while next_is(b";", left) {
        let (next, after) = more_rule(size, left)?;
        put_last(&mut all, next)?;
        left = after;
    }
    Ok((all, left))
}

/// The rules of a text, and what is left behind them.
#[tactic(auto, unfolding(net_types::specs::ExportReading::read_rules))]
pub fn rules(alloc: Global, size: usize, rest: &[u8]) -> Result<(Vec<NamedRule>, &[u8]), RulesFault>
    requires { size < 2 ^ 32 }
    ensures { Gives (λ x. (x.0.items, x.1.now)) result (read_rules size rest.now) }
{
    let (first, rest) = rule(size, spaces(rest))?;
    let mut all = Vec::new(alloc);
    put_last(&mut all, first)?;
    more_rules(size, all, rest)
}
