//! Targets and fields.

ghost use Rattle.std.specs.Prelude.{◌≡◌, ◌<◌, ◌≤◌, ◌^◌, length, codes, IfOk};
ghost use Rattle.grammar.specs.TokenReading.{read_number, read_address};
ghost use Rattle.net_types.specs.PolicyGrammar.{inport_is, SrcIs, DstIs, SportIs, DportIs};
ghost use Rattle.net_types.specs.PolicyReading.{read_target, read_lead, read_field, read_end, read_test, read_assign, read_assign_spaces, read_set, read_sets};
ghost use Rattle.net_types.specs.Policies.{Proto, Src, Sport, Dst, Dport};
ghost use Rattle.net_types.specs.PrefixReading.{read_prefix};
ghost use Rattle.text_fields.specs.Answers.{Gives};
ghost use Rattle.policy_syntax.specs.Views.{target_of, test_of, field_of};

use crate::tree::{Field, Target, Test};
use net_types::{Assign, Ip, PortNo};
use text_fields::{
    WrongOctet, address, is_letter, name, next_is, number, prefix, sign, spaces, word,
};

pub fn port(size: usize, low: u32, high: u32, rest: &[u8]) -> Result<(u16, &[u8]), WrongOctet>
    requires size { size < 2 ^ 32 }
    requires nine { 9 ≤ high }
    requires high { high < 2 ^ 16 }
    ensures reads { Gives (λ x. (x.0, x.1.now)) result (read_number low high size rest.now) }
    ensures within { IfOk result (λ x. x.0 ≤ high) }
    ensures left { IfOk result (λ x. length x.1.now < length rest.now) }
{
    let (value, after) = number(size, low, high, rest)?;
    Ok((value as u16, after))
}

#[tactic(auto, unfolding(net_types::specs::PolicyReading::read_target))]
pub fn target(size: usize, rest: &[u8]) -> Result<(Target<'_>, &[u8]), WrongOctet>
    requires { size < 2 ^ 32 }
    ensures reads { Gives (λ x. (target_of x.0, x.1.now)) result (read_target size rest.now) }
    ensures left { IfOk result (λ x. length x.1.now < length rest.now) }
{
    match rest {
        [first, ..] if is_letter(*first) => {
            let (name, after) = name(size, rest)?;
            Ok((Target::Name(name), after))
        }
        _ => {
            let (value, after) = port(size, 1, 65279, rest)?;
            Ok((Target::Number(PortNo(value)), after))
        }
    }
}

/// A field's name and the sign behind it.
#[tactic(auto, unfolding(net_types::specs::PolicyReading::read_lead))]
pub fn lead<'a>(size: usize, name: &[u8], rest: &'a [u8]) -> Result<&'a [u8], WrongOctet>
    requires { size < 2 ^ 32 }
    ensures reads { Gives (λ r. (tt, r.now)) result (read_lead name.now size rest.now) }
    ensures left { IfOk result (λ r. length r.now ≤ length rest.now) }
{
    let rest = word(size, name, rest)?;
    sign(size, b"=", spaces(rest))
}

#[tactic(auto, unfolding(net_types::specs::PolicyReading::read_field, net_types::specs::PolicyReading::read_end))]
fn src_test(size: usize, rest: &[u8]) -> Result<(Test, &[u8]), WrongOctet>
    requires { size < 2 ^ 32 }
    ensures reads { Gives (λ x. (test_of x.0, x.1.now)) result (read_end (codes "src") read_prefix Src Sport size rest.now) }
    ensures left { IfOk result (λ x. length x.1.now < length rest.now) }
{
    let rest = word(size, b"src", rest)?;
    match rest {
        [b'i', ..] => {
            let (ip, rest) = prefix(size, lead(size, b"ip", rest)?)?;
            Ok((Test::Src(ip), rest))
        }
        _ => {
            let (number, rest) = port(size, 0, 65535, lead(size, b"port", rest)?)?;
            Ok((Test::Sport(number), rest))
        }
    }
}

#[tactic(auto, unfolding(net_types::specs::PolicyReading::read_field, net_types::specs::PolicyReading::read_end))]
fn dst_test(size: usize, rest: &[u8]) -> Result<(Test, &[u8]), WrongOctet>
    requires { size < 2 ^ 32 }
    ensures reads { Gives (λ x. (test_of x.0, x.1.now)) result (read_end (codes "dst") read_prefix Dst Dport size rest.now) }
    ensures left { IfOk result (λ x. length x.1.now < length rest.now) }
{
    let rest = word(size, b"dst", rest)?;
    match rest {
        [b'i', ..] => {
            let (ip, rest) = prefix(size, lead(size, b"ip", rest)?)?;
            Ok((Test::Dst(ip), rest))
        }
        _ => {
            let (number, rest) = port(size, 0, 65535, lead(size, b"port", rest)?)?;
            Ok((Test::Dport(number), rest))
        }
    }
}

#[tactic(auto, unfolding(net_types::specs::PolicyReading::read_field, net_types::specs::PolicyReading::read_end))]
fn src_field(size: usize, rest: &[u8]) -> Result<(Field, &[u8]), WrongOctet>
    requires { size < 2 ^ 32 }
    ensures reads { Gives (λ x. (field_of x.0, x.1.now)) result (read_end (codes "src") read_address SrcIs SportIs size rest.now) }
    ensures left { IfOk result (λ x. length x.1.now < length rest.now) }
{
    let rest = word(size, b"src", rest)?;
    match rest {
        [b'i', ..] => {
            let (ip, rest) = address(size, lead(size, b"ip", rest)?)?;
            Ok((Field::Src(Ip(ip)), rest))
        }
        _ => {
            let (number, rest) = port(size, 0, 65535, lead(size, b"port", rest)?)?;
            Ok((Field::Sport(number), rest))
        }
    }
}

#[tactic(auto, unfolding(net_types::specs::PolicyReading::read_field, net_types::specs::PolicyReading::read_end))]
fn dst_field(size: usize, rest: &[u8]) -> Result<(Field, &[u8]), WrongOctet>
    requires { size < 2 ^ 32 }
    ensures reads { Gives (λ x. (field_of x.0, x.1.now)) result (read_end (codes "dst") read_address DstIs DportIs size rest.now) }
    ensures left { IfOk result (λ x. length x.1.now < length rest.now) }
{
    let rest = word(size, b"dst", rest)?;
    match rest {
        [b'i', ..] => {
            let (ip, rest) = address(size, lead(size, b"ip", rest)?)?;
            Ok((Field::Dst(Ip(ip)), rest))
        }
        _ => {
            let (number, rest) = port(size, 0, 65535, lead(size, b"port", rest)?)?;
            Ok((Field::Dport(number), rest))
        }
    }
}

#[tactic(auto, unfolding(net_types::specs::PolicyReading::read_field))]
fn inport(size: usize, rest: &[u8]) -> Result<(Test, &[u8]), WrongOctet>
    requires { size < 2 ^ 32 }
    ensures reads { Gives (λ x. (test_of x.0, x.1.now)) result (read_field (codes "inport") (read_number 1 65279) inport_is size rest.now) }
    ensures left { IfOk result (λ x. length x.1.now < length rest.now) }
{
    let (number, rest) = port(size, 1, 65279, lead(size, b"inport", rest)?)?;
    Ok((Test::Inport(PortNo(number)), rest))
}

#[tactic(auto, unfolding(net_types::specs::PolicyReading::read_field))]
fn protocol(size: usize, rest: &[u8]) -> Result<(Test, &[u8]), WrongOctet>
    requires { size < 2 ^ 32 }
    ensures reads { Gives (λ x. (test_of x.0, x.1.now)) result (read_field (codes "proto") (read_number 0 255) Proto size rest.now) }
    ensures left { IfOk result (λ x. length x.1.now < length rest.now) }
{
    let (number, rest) = number(size, 0, 255, lead(size, b"proto", rest)?)?;
    Ok((Test::Proto(number as u8), rest))
}

#[tactic(auto, unfolding(net_types::specs::PolicyReading::read_test))]
pub fn test(size: usize, rest: &[u8]) -> Result<(Test, &[u8]), WrongOctet>
    requires { size < 2 ^ 32 }
    ensures reads { Gives (λ x. (test_of x.0, x.1.now)) result (read_test size rest.now) }
    ensures left { IfOk result (λ x. length x.1.now < length rest.now) }
{
    match rest {
        [b'i', ..] => inport(size, rest),
        [b'p', ..] => protocol(size, rest),
        [b's', ..] => src_test(size, rest),
        _ => dst_test(size, rest),
    }
}

#[tactic(auto, unfolding(net_types::specs::PolicyReading::read_assign))]
fn assign(size: usize, rest: &[u8]) -> Result<(Field, &[u8]), WrongOctet>
    requires { size < 2 ^ 32 }
    ensures reads { Gives (λ x. (field_of x.0, x.1.now)) result (read_assign size rest.now) }
    ensures left { IfOk result (λ x. length x.1.now < length rest.now) }
{
    match rest {
        [b's', ..] => src_field(size, rest),
        _ => dst_field(size, rest),
    }
}

/// An assignment and the spaces behind it.
#[tactic(auto, unfolding(net_types::specs::PolicyReading::read_assign_spaces))]
pub fn assigned(size: usize, rest: &[u8]) -> Result<(Field, &[u8]), WrongOctet>
    requires { size < 2 ^ 32 }
    ensures reads { Gives (λ x. (field_of x.0, x.1.now)) result (read_assign_spaces size rest.now) }
    ensures left { IfOk result (λ x. length x.1.now < length rest.now) }
{
    let (field, rest) = assign(size, rest)?;
    Ok((field, spaces(rest)))
}

// A further assignment.
#[tactic(auto, unfolding(net_types::specs::PolicyReading::read_set))]
fn more_assigned(size: usize, rest: &[u8]) -> Result<(Field, &[u8]), WrongOctet>
    requires { size < 2 ^ 32 }
    ensures reads { Gives (λ x. (field_of x.0, x.1.now)) result (read_set size rest.now) }
    ensures left { IfOk result (λ x. length x.1.now < length rest.now) }
{
    assigned(size, sign(size, b",", rest)?)
}

/// The assignments behind the first one.
pub fn all_assigned(size: usize, first: Assign, rest: &[u8]) -> Result<(Assign, &[u8]), WrongOctet>
    requires { size < 2 ^ 32 }
    ensures reads { Gives (λ x. (x.0, x.1.now)) result (read_sets first size rest.now) }
    ensures left { IfOk result (λ x. length x.1.now ≤ length rest.now) }
{
    let mut all = first;
    let mut left = rest;
    while next_is(b",", left) {
        let (field, after) = more_assigned(size, left)?;
        all = field.added_to(all);
        left = after;
    }
    Ok((all, left))
}
