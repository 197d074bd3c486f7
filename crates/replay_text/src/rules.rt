//! Writing addresses, prefixes and rules.
ghost use Rattle.std.specs.Prelude.{◌≡◌, ◌++◌, [], OnOk, IfOk, codes, map};
ghost use Rattle.std.specs.Fmt.{decimal};
ghost use Rattle.events.specs.Text.{address_text, prefix_text, number_field, prefix_field, cube_text, action_text, or_none, rule_text};
ghost use Rattle.replay_text.specs.Fields.{cube_fields, led, more_text, next_lead};

use super::front::Front;
use itoa::Buffer;
use net_types::{Action, Cube, Ip, Memory, Prefix, Rule, same_items};

/// So many actions are written anew at once, which is no more work than to look whether they are those of the last rule.
const FEW: usize = 8;

/// So many octets an action and its sign usually take, so the text of a list seldom moves while it is written.
const ROOM: usize = 24;

/// The last list of many actions, and how it is written: rules often have the same list.
#[derive(Drop)]
pub struct LastActions<'a> {
    actions: &'a [Action],
    text: Vec<u8>,
    ghost is: { text.items ≡ or_none (map action_text actions.now) },
}

/// Writes a number in decimal digits.
pub fn push_number(text: &mut Vec<u8>, number: u64) -> Result<(), Memory>
    ensures { OnOk result (text.new.items ≡ text.old.items ++ decimal number) }
{
    let mut digits = Buffer::new();
    text.extend_from_slice(digits.format(number).as_bytes())?;
    Ok(())
}

pub fn push_address(text: &mut Vec<u8>, ip: Ip) -> Result<(), Memory>
    ensures { OnOk result (text.new.items ≡ text.old.items ++ address_text ip) }
{
    let mut front = Front::new();
    front.address(ip);
    text.extend_from_slice(front.text())?;
    Ok(())
}

pub fn push_prefix(text: &mut Vec<u8>, prefix: Prefix) -> Result<(), Memory>
    ensures { OnOk result (text.new.items ≡ text.old.items ++ prefix_text prefix) }
{
    let mut front = Front::new();
    front.prefix(prefix);
    text.extend_from_slice(front.text())?;
    Ok(())
}

/// Writes what leads a field, its name and the sign before its value.
fn push_name(text: &mut Vec<u8>, lead: &str, name: &str) -> Result<(), Memory>
    ensures { OnOk result (text.new.items ≡ text.old.items ++ (lead.now ++ (name.now ++ codes "="))) }
{
    text.extend_from_slice(lead.as_bytes())?;
    text.extend_from_slice(name.as_bytes())?;
    text.push(b'=')?;
    Ok(())
}

/// Writes a prefix with its name, where it isn't any; gives what leads the next field.
fn push_prefix_field(
    text: &mut Vec<u8>,
    lead: &'static str,
    name: &str,
    prefix: Prefix,
) -> Result<&'static str, Memory>
    ensures written { OnOk result (text.new.items ≡ text.old.items ++ led lead.now (prefix_field name.now prefix)) }
    ensures next { IfOk result (λ next. next.now ≡ next_lead lead.now (prefix_field name.now prefix)) }
{
    if prefix.len == 0 {
        return Ok(lead);
    }
    push_name(text, lead, name)?;
    push_prefix(text, prefix)?;
    Ok(",")
}

/// Writes a number with its name, where there is one; gives what leads the next field.
fn push_number_field(
    text: &mut Vec<u8>,
    lead: &'static str,
    name: &str,
    number: Option<u16>,
) -> Result<&'static str, Memory>
    ensures written { OnOk result (text.new.items ≡ text.old.items ++ led lead.now (number_field name.now number)) }
    ensures next { IfOk result (λ next. next.now ≡ next_lead lead.now (number_field name.now number)) }
{
    match number {
        Some(number) => {
            push_name(text, lead, name)?;
            push_number(text, u64::from(number))?;
            Ok(",")
        }
        None => Ok(lead),
    }
}

fn widened(number: Option<u8>) -> Option<u16>
    ensures { result ≡ number }
{
    Some(u16::from(number?))
}

/// Writes the fields that aren't any; gives what would lead another one.
#[tactic(auto, using(crate::proofs::LedFields::led_rules))]
fn push_cube_fields(text: &mut Vec<u8>, cube: &Cube) -> Result<&'static str, Memory>
    ensures written { OnOk result (text.new.items ≡ text.old.items ++ led [] (cube_fields cube.now)) }
    ensures next { IfOk result (λ next. next.now ≡ next_lead [] (cube_fields cube.now)) }
{
    let lead = push_prefix_field(text, "", "srcip", cube.src)?;
    let lead = push_prefix_field(text, lead, "dstip", cube.dst)?;
    let lead = push_number_field(text, lead, "proto", widened(cube.proto))?;
    let lead = push_number_field(text, lead, "srcport", cube.sport)?;
    let lead = push_number_field(text, lead, "dstport", cube.dport)?;
    Ok(lead)
}

#[tactic(auto, using(crate::proofs::LedFields::star_rules))]
fn push_cube(text: &mut Vec<u8>, cube: &Cube) -> Result<(), Memory>
    ensures { OnOk result (text.new.items ≡ text.old.items ++ cube_text cube.now) }
{
    let lead = push_cube_fields(text, cube)?;
    if lead.is_empty() {
        text.push(b'*')?;
    }
    Ok(())
}

/// Writes the actions behind the first; the front is room to write one in.
fn push_more_actions(
    text: &mut Vec<u8>,
    front: &mut Front,
    actions: &[Action],
) -> Result<(), Memory>
    ensures { OnOk result (text.new.items ≡ text.old.items ++ more_text actions.now) }
{
    for action in actions {
        front.clear();
        front.action(*action);
        front.word(b" + ");
        text.extend_from_slice(front.text())?;
    }
    Ok(())
}

#[tactic(auto, using(crate::proofs::LedFields::action_rules))]
fn push_actions(text: &mut Vec<u8>, actions: &[Action]) -> Result<(), Memory>
    ensures { OnOk result (text.new.items ≡ text.old.items ++ or_none (map action_text actions.now)) }
{
    match actions {
        [] => {
            text.extend_from_slice(b"none")?;
            Ok(())
        }
        [first, others @ ..] => {
            let mut front = Front::new();
            front.action(*first);
            text.extend_from_slice(front.text())?;
            push_more_actions(text, &mut front, others)?;
            Ok(())
        }
    }
}

/// Writes actions; many that were written last are copied.
fn push_listed<'a>(
    text: &mut Vec<u8>,
    actions: &'a [Action],
    last: &mut Option<LastActions<'a>>,
) -> Result<(), Memory>
    ensures { OnOk result (text.new.items ≡ text.old.items ++ or_none (map action_text actions.now)) }
{
    if actions.len() <= FEW {
        return push_actions(text, actions);
    }
    if let Some(last) = last {
        if same_items(last.actions, actions) {
            text.extend_from_slice(last.text.as_slice())?;
            return Ok(());
        }
    }
    let mut written = Vec::with_capacity(*text.allocator(), actions.len().saturating_mul(ROOM))?;
    push_actions(&mut written, actions)?;
    text.extend_from_slice(written.as_slice())?;
    *last = Some(LastActions {
        actions,
        text: written,
    });
    Ok(())
}

/// Writes what a rule matches and what it does.
pub fn push_rule<'a>(
    text: &mut Vec<u8>,
    rule: &'a Rule,
    last: &mut Option<LastActions<'a>>,
) -> Result<(), Memory>
    ensures { OnOk result (text.new.items ≡ text.old.items ++ rule_text rule.now) }
{
    push_cube(text, &rule.cube)?;
    text.extend_from_slice(b" -> ")?;
    push_listed(text, rule.actions.items(), last)
}
