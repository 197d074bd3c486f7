//! What a plan says, as text.

use fast_path::Plan;
use match_switch::Switch;
use net_types::{Memory, Pair, Prefix, Rule, Tag};
use std::alloc::Global;

/// Puts a prefix behind a text, as `10.0.0.0/8`.
fn push_prefix(text: &mut String, prefix: Prefix) -> Result<(), Memory> {
    let [a, b, c, d] = prefix.address.0.to_be_bytes();
    let len = prefix.len;
    write!(text, "{a}.{b}.{c}.{d}/{len}")?;
    Ok(())
}

/// Puts a pair behind a text, as `PORT:TAG`.
fn push_pair(text: &mut String, pair: Pair) -> Result<(), Memory> {
    let (port, tag) = (pair.port.0, pair.tag.0);
    write!(text, " {port}:{tag}")?;
    Ok(())
}

/// Puts the fresh tags behind a text, each with how many prefixes get it.
fn push_fresh(text: &mut String, plan: &Plan) -> Result<(), Memory> {
    text.push_str("fresh")?;
    for class in plan.fresh() {
        let (tag, members) = (class.tag.0, class.members.items().len());
        write!(text, " {tag} of {members}")?;
    }
    Ok(())
}

/// Puts the tags that lose their last prefix behind a text.
fn push_emptied(text: &mut String, plan: &Plan) -> Result<(), Memory> {
    text.push_str("; emptied")?;
    for Tag(tag) in plan.emptied() {
        write!(text, " {tag}")?;
    }
    Ok(())
}

/// Puts the prefixes whose tag becomes another behind a text, each with that tag.
fn push_tags(text: &mut String, plan: &Plan) -> Result<(), Memory> {
    text.push_str("; tags")?;
    for change in plan.tags() {
        text.push_str(" ")?;
        push_prefix(text, change.prefix)?;
        match change.tag {
            Some(Tag(tag)) => write!(text, " {tag}")?,
            None => text.push_str(" none")?,
        }
    }
    Ok(())
}

/// Puts the pairs whose rules are taken out behind a text.
fn push_dropped(text: &mut String, plan: &Plan) -> Result<(), Memory> {
    text.push_str("; drop")?;
    for pair in plan.dropped() {
        push_pair(text, *pair)?;
    }
    Ok(())
}

/// Puts the ports to which rules send behind a text.
fn push_rules(text: &mut String, rules: &[Rule]) -> Result<(), Memory> {
    text.push_str(" ->")?;
    for rule in rules {
        for action in rule.actions.items() {
            let port = action.port.0;
            write!(text, " {port}")?;
        }
    }
    Ok(())
}

/// Puts the ports to which the rules at a place of the plan send behind a text.
fn push_block(text: &mut String, plan: &Plan, at: usize) -> Result<(), Memory> {
    if at >= plan.pair_count() {
        return Ok(());
    }
    push_rules(text, plan.block(at).rules())
}

/// Puts the pairs whose rules are put in behind a text, each with the ports to which its rules send.
fn push_added(text: &mut String, plan: &Plan) -> Result<(), Memory> {
    text.push_str("; add")?;
    for (at, pair) in plan.added().iter().enumerate() {
        push_pair(text, *pair)?;
        push_block(text, plan, at)?;
    }
    Ok(())
}

/// What a plan says: the fresh and the emptied tags, the prefixes whose tag becomes another, the pairs whose rules are taken
/// out and put in, and how many prefixes become carried.
pub fn told(alloc: Global, plan: &Plan) -> Result<String, Memory> {
    let mut text = String::new(alloc);
    push_fresh(&mut text, plan)?;
    push_emptied(&mut text, plan)?;
    push_tags(&mut text, plan)?;
    push_dropped(&mut text, plan)?;
    push_added(&mut text, plan)?;
    let newly = plan.newly();
    write!(text, "; {newly} newly")?;
    Ok(text)
}

/// What a participant took: the tags that it was told.
pub fn taken(alloc: Global, tags: &[Tag]) -> Result<String, Memory> {
    let mut text = String::from_str(alloc, "told")?;
    for Tag(tag) in tags {
        write!(text, " {tag}")?;
    }
    Ok(text)
}

/// What a table says: its pairs, each with the ports to which its rules send, and how many rules there are.
pub fn installed(alloc: Global, switch: &Switch) -> Result<String, Memory> {
    let mut text = String::from_str(alloc, "table")?;
    for (pair, rules) in switch.iter() {
        push_pair(&mut text, pair)?;
        push_rules(&mut text, rules)?;
    }
    let count = switch.rules();
    write!(text, "; {count} rules")?;
    Ok(text)
}
