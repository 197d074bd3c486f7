//! The class map, and groupings of its tags.

ghost use Rattle.std.specs.Prelude.{◌≡◌, IfOk};
ghost use Rattle.prefix_classes.specs.Merging.{IsFull};

use crate::counter::Counter;
use crate::signatures::{push_signature, signature};
use crate::words::{first_number, number, prefix, push_prefix, push_tag};
use crate::wrong::Wrong;
use net_types::{Ip, Memory, Prefix, Prefixes, Sig, Tag};
use prefix_classes::{ClassMap, Grouping, Moves, new_ones_are_few};
use std::alloc::Global;
use std::sync::ledger::Ledger;

/// Room for so many new prefixes, and for each tag below a number.
pub fn reserve(alloc: Global, classes: &mut ClassMap, text: &str) -> Result<String, Wrong> {
    let (prefixes, rest) = first_number(text)?;
    classes.reserve(prefixes as usize, number(rest)? as usize)?;
    Ok(String::from_str(alloc, "ok")?)
}

/// Keeps a tag that isn't kept, and gives it to these prefixes.
fn give_tag(
    classes: &mut ClassMap,
    tag: Tag,
    signature: Sig,
    members: &[Prefix],
) -> Result<(), Wrong> {
    if classes.sig_of(tag).is_some() {
        return Err(Wrong::Row);
    }
    classes.reserve(members.len(), tag.0 as usize + 1)?;
    new_ones_are_few();
    classes.give(tag, signature, members);
    Ok(())
}

/// A tag, its signature and its prefixes; told is how many members it has then.
pub fn give(alloc: Global, classes: &mut ClassMap, text: &str) -> Result<String, Wrong> {
    let (tag, rest) = first_number(text)?;
    let mut words = rest.split(' ');
    let signature = signature(alloc, words.next().unwrap_or(""))?;
    let mut members = Prefixes::new(alloc);
    for word in words {
        members.push(prefix(word)?)?;
    }
    give_tag(classes, Tag(tag), signature, members.items())?;
    size(alloc, classes)
}

/// So many tags from 1 on, with one signature and a prefix of 24 bits each.
pub fn fill(alloc: Global, classes: &mut ClassMap, text: &str) -> Result<String, Wrong> {
    for tag in 0..number(text)?.min(65536) {
        let Ok(member) = Prefix::new(Ip(0x0A000000 + tag * 256), 24) else {
            return Err(Wrong::Row);
        };
        give_tag(classes, Tag(tag + 1), signature(alloc, "B2")?, &[member])?;
    }
    size(alloc, classes)
}

/// How many prefixes have tags, and how many tags are kept.
pub fn size(alloc: Global, classes: &ClassMap) -> Result<String, Wrong> {
    let (carried, tagged) = (classes.carried(), classes.tagged());
    Ok(format!(in alloc; "{carried} prefixes, {tagged} tags")?)
}

/// The tag of a prefix.
pub fn tag_of(alloc: Global, classes: &ClassMap, text: &str) -> Result<String, Wrong> {
    let mut told = String::new(alloc);
    push_tag(&mut told, classes.tag_of(prefix(text)?))?;
    Ok(told)
}

/// How many members a tag has, and with which signature it is kept.
pub fn members(alloc: Global, classes: &ClassMap, text: &str) -> Result<String, Wrong> {
    let tag = Tag(number(text)?);
    let count = classes.members(tag);
    let mut told = format!(in alloc; "{count}, ")?;
    match classes.sig_of(tag) {
        Some(signature) => push_signature(&mut told, signature)?,
        None => told.push_str("not kept")?,
    }
    Ok(told)
}

/// The least tag with members behind another one, or of all.
pub fn next(alloc: Global, classes: &ClassMap, text: &str) -> Result<String, Wrong> {
    let after = if text.is_empty() {
        None
    } else {
        Some(Tag(number(text)?))
    };
    let mut told = String::new(alloc);
    push_tag(&mut told, classes.next_tag(after))?;
    Ok(told)
}

/// A prefix loses its tag.
pub fn leave(alloc: Global, classes: &mut ClassMap, text: &str) -> Result<String, Wrong> {
    classes.drop_prefix(prefix(text)?);
    size(alloc, classes)
}

/// A tag without members is forgotten.
pub fn forget(alloc: Global, classes: &mut ClassMap, text: &str) -> Result<String, Wrong> {
    let tag = Tag(number(text)?);
    if classes.members(tag) > 0 {
        return Err(Wrong::Row);
    }
    classes.forget(tag);
    size(alloc, classes)
}

/// Places a tag with members; told is what the counter was and is.
pub fn place<L: Ledger>(
    alloc: Global,
    classes: &ClassMap,
    grouping: &mut Grouping,
    counter: &mut Counter<L>,
    text: &str,
) -> Result<String, Wrong> {
    let tag = Tag(number(text)?);
    if classes.members(tag) == 0 {
        return Err(Wrong::Row);
    }
    let before = counter.count();
    counter.place(grouping, classes, tag)?;
    let (after, placed) = (counter.count(), grouping.len());
    Ok(format!(in alloc; "{placed} placed, steps {before} to {after}")?)
}

/// Takes a tag out.
pub fn take_out(alloc: Global, grouping: &mut Grouping, text: &str) -> Result<String, Wrong> {
    grouping.take_out(Tag(number(text)?));
    let placed = grouping.len();
    Ok(format!(in alloc; "{placed} placed")?)
}

/// All tags with members, placed.
fn place_all<L: Ledger>(
    alloc: Global,
    classes: &ClassMap,
    counter: &mut Counter<L>,
) -> Result<Grouping, Wrong>
    ensures { IfOk result (IsFull classes.now.tag classes.now.kept) }
{
    let mut grouping = Grouping::new(alloc);
    let mut last = None;
    while let Some(tag) = classes.next_tag(last) {
        counter.place(&mut grouping, classes, tag)?;
        last = Some(tag);
    }
    Ok(grouping)
}

/// Puts how many prefixes move behind a text, and where the first and the last one move.
fn push_moves(text: &mut String, moves: &Moves) -> Result<(), Memory> {
    let moves = moves.list();
    let count = moves.len();
    write!(text, "{count} move")?;
    for ends in [moves.first(), moves.last()] {
        if let Some((prefix, Tag(tag))) = ends {
            text.push_str("; ")?;
            push_prefix(text, *prefix)?;
            write!(text, " to {tag}")?;
        }
    }
    Ok(())
}

/// Places all tags with members, and moves the prefixes to the least tags of their signatures.
pub fn merge<L: Ledger>(
    alloc: Global,
    classes: &mut ClassMap,
    counter: &mut Counter<L>,
) -> Result<String, Wrong> {
    let before = counter.count();
    let grouping = place_all(alloc, classes, counter)?;
    let (after, placed) = (counter.count(), grouping.len());
    let mut told = format!(in alloc; "{placed} placed, steps {before} to {after}; ")?;
    let moves = classes.merge_plan(&grouping)?;
    push_moves(&mut told, &moves)?;
    classes.merge(moves);
    Ok(told)
}
