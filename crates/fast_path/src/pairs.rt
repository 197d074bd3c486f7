//! The pairs that go with tags that no prefix has any more, and those whose rules are built.

ghost use Rattle.std.specs.Prelude.{◌≡◌, ◌∷◌, ◌++◌, [], false, IfOk, OnOk, map, slice_get, unwrap_or};
ghost use Rattle.std.specs.FinMap.{get};
ghost use Rattle.std.specs.Option.{option_map_or};
ghost use Rattle.events.specs.Tags.{same_tag};
ghost use Rattle.net_types.specs.Sets.{IsRising, union_over};
ghost use Rattle.exchange_laws.specs.Listed.{is_pair_before};
ghost use Rattle.fast_path.specs.Pairs.{built_pairs, dropped_pairs, fresh_pairs, gone_pairs, is_among, pair_at, part_pairs, sender_pairs, staying, untold, was_told};

use crate::planned::Class;
use advert_queue::Adverts;
use net_types::{Items, Memory, Pair, Pairs, Part, Pid, PortNo, Tag, ascending};
use prefix_classes::ClassMap;
use registry::Registry;
use std::alloc::Global;

/// Whether the participant was told the tag. One that has no place among the adverts was told nothing.
fn was_told(adverts: &Adverts, who: Pid, tag: Tag) -> bool
    ensures { result ≡ was_told adverts.now.told who tag }
{
    if (who.0 as usize) < adverts.len() {
        adverts.tells(who, tag)
    } else {
        false
    }
}

/// Puts the pair of each of the ports with the tag last, in their order. Memory is the only refusal.
pub fn push_pairs(ports: &[PortNo], tag: Tag, pairs: &mut Vec<Pair>) -> Result<(), Memory>
    ensures { OnOk result (pairs.new.items ≡ pairs.old.items ++ map (pair_at tag) ports.now) }
{
    for &port in ports {
        pairs.push(Pair { port, tag })?;
    }
    Ok(())
}

/// Puts the tag at the ports of the parts' senders last.
fn push_senders(
    names: &Registry,
    tag: Tag,
    parts: &[Part],
    pairs: &mut Vec<Pair>,
) -> Result<(), Memory>
    ensures { OnOk result (pairs.new.items ≡ pairs.old.items ++ union_over (sender_pairs names.now tag) parts.now) }
{
    for part in parts {
        push_pairs(names.ports_of(part.sender), tag, pairs)?;
    }
    Ok(())
}

/// Puts the tag at the ports of the parts' senders, but for those that were told it.
fn push_gone(
    names: &Registry,
    adverts: &Adverts,
    tag: Tag,
    parts: &[Part],
    pairs: &mut Vec<Pair>,
) -> Result<(), Memory>
    ensures { OnOk result (pairs.new.items ≡ pairs.old.items ++ union_over (part_pairs names.now adverts.now.told tag) parts.now) }
{
    for part in parts {
        if !was_told(adverts, part.sender, tag) {
            push_pairs(names.ports_of(part.sender), tag, pairs)?;
        }
    }
    Ok(())
}

/// The parts of the signature that was kept for a tag, if any was.
fn parts_of(classes: &ClassMap, tag: Tag) -> &[Part]
    ensures { result.now ≡ unwrap_or (get classes.now.kept tag) [] }
{
    match classes.sig_of(tag) {
        Some(sig) => sig.items(),
        None => &[],
    }
}

/// Whether the tag at a place is this one.
fn stands_at(tags: &[Tag], at: usize, tag: Tag) -> bool
    ensures { result ≡ option_map_or (same_tag tag) (slice_get tags.now at) false }
{
    match tags.get(at) {
        Some(other) => tag.0 == other.0,
        None => false,
    }
}

/// The pairs that go with tags that no prefix has any more, ascending by port, and then by tag: the ports of the senders
/// in the tag's signature, but for those of senders that were told the tag. Where nobody was told it, as `dead` lists in the
/// same order, no sender is asked. Memory is the only refusal.
pub fn gone_pairs(
    alloc: Global,
    names: &Registry,
    classes: &ClassMap,
    adverts: &Adverts,
    emptied: &[Tag],
    dead: &[Tag],
) -> Result<Pairs, Memory>
    requires { dead.now ≡ untold adverts.now.told emptied.now }
    ensures { IfOk result (λ pairs. pairs ≡ gone_pairs names.now classes.now.kept adverts.now.told emptied.now) }
{
    let mut pairs = Vec::with_capacity(alloc, emptied.len())?;
    let mut at = 0;
    for &tag in emptied {
        let parts = parts_of(classes, tag);
        if stands_at(dead, at, tag) {
            push_senders(names, tag, parts, &mut pairs)?;
            at += 1;
        } else {
            push_gone(names, adverts, tag, parts, &mut pairs)?;
        }
    }
    Ok(Items::from_vec(ascending(pairs)))
}

/// The pairs of fresh tags: each at the ports of the senders in its signature.
fn fresh_pairs(alloc: Global, names: &Registry, fresh: &[Class]) -> Result<Vec<Pair>, Memory>
    ensures { IfOk result (λ pairs. pairs.items ≡ fresh_pairs names.now fresh.now) }
{
    let mut pairs = Vec::new(alloc);
    for class in fresh {
        push_senders(names, class.tag, class.sig.items(), &mut pairs)?;
    }
    Ok(pairs)
}

/// Whether a pair stands among rising ones.
pub fn is_among(pairs: &[Pair], pair: Pair) -> bool
    requires { IsRising is_pair_before pairs.now }
    ensures { result ≡ is_among pairs.now pair }
{
    pairs.binary_search(&pair).is_ok()
}

/// Puts those of the pairs last that don't go.
fn push_staying(gone: &[Pair], rebuild: &[Pair], pairs: &mut Vec<Pair>) -> Result<(), Memory>
    requires { IsRising is_pair_before gone.now }
    ensures { OnOk result (pairs.new.items ≡ pairs.old.items ++ staying gone.now rebuild.now) }
{
    for &pair in rebuild {
        if !is_among(gone, pair) {
            pairs.push(pair)?;
        }
    }
    Ok(())
}

/// The pairs whose rules are built, ascending by port, and then by tag: those of fresh tags, and those to be built anew that
/// don't go. Memory is the only refusal.
pub fn built_pairs(
    alloc: Global,
    names: &Registry,
    fresh: &[Class],
    gone: &[Pair],
    rebuild: &[Pair],
) -> Result<Pairs, Memory>
    requires { IsRising is_pair_before gone.now }
    ensures { IfOk result (λ pairs. pairs ≡ built_pairs names.now fresh.now gone.now rebuild.now) }
{
    let mut pairs = fresh_pairs(alloc, names, fresh)?;
    push_staying(gone, rebuild, &mut pairs)?;
    Ok(Items::from_vec(ascending(pairs)))
}

/// The pairs whose rules are taken out, ascending by port, and then by tag: those that go, and those to be built anew.
/// Memory is the only refusal.
pub fn dropped_pairs(alloc: Global, gone: &[Pair], rebuild: &[Pair]) -> Result<Pairs, Memory>
    ensures { IfOk result (λ pairs. pairs ≡ dropped_pairs gone.now rebuild.now) }
{
    if gone.is_empty() && rebuild.is_empty() {
        return Ok(Items::new(alloc));
    }
    let mut pairs = Vec::from_slice(alloc, gone)?;
    pairs.extend_from_slice(rebuild)?;
    Ok(Items::from_vec(ascending(pairs)))
}

/// Those of the tags that nobody was told, in their order. Memory is the only refusal.
pub fn untold(alloc: Global, adverts: &Adverts, tags: &[Tag]) -> Result<Vec<Tag>, Memory>
    ensures { IfOk result (λ dead. dead.items ≡ untold adverts.now.told tags.now) }
{
    let mut dead = Vec::with_capacity(alloc, tags.len())?;
    for &tag in tags {
        if !adverts.is_told(tag) {
            dead.push(tag)?;
        }
    }
    Ok(dead)
}
