//! The tags of prefixes and the signatures of tags, as a line finds them.

ghost use Rattle.std.specs.Prelude.{◌≡◌, false, List, Some, IfOk, filter, map, nat_eq, option_copied, slice_get};
ghost use Rattle.std.specs.Cmp.Lexicographic.{pointwise};
ghost use Rattle.std.specs.FinMap.{get};
ghost use Rattle.std.specs.List.{list_any};
ghost use Rattle.std.specs.Option.{option_and_then, option_map, option_map_or};
ghost use Rattle.net_types.specs.Attributes.{same_offer, same_option, same_part, same_signature};
ghost use Rattle.net_types.specs.declared.address.Pid.{Pid as AnyPid};
ghost use Rattle.net_types.specs.declared.route.Offer.{Offer as AnyOffer};
ghost use Rattle.net_types.specs.Signatures.{counts, trimmed_part};
ghost use Rattle.events.specs.Sound.{part_of};
ghost use Rattle.fast_path.specs.Grouping.{known_by, part_by};

use net_types::{Memory, Offer, Part, Pid, Prefix, Same, Sig, Tag, TryCopy};
use prefix_classes::ClassMap;
use route_server::Proposal;
use std::marker::Model;

/// The classes, with the signatures trimmed by whom a participant's policy names from now on, where the line is one that
/// says so. Contracts see the tag of each prefix and the signature of each tag.
#[derive(Drop)]
pub struct KnownClasses<'a> {
    classes: &'a ClassMap,
    named: Option<(Pid, &'a [Pid])>,
}

impl<'a> Model for KnownClasses<'a> {
    ghost use Rattle.std.specs.Coded.{codes};
    ghost use Rattle.std.specs.FinMap as map;
    ghost use Rattle.std.specs.Option.{option_map};
    ghost use Rattle.fast_path.specs.Grouping.{Known, known_by};

    ghost Value = { Known };

    ghost coded = { Prim.hlevel (codes, map.code) };

    ghost view = { λ k. known_by (option_map (λ e. (e.0, e.1.now)) k.named) k.classes.now };
}

/// Whether an exporter counts: it is the best one, or it is named.
fn counts(named: &[Pid], best: Pid, who: Pid) -> bool
    ensures { result ≡ counts named.now best who }
{
    who.0 == best.0 || is_named(named, who)
}

fn is_named(named: &[Pid], who: Pid) -> bool
    ensures { result ≡ list_any (λ (other : AnyPid). nat_eq other.0 who.0) named.now }
{
    named.iter().any(|other| other.0 == who.0)
}

/// Takes the offers out of a part of the sender's that don't count.
fn trim(part: &mut Part, who: Pid, pids: &[Pid])
    ensures { part.new ≡ trimmed_part who pids.now part.old }
{
    if part.sender.0 == who.0 {
        let best = part.best;
        part.offers
            .retain(|offer| counts(pids, best, offer.exporter));
    }
}

/// The part without the offers that don't count any more, where there are new names.
fn part_by(named: Option<(Pid, &[Pid])>, part: &Part) -> Result<Part, Memory>
    ensures { IfOk result (λ copy. copy ≡ part_by (option_map (λ e. let names : AnyPid × List AnyPid = (e.0, e.1.now) in names) named.entry) part.now) }
{
    match named {
        None => part.copy(),
        Some((who, pids)) => {
            let mut copy = part.copy()?;
            trim(&mut copy, who, pids);
            Ok(copy)
        }
    }
}

/// Whether offers are others without those that don't count any more, in order. It makes no copy.
fn are_counted(pids: &[Pid], best: Pid, kept: &[Offer], offers: &[Offer]) -> bool
    ensures { result ≡ pointwise same_offer (filter (λ (o : AnyOffer). counts pids.now best o.exporter) kept.now) offers.now }
{
    let mut at = 0;
    for offer in kept {
        if counts(pids, best, offer.exporter) {
            if !stands_at(offers, at, offer) {
                return false;
            }
            at += 1;
        }
    }
    at == offers.len()
}

/// Whether the offer at a place is this one.
fn stands_at(offers: &[Offer], at: usize, offer: &Offer) -> bool
    ensures { result ≡ option_map_or (same_offer offer.now) (slice_get offers.now at) false }
{
    match offers.get(at) {
        Some(other) => offer.same(other),
        None => false,
    }
}

/// Whether a part of the sender's is another one without the offers that don't count any more.
fn is_trimmed(pids: &[Pid], kept: &Part, part: &Part) -> bool
    ensures { result ≡ same_part (record kept.now { offers = filter (λ (o : AnyOffer). counts pids.now kept.now.best o.exporter) kept.now.offers }) part.now }
{
    let offers = are_counted(pids, kept.best, kept.offers.items(), part.offers.items());
    kept.sender.0 == part.sender.0 && (kept.best.0 == part.best.0 && offers)
}

/// Whether a part is another one without the offers that don't count any more, where there are new names.
fn is_same_part(named: Option<(Pid, &[Pid])>, kept: &Part, part: &Part) -> bool
    ensures { result ≡ same_part (part_by (option_map (λ e. let names : AnyPid × List AnyPid = (e.0, e.1.now) in names) named.entry) kept.now) part.now }
{
    match named {
        None => kept.same(part),
        Some((who, pids)) => {
            if kept.sender.0 == who.0 {
                is_trimmed(pids, kept, part)
            } else {
                kept.same(part)
            }
        }
    }
}

/// Whether a signature is another one without the offers that don't count any more, where there are new names. It makes no
/// copy.
fn is_same(named: Option<(Pid, &[Pid])>, kept: &[Part], sig: &[Part]) -> bool
    ensures { result ≡ same_signature (map (part_by (option_map (λ e. let names : AnyPid × List AnyPid = (e.0, e.1.now) in names) named.entry)) kept.now) sig.now }
{
    if kept.len() != sig.len() {
        return false;
    }
    for i in 0..kept.len() {
        if !is_same_part(named, &kept[i], &sig[i]) {
            return false;
        }
    }
    true
}

/// The part of a participant in a signature.
pub fn part_in(sig: &[Part], who: Pid) -> Option<&Part>
    ensures { option_copied result ≡ part_of sig.now who }
{
    sig.iter().find(|part| part.sender.0 == who.0)
}

impl<'a> KnownClasses<'a> {
    /// What a proposal finds.
    pub fn of(classes: &'a ClassMap, proposal: &'a Proposal) -> KnownClasses<'a>
        ensures { result ≡ known_by proposal.now.named classes.now }
    {
        let named = proposal.named();
        KnownClasses { classes, named }
    }

    /// The tag of a prefix.
    pub fn tag_of(&self, prefix: Prefix) -> Option<Tag>
        ensures { result ≡ get self.now.tag prefix }
    {
        self.classes.tag_of(prefix)
    }

    /// Whether a signature is the one that is kept for a prefix's tag, where it has one.
    pub fn is_kept(&self, tag: Option<Tag>, sig: &Sig) -> bool
        ensures { result ≡ same_option same_signature (option_and_then (get self.now.kept) tag) (Some sig.now) }
    {
        let Some(tag) = tag else {
            return false;
        };
        let Some(kept) = self.classes.sig_of(tag) else {
            return false;
        };
        is_same(self.named, kept.items(), sig.items())
    }

    /// The part of a participant in the signature of a tag. Memory is the only refusal.
    pub fn part_of(&self, tag: Tag, who: Pid) -> Result<Option<Part>, Memory>
        ensures { IfOk result (λ part. part ≡ option_and_then (λ sig. part_of sig who) (get self.now.kept tag)) }
    {
        let Some(sig) = self.classes.sig_of(tag) else {
            return Ok(None);
        };
        match part_in(sig.items(), who) {
            None => Ok(None),
            Some(part) => Ok(Some(part_by(self.named, part)?)),
        }
    }
}
