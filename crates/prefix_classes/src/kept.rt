//! What is kept of each tag. Tags with equal signatures share one on the heap, as long as few different ones are shared.

ghost use Rattle.std.specs.Prelude.{◌≡◌, ℕ, ◌≤◌, ◌<◌, ◌+◌, [], List, Option, None, IsTrue, IsOk, IfOk, IfSome, OnOk, option_copied, length, filter, map};
ghost use Rattle.std.specs.Prelude.{find as find_by};
ghost use Rattle.std.specs.FinMap.Entries.{find, put, is_sorted};
ghost use Rattle.std.specs.Option.{option_map};
ghost use Rattle.net_types.specs.Keys.{tag_cmp};
ghost use Rattle.ordered_map.specs.Changes.{changed_at};
ghost use Rattle.ordered_map.specs.Entries.{without, without_each};
ghost use Rattle.tag_table.specs.Entries.{value_in};
ghost use Rattle.prefix_classes.specs.Counts.{counted, has_members, is_above, tag_of, used_in};
ghost use Rattle.prefix_classes.specs.Recounted.{recounted};
ghost use Rattle.prefix_classes.specs.Slots.{AreJoined, AreShared, AreUsed, IsFree, IsJoinable, IsSignature, is_at, recounted_place, shown_items, shown_sig, sig_at, sig_of, tags_at, trimmed_place, trimmed_shared};
ghost use Rattle.prefix_classes.specs.Trimmed.{trimmed_entry};
ghost use Rattle.prefix_classes.specs.declared.kept.Holding.TheVariants.{At};
ghost use Rattle.prefix_classes.specs.declared.kept.Shared.{Shared as AnyShared};

use crate::members::{Kept, Recount};
use crate::placed::compare_sigs;
use crate::trimming::trim_sig;
use net_types::{Memory, Pid, Sig, Tag};
use ordered_map::Change;
use std::alloc::{AllocError, Global};
use std::marker::Model;
use tag_table::{Iter, TagTable};

/// So many different signatures are shared at most. Each of them is looked at when a tag is kept.
const MOST: usize = 16;

/// A signature, and how many tags share it.
#[derive(Drop)]
pub(crate) struct Shared {
    sig: Sig,
    tags: usize,
}

/// The signature of a tag alone, or the slot of one that tags share.
#[derive(Drop)]
pub(crate) enum Holding {
    Own(Sig),
    At(usize),
}

/// What stands in the place of a tag.
#[derive(Drop)]
pub(crate) struct Place {
    held: Holding,
    members: usize,
}

/// The signature of each tag that is kept, and how many members it has. Contracts see it for each tag alone.
#[derive(Drop)]
pub(crate) struct KeptTable {
    places: TagTable<Place>,
    shared: Vec<Option<Shared>>,
}

impl Model for KeptTable {
    ghost use Rattle.std.specs.Coded.{codes};
    ghost use Rattle.tag_table.specs.Held.{Held};
    ghost use Rattle.prefix_classes.specs.contracts.members.Kept as kept;
    ghost use Rattle.prefix_classes.specs.declared.members.Kept.{Kept};
    ghost use Rattle.prefix_classes.specs.Slots.{AreShared, shown_items};

    ghost Value = { Held Kept };

    ghost coded = { Prim.hlevel (codes, kept.the_row.coded) };

    ghost view = { λ a. record { items = shown_items a.shared.items a.places.items; room = a.places.room } };

    ghost invariant = { λ a. AreShared a.shared.items a.places.items };
}

/// Makes the slots of signatures that are shared. Where memory is wanting there are fewer, and tags have theirs alone.
fn make_slots(shared: &mut Vec<Option<Shared>>)
    ensures { (n : ℕ) → value_in shared.new.items n ≡ value_in shared.old.items n }
{
    for _next in shared.len()..MOST {
        if shared.push(None).is_err() {
            return;
        }
    }
}

/// The slot of an equal signature that one tag more can share.
fn slot_of(shared: &[Option<Shared>], sig: &Sig) -> Option<usize>
    ensures { IfSome result (λ at. IsSignature shared.now at sig.now) }
{
    for at in 0..shared.len() {
        if let Some(one) = &shared[at] {
            if one.tags < usize::MAX && compare_sigs(&one.sig, sig).is_eq() {
                return Some(at);
            }
        }
    }
    None
}

/// A slot without a signature.
fn free_slot(shared: &[Option<Shared>]) -> Option<usize>
    ensures { IfSome result (λ at. IsFree shared.now at) }
{
    for at in 0..shared.len() {
        if shared[at].is_none() {
            return Some(at);
        }
    }
    None
}

/// One tag more shares the signature of a slot.
fn join(shared: &mut [Option<Shared>], at: usize)
    requires { IsJoinable shared.old at }
    ensures { AreJoined shared.old shared.new at }
{
    if let Some(one) = &mut shared[at] {
        one.tags += 1;
    }
}

/// Holds a signature: together with the tags that have an equal one, or else in a slot of its own, where others may join. The
/// tag has it alone where there is no such slot.
fn hold(shared: &mut Vec<Option<Shared>>, sig: Sig) -> Holding
    requires used { AreUsed shared.old.items }
    ensures sig { shown_sig shared.new.items result ≡ sig }
    ensures tags { (n : ℕ) → tags_at shared.new.items n ≡ tags_at shared.old.items n + is_at n result }
    ensures kept { (n : ℕ) → 0 < tags_at shared.old.items n → sig_at shared.new.items n ≡ sig_at shared.old.items n }
    ensures used { AreUsed shared.new.items }
{
    if let Some(at) = slot_of(shared, &sig) {
        join(shared, at);
        return Holding::At(at);
    }
    if let Some(at) = free_slot(shared) {
        shared[at] = Some(Shared { sig, tags: 1 });
        return Holding::At(at);
    }
    Holding::Own(sig)
}

/// One tag less shares the signature of a slot, which goes with the last one.
fn leave(shared: &mut [Option<Shared>], at: usize)
    requires held { 0 < tags_at shared.old at }
    requires used { AreUsed shared.old }
    ensures tags { (n : ℕ) → tags_at shared.old n ≡ tags_at shared.new n + is_at n (At at) }
    ensures kept { (n : ℕ) → 0 < tags_at shared.new n → sig_at shared.new n ≡ sig_at shared.old n }
    ensures used { AreUsed shared.new }
{
    if let Some(one) = &mut shared[at] {
        one.tags -= 1;
        if one.tags == 0 {
            shared[at] = None;
        }
    }
}

/// Gives up what a tag held.
fn release(shared: &mut [Option<Shared>], held: Holding)
    requires held { (n : ℕ) → is_at n held ≤ tags_at shared.old n }
    requires used { AreUsed shared.old }
    ensures tags { (n : ℕ) → tags_at shared.old n ≡ tags_at shared.new n + is_at n held }
    ensures kept { (n : ℕ) → 0 < tags_at shared.new n → sig_at shared.new n ≡ sig_at shared.old n }
    ensures used { AreUsed shared.new }
{
    match held {
        Holding::Own(_) => {}
        Holding::At(at) => leave(shared, at),
    }
}

/// What is shared in a slot.
fn shared_at(shared: &[Option<Shared>], at: usize) -> Option<&Shared>
    ensures { option_copied result ≡ value_in shared.now at }
{
    match shared.get(at) {
        Some(slot) => slot.as_ref(),
        None => None,
    }
}

/// The signature that a tag holds.
fn signature<'a>(shared: &'a [Option<Shared>], held: &'a Holding) -> &'a Sig
    requires { (n : ℕ) → is_at n held.now ≤ tags_at shared.now n }
    ensures { result.now ≡ shown_sig shared.now held.now }
{
    match held {
        Holding::Own(sig) => sig,
        Holding::At(at) => match shared_at(shared, *at) {
            Some(one) => &one.sig,
            None => unreachable!(),
        },
    }
}

/// Takes a tag out, and gives up what it held.
fn take_out(places: &mut TagTable<Place>, shared: &mut Vec<Option<Shared>>, tag: Tag)
    requires { AreShared shared.old.items places.old.items }
    ensures shared { AreShared shared.new.items places.new.items }
    ensures items { shown_items shared.new.items places.new.items ≡ without tag_cmp tag (shown_items shared.old.items places.old.items) }
    ensures room { places.new.room ≡ places.old.room }
{
    match places.remove(tag) {
        Some(place) => release(shared, place.held),
        None => {}
    }
}

impl Change<Place> for Recount {
    ghost changed = { recounted_place };

    fn change(&self, value: &mut Place) {
        match self {
            Recount::More => value.members = value.members.saturating_add(1),
            Recount::Less => value.members = value.members.saturating_sub(1),
        }
    }
}

/// Takes a sender's offers that don't count out of a signature.
#[derive(Drop)]
struct Trim<'a> {
    alloc: Global,
    who: Pid,
    named: &'a [Pid],
}

impl<'a> Change<Place> for Trim<'a> {
    ghost changed = { λ t p. trimmed_place t.who t.named.now p };

    fn change(&self, value: &mut Place) {
        if let Holding::Own(sig) = &mut value.held {
            trim_sig(self.alloc, sig, self.who, self.named);
        }
    }
}

/// Takes a sender's offers that don't count out of the signature of a slot.
fn trim_one(alloc: Global, one: &mut Option<Shared>, who: Pid, named: &[Pid])
    ensures { one.new ≡ trimmed_shared who named.now one.old }
{
    if let Some(one) = one {
        trim_sig(alloc, &mut one.sig, who, named);
    }
}

/// Takes a sender's offers that don't count out of the signatures that are shared.
fn trim_shared(alloc: Global, shared: &mut [Option<Shared>], who: Pid, named: &[Pid])
    ensures { shared.new ≡ map (trimmed_shared who named.now) shared.old }
{
    for one in shared.iter_mut() {
        trim_one(alloc, one, who, named);
    }
}

impl KeptTable {
    /// No tag is kept.
    pub(crate) fn new(alloc: Global) -> KeptTable
        ensures items { result.items ≡ [] }
        ensures rising { IsTrue (is_sorted tag_cmp result.items) }
        ensures room { result.room ≡ 0 }
    {
        KeptTable {
            places: TagTable::new(alloc),
            shared: Vec::new(alloc),
        }
    }

    /// Makes room for the tags whose numbers are less than this one, and slots for signatures that tags share. Memory is
    /// wanting only where there is less room.
    pub(crate) fn reserve(&mut self, tags: usize) -> Result<(), AllocError>
        ensures items { self.new.items ≡ self.old.items }
        ensures rising { IsTrue (is_sorted tag_cmp self.new.items) }
        ensures room { OnOk result (tags ≤ self.new.room) }
        ensures kept { self.old.room ≤ self.new.room }
        ensures enough { tags ≤ self.old.room → IsOk result }
    {
        make_slots(&mut self.shared);
        self.places.reserve(tags)
    }

    /// The signature of a tag, where it is kept.
    pub(crate) fn sig_of(&self, tag: Tag) -> Option<&Sig>
        ensures { option_copied result ≡ option_map sig_of (find tag_cmp tag self.now.items) }
    {
        match self.places.get(tag) {
            Some(place) => Some(signature(&self.shared, &place.held)),
            None => None,
        }
    }

    /// How many members a tag has, 0 where it isn't kept.
    pub(crate) fn members(&self, tag: Tag) -> usize
        ensures { result ≡ counted self.now.items tag }
    {
        match self.places.get(tag) {
            Some(place) => place.members,
            None => 0,
        }
    }

    /// How many tags are kept.
    pub(crate) fn len(&self) -> usize
        ensures { result ≡ length self.now.items }
    {
        self.places.len()
    }

    /// Keeps a tag that isn't kept. Its number is less than that for which there is room.
    pub(crate) fn put(&mut self, tag: Tag, kept: Kept)
        requires new { find tag_cmp tag self.old.items ≡ None }
        requires room { tag.0 < self.old.room }
        ensures items { self.new.items ≡ put tag_cmp tag kept self.old.items }
        ensures rising { IsTrue (is_sorted tag_cmp self.new.items) }
        ensures room { self.new.room ≡ self.old.room }
    {
        let Kept { sig, members } = kept;
        let held = hold(&mut self.shared, sig);
        self.places.put(tag, Place { held, members });
    }

    /// Counts one member more or one less of a tag, where it is kept.
    pub(crate) fn recount(&mut self, tag: Tag, change: Recount)
        ensures items { self.new.items ≡ changed_at tag_cmp tag (recounted change) self.old.items }
        ensures rising { IsTrue (is_sorted tag_cmp self.new.items) }
        ensures room { self.new.room ≡ self.old.room }
    {
        self.places.change(tag, &change);
    }

    /// Takes a tag out.
    pub(crate) fn remove(&mut self, tag: Tag)
        ensures items { self.new.items ≡ without tag_cmp tag self.old.items }
        ensures rising { IsTrue (is_sorted tag_cmp self.new.items) }
        ensures room { self.new.room ≡ self.old.room }
    {
        take_out(&mut self.places, &mut self.shared, tag);
    }

    /// Takes these tags out.
    pub(crate) fn remove_each(&mut self, tags: &[Tag])
        ensures items { self.new.items ≡ without_each tag_cmp tags.now self.old.items }
        ensures rising { IsTrue (is_sorted tag_cmp self.new.items) }
        ensures room { self.new.room ≡ self.old.room }
    {
        for &tag in tags {
            take_out(&mut self.places, &mut self.shared, tag);
        }
    }

    /// Takes the sender's offers that don't count out of each signature.
    pub(crate) fn trim(&mut self, alloc: Global, who: Pid, named: &[Pid])
        ensures items { self.new.items ≡ map (trimmed_entry who named.now) self.old.items }
        ensures room { self.new.room ≡ self.old.room }
    {
        trim_shared(alloc, &mut self.shared, who, named);
        self.places.change_all(&Trim { alloc, who, named });
    }

    /// The first tag with members, of all or of the greater ones.
    pub(crate) fn first_used(&self, after: Option<Tag>) -> Option<Tag>
        ensures { result ≡ option_map tag_of (find_by has_members (filter (is_above after) self.now.items)) }
    {
        match after {
            None => first_with_members(self.places.iter()),
            Some(tag) => first_with_members(self.places.iter_after(tag)),
        }
    }

    /// The tags with members, in their order.
    pub(crate) fn used(&self, alloc: Global) -> Result<Vec<Tag>, Memory>
        ensures { IfOk result (λ tags. tags.items ≡ used_in self.now.items) }
    {
        let mut tags = Vec::with_capacity(alloc, self.places.len())?;
        for (tag, kept) in self.places.iter() {
            if kept.members > 0 {
                tags.push(tag)?;
            }
        }
        Ok(tags)
    }
}

/// The tag of the first entry with members.
fn first_with_members(places: Iter<'_, Place>) -> Option<Tag>
    ensures { (slots : List (Option AnyShared)) → result ≡ option_map tag_of (find_by has_members (shown_items slots places.entry)) }
{
    for (tag, place) in places {
        if place.members > 0 {
            return Some(tag);
        }
    }
    None
}
