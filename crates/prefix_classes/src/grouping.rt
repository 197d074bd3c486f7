//! Tags by their signatures.

ghost use Rattle.std.specs.Prelude.{◌≡◌, ◌<◌, ◌+◌, Some, IfOk, IsTrue, OnErr, OnOk, is_some, length};
ghost use Rattle.std.specs.FinMap as map;
ghost use Rattle.std.specs.FinMap.Entries.{find};
ghost use Rattle.net_types.specs.Maps.{put_option};
ghost use Rattle.prefix_classes.specs.Classes.{members};
ghost use Rattle.prefix_classes.specs.Placed.{AreFirsts, IsLeastBeside, sig_cmp};

use crate::class_map::ClassMap;
use crate::placed::SharedSig;
use net_types::{Memory, Sig, Steps, Tag, TryCopy};
use ordered_map::OrderedMap;
use std::alloc::Global;
use std::marker::Model;
use std::sync::ledger::Ledger;
use tag_table::TagTable;

/// Signatures, each with the least of its tags.
pub(crate) type Firsts = OrderedMap<SharedSig, Tag>;

/// Tags that were placed, each with the signature that was kept for it then.
#[derive(Drop)]
pub struct Grouping {
    alloc: Global,
    tags: TagTable<SharedSig>,
    /// The signature that was placed last, which the next tag often has too.
    last: Option<SharedSig>,
}

impl Model for Grouping {
    ghost use Rattle.std.specs.Prelude.{IsTrue, List};
    ghost use Rattle.std.specs.Coded.{codes};
    ghost use Rattle.std.specs.FinMap as map;
    ghost use Rattle.std.specs.FinMap.Entries.{is_sorted};
    ghost use Rattle.net_types.specs.Keys.{tag_cmp};
    ghost use Rattle.net_types.specs.declared.route.Part.{Part};

    ghost Value = { map.FinMap tag_cmp (List Part) };

    ghost coded = { Prim.hlevel (codes, map.code) };

    ghost view = { λ a. map.from_sorted a.tags.items };

    ghost invariant = { λ a. IsTrue (is_sorted tag_cmp a.tags.items) };
}

impl Grouping {
    /// No tag is placed.
    pub fn new(alloc: Global) -> Grouping
        ensures { result ≡ map.empty }
    {
        Grouping {
            alloc,
            tags: TagTable::new(alloc),
            last: None,
        }
    }

    /// Whether a tag is placed.
    pub fn has(&self, tag: Tag) -> bool
        ensures { result ≡ is_some (map.get self.now tag) }
    {
        self.tags.get(tag).is_some()
    }

    /// How many tags are placed.
    pub fn len(&self) -> usize
        ensures { result ≡ length (map.entries self.now) }
    {
        self.tags.len()
    }

    /// Places a tag with members, with the signature that is kept for it, whether it was placed before or not. It is one
    /// step, even where memory is wanting.
    pub fn place<L: Ledger>(
        &mut self,
        classes: &ClassMap,
        tag: Tag,
        steps: &mut Steps<L>,
    ) -> Result<(), Memory>
        requires { 0 < members classes.now.tag tag }
        ensures kept { IsTrue (is_some (map.get classes.now.kept tag)) }
        ensures placed { OnOk result (self.new ≡ put_option tag (map.get classes.now.kept tag) self.old) }
        ensures unchanged { OnErr result (self.new ≡ self.old) }
        ensures step { steps.new ≡ steps.old + 1 }
    {
        steps.tick();
        let sig = self.shared(classes.used_sig(tag))?;
        self.put(tag, sig)
    }

    /// Makes room for placing a tag, and changes nothing else.
    pub fn reserve(&mut self, tag: Tag) -> Result<(), Memory>
        ensures { self.new ≡ self.old }
    {
        self.tags.reserve(tag.0 as usize + 1)?;
        Ok(())
    }

    /// Takes a tag out, where it is placed. It takes no memory.
    pub fn take_out(&mut self, tag: Tag)
        ensures { self.new ≡ map.remove self.old tag }
    {
        self.tags.remove(tag);
    }

    /// The least tag of each signature.
    pub(crate) fn firsts(&self) -> Result<Firsts, Memory>
        ensures { IfOk result (λ firsts. AreFirsts (map.entries self.now) firsts.items) }
    {
        firsts_of(self.alloc, &self.tags)
    }

    /// The least of the tags that have the signature of a placed one, by the least tag of each.
    pub(crate) fn least_beside(&self, firsts: &Firsts, tag: Tag) -> Tag
        requires placed { IsTrue (is_some (map.get self.now tag)) }
        requires firsts { AreFirsts (map.entries self.now) firsts.now.items }
        ensures { IsLeastBeside self.now tag result }
    {
        match self.tags.get(tag) {
            Some(sig) => first_of(firsts, sig),
            None => unreachable!(),
        }
    }

    // A signature on the heap, which isn't copied where it is the one that was placed last.
    fn shared(&mut self, sig: &Sig) -> Result<SharedSig, Memory>
        ensures sig { IfOk result (λ shared. shared ≡ sig.now) }
        ensures same { self.new ≡ self.old }
    {
        if let Some(last) = &self.last {
            if last.is(sig) {
                return last.share();
            }
        }
        let copy = SharedSig::new(self.alloc, sig.copy()?)?;
        self.last = Some(copy.share()?);
        Ok(copy)
    }

    // Puts a tag in with its signature, in the place of the one it had.
    fn put(&mut self, tag: Tag, sig: SharedSig) -> Result<(), Memory>
        ensures placed { OnOk result (self.new ≡ map.insert self.old tag sig) }
        ensures unchanged { OnErr result (self.new ≡ self.old) }
    {
        self.tags.reserve(tag.0 as usize + 1)?;
        self.tags.put(tag, sig);
        Ok(())
    }
}

/// The first of the tags of each signature.
fn firsts_of(alloc: Global, tags: &TagTable<SharedSig>) -> Result<Firsts, Memory>
    ensures { IfOk result (λ firsts. AreFirsts tags.now.items firsts.items) }
{
    let mut firsts = Firsts::new(alloc);
    for (tag, sig) in tags.iter() {
        if firsts.get(sig).is_none() {
            firsts.insert(sig.share()?, tag)?;
        }
    }
    Ok(firsts)
}

/// The first of the tags of a signature that has some.
fn first_of(firsts: &Firsts, sig: &SharedSig) -> Tag
    requires { IsTrue (is_some (find sig_cmp sig.now firsts.now.items)) }
    ensures { Some result ≡ find sig_cmp sig.now firsts.now.items }
{
    match firsts.get(sig) {
        Some(first) => *first,
        None => unreachable!(),
    }
}
