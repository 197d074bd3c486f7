//! Lists over `Vec` that contracts see as lists.

ghost use Rattle.std.specs.Prelude.{◌≡◌, ◌==◌, ◌++◌, ◌∷◌, [], OnOk, OnErr, List, length};
ghost use Rattle.std.specs.Fn.{CalledAt};
ghost use Rattle.std.specs.List.Retain.{IsFiltered};

use crate::address::{Ip, Pid, Tag};
use crate::export::ExportRule;
use crate::memory::Memory;
use crate::prefix::Prefix;
use crate::route::{Offer, Part, Segment, Unknown};
use crate::rule::Pair;
use std::alloc::Global;
use std::marker::Model;

/// A list.
#[derive(Drop)]
pub struct Items<T> {
    items: Vec<T>,
}

impl<T> Model for Items<T> {
    ghost Value = { List T };

    ghost view = { λ a. a.items.items };
}

impl<T> Items<T> {
    /// The empty list.
    pub fn new(alloc: Global) -> Items<T>
        ensures { result ≡ [] }
    {
        Items {
            items: Vec::new(alloc),
        }
    }

    /// The list of what is in a vector.
    pub fn from_vec(items: Vec<T>) -> Items<T>
        ensures { result ≡ items.items }
    {
        Items { items }
    }

    /// What is in the list, in order.
    pub fn items(&self) -> &[T]
        ensures { result.now ≡ self.now }
    {
        self.items.as_slice()
    }

    /// What is in the list, in order, as a vector.
    pub fn into_vec(self) -> Vec<T>
        ensures { result.items ≡ self }
    {
        self.items
    }

    /// How many items there are.
    pub fn len(&self) -> usize
        ensures { result ≡ length self.now }
    {
        self.items.len()
    }

    /// Whether there is no item.
    pub fn is_empty(&self) -> bool
        ensures { result ≡ (length self.now == 0) }
    {
        self.items.is_empty()
    }

    /// The allocator that the list takes its memory from.
    pub(crate) fn allocator(&self) -> Global {
        *self.items.allocator()
    }
}

impl<T: Drop> Items<T> {
    /// Puts the item last. After want of memory the list is unchanged.
    pub fn push(&mut self, item: T) -> Result<(), Memory>
        ensures ok { OnOk result (self.new ≡ self.old ++ item ∷ []) }
        ensures err { OnErr result (self.new ≡ self.old) }
    {
        self.items.push(item)?;
        Ok(())
    }

    /// Keeps the items for which the test answers true, in their order. No memory is taken.
    pub fn retain<F: FnMut(&T) -> bool>(&mut self, test: F)
        requires { F.IsAlwaysCallable test }
        ensures filtered { IsFiltered (CalledAt F.FnMut) test self.old self.new }
    {
        self.items.retain(test);
    }
}

/// Octets.
pub type Bytes = Items<u8>;

/// The octets of a participant's name.
pub type Name = Items<u8>;

/// The octets of a text.
pub type Text = Items<u8>;

pub type Words = Items<Text>;

/// Numbers of autonomous systems.
pub type Asns = Items<u32>;

pub type Numbers = Items<u32>;

pub type Segments = Items<Segment>;

pub type Unknowns = Items<Unknown>;

pub type Prefixes = Items<Prefix>;

pub type Pids = Items<Pid>;

pub type Ips = Items<Ip>;

pub type Tags = Items<Tag>;

pub type Pairs = Items<Pair>;

pub type Offers = Items<Offer>;

/// A signature: a part for each participant that has a best route, in order of declaration.
pub type Sig = Items<Part>;

/// A participant's export rules, in their order.
pub type ExportRules = Items<ExportRule>;
