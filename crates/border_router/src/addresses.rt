//! Addresses that are resolved, by the tree.

ghost use Rattle.std.specs.Prelude.{◌≡◌, ◌≤◌, ◌<◌, ◌+◌, OnOk, IsOk};
ghost use Rattle.std.specs.FinMap as map;

use net_types::{Ip, Mac, Memory};
use ordered_map::OrderedMap;
use std::alloc::Global;
use std::marker::Model;

/// The MACs of addresses, and room for a number of new addresses.
#[derive(Drop)]
pub(crate) struct Addresses {
    macs: OrderedMap<Ip, Mac>,
    alloc: Global,
}

impl Model for Addresses {
    ghost use Rattle.std.specs.Prelude.{◌≡◌, true};
    ghost use Rattle.std.specs.Coded.{codes};
    ghost use Rattle.std.specs.FinMap as map;
    ghost use Rattle.std.specs.FinMap.Entries.{is_sorted};
    ghost use Rattle.border_router.specs.Known.{Stations};
    ghost use Rattle.net_types.specs.Keys.{ip_cmp};

    ghost Value = { Stations };

    ghost coded = { Prim.hlevel (codes, map.code) };

    ghost view = { λ a. record { map = map.from_sorted a.macs.items; room = a.macs.room } };

    ghost invariant = { λ a. is_sorted ip_cmp a.macs.items ≡ true };
}

impl Addresses {
    pub(crate) fn new(alloc: Global) -> Addresses
        ensures { result.map ≡ map.empty }
    {
        Addresses {
            macs: OrderedMap::new(alloc),
            alloc,
        }
    }

    /// The allocator that the memory is taken from.
    pub(crate) fn allocator(&self) -> Global {
        self.alloc
    }

    /// Makes room for so many new addresses. It takes memory only where there is less.
    pub(crate) fn reserve(&mut self, addresses: usize) -> Result<(), Memory>
        ensures map { self.new.map ≡ self.old.map }
        ensures room { OnOk result (addresses ≤ self.new.room) }
        ensures kept { self.old.room ≤ self.new.room }
        ensures enough { addresses ≤ self.old.room → IsOk result }
    {
        self.macs.reserve(addresses)?;
        Ok(())
    }

    /// The MAC of an address, where it is resolved.
    pub(crate) fn get(&self, ip: Ip) -> Option<Mac>
        ensures { result ≡ map.get self.now.map ip }
    {
        self.macs.get(&ip).copied()
    }

    /// Gives an address a MAC.
    pub(crate) fn put(&mut self, ip: Ip, mac: Mac)
        requires { 0 < self.old.room }
        ensures map { self.new.map ≡ map.insert self.old.map ip mac }
        ensures room { self.old.room ≤ self.new.room + 1 }
    {
        self.macs.put(ip, mac);
    }
}
