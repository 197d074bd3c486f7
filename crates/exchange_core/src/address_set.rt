//! Addresses, ascending, each once.

ghost use Rattle.std.specs.Prelude.{◌≡◌, ◌≤◌, ◌++◌, [], IsTrue, length, OnErr, OnOk};
ghost use Rattle.std.specs.FinMap.Entries.{is_sorted};
ghost use Rattle.std.specs.List.{list_any};
ghost use Rattle.net_types.specs.Attributes.{same_ip};
ghost use Rattle.net_types.specs.Keys.{ip_cmp};
ghost use Rattle.net_types.specs.Maps.{ordered};
ghost use Rattle.exchange_core.specs.Addresses.{addresses_in};

use net_types::{Ip, Memory};
use ordered_map::OrderedMap;
use std::alloc::Global;
use std::marker::Model;

/// A set of addresses; contracts see the list of them, ascending.
#[derive(Drop)]
pub struct AddressSet {
    addresses: OrderedMap<Ip, ()>,
}

impl Model for AddressSet {
    ghost use Rattle.std.specs.Prelude.{List, IsTrue};
    ghost use Rattle.std.specs.FinMap.Entries.{is_sorted};
    ghost use Rattle.net_types.specs.Keys.{ip_cmp};
    ghost use Rattle.net_types.specs.declared.address.Ip.{Ip};
    ghost use Rattle.exchange_core.specs.Addresses.{addresses_in};

    ghost Value = { List Ip };

    ghost view = { λ a. addresses_in a.addresses.items };

    ghost invariant = { λ a. IsTrue (is_sorted ip_cmp a.addresses.items) };
}

impl AddressSet {
    /// The empty set.
    pub fn new(alloc: Global) -> AddressSet
        ensures { result ≡ [] }
    {
        AddressSet {
            addresses: OrderedMap::new(alloc),
        }
    }

    /// Whether the address is in the set.
    pub fn contains(&self, ip: Ip) -> bool
        ensures { result ≡ list_any (same_ip ip) self.now }
    {
        self.addresses.get(&ip).is_some()
    }

    /// Puts the addresses in. After want of memory the set is unchanged.
    pub fn insert_all(&mut self, ips: &[Ip]) -> Result<(), Memory>
        ensures ok { OnOk result (self.new ≡ ordered ip_cmp (self.old ++ ips.now)) }
        ensures unchanged { OnErr result (self.new ≡ self.old) }
    {
        self.addresses.reserve(ips.len())?;
        put_all(&mut self.addresses, ips);
        Ok(())
    }
}

/// Puts addresses in, for which there is room.
fn put_all(addresses: &mut OrderedMap<Ip, ()>, ips: &[Ip])
    requires rising { IsTrue (is_sorted ip_cmp addresses.old.items) }
    requires room { length ips.now ≤ addresses.old.room }
    ensures items { addresses_in addresses.new.items ≡ ordered ip_cmp (addresses_in addresses.old.items ++ ips.now) }
    ensures rising { IsTrue (is_sorted ip_cmp addresses.new.items) }
{
    for ip in ips {
        addresses.put(*ip, ());
    }
}
