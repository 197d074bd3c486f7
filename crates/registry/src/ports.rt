//! Ports by their places, numbers, addresses, hardware addresses and owners.

ghost use Rattle.std.specs.Prelude.{◌≡◌, ◌&&◌, ◌||◌, ◌++◌, ◌∷◌, [], List, map, filter, find, nat_eq, OnOk, OnErr, false, length, IfSome, ◌<◌};
ghost use Rattle.std.specs.List.{list_any, position_from};
ghost use Rattle.std.specs.Option.{option_copied, option_map_or};
ghost use Rattle.net_types.specs.Octets.{same_octets};

use crate::index::{at, put};
use crate::owners::{self, Owned};
use indexmap::IndexSet;
use net_types::{Ip, Mac, Memory, Pid, PortInfo, PortNo};
use std::alloc::Global;
use std::marker::Model;

/// A list of ports. Numbers, addresses and hardware addresses stand in the sets where their ports stand in the list.
#[derive(Drop)]
pub struct Ports {
    list: Vec<PortInfo>,
    numbers: IndexSet<u16>,
    addresses: IndexSet<u32>,
    macs: IndexSet<[u8; 6]>,
    owners: Vec<Owned>,
}

impl Model for Ports {
    ghost use Rattle.std.specs.Prelude.{List};
    ghost use Rattle.net_types.specs.declared.route.PortInfo.{PortInfo};
    ghost use Rattle.registry.specs.Owners.{IsIndexed};

    ghost Value = { List PortInfo };

    ghost view = { λ a. a.list.items };

    ghost invariant = { λ a. IsIndexed a.list.items a.numbers.keys a.addresses.keys a.macs.keys a.owners.items };
}

impl Ports {
    pub fn new(alloc: Global) -> Ports
        ensures { result ≡ [] }
    {
        Ports {
            list: Vec::new(alloc),
            numbers: IndexSet::new(alloc),
            addresses: IndexSet::new(alloc),
            macs: IndexSet::new(alloc),
            owners: Vec::new(alloc),
        }
    }

    pub fn list(&self) -> &[PortInfo]
        ensures { result.now ≡ self.now }
    {
        self.list.as_slice()
    }

    /// The place of the port of a number.
    pub fn place(&self, number: PortNo) -> Option<usize>
        ensures place { result ≡ position_from (λ q. nat_eq q.number.0 number.0) 0 self.now }
        ensures within { IfSome result (λ place. place < length self.now) }
    {
        self.numbers.get_index_of(&number.0)
    }

    /// The port of a number.
    pub fn numbered(&self, number: PortNo) -> Option<&PortInfo>
        ensures { option_copied result ≡ find (λ q. nat_eq q.number.0 number.0) self.now }
    {
        let place = self.numbers.get_index_of(&number.0);
        at(self.list.as_slice(), place)
    }

    /// The port that has an address.
    pub fn with_address(&self, ip: Ip) -> Option<&PortInfo>
        ensures { option_copied result ≡ find (λ q. nat_eq q.ip.0 ip.0) self.now }
    {
        let place = self.addresses.get_index_of(&ip.0);
        at(self.list.as_slice(), place)
    }

    /// Whether a participant's port has an address.
    pub fn owns_address(&self, who: Pid, ip: Ip) -> bool
        ensures { result ≡ list_any (λ q. nat_eq q.owner.0 who.0 && nat_eq q.ip.0 ip.0) self.now }
    {
        // No two ports have one address.
        let place = self.addresses.get_index_of(&ip.0);
        is_of(at(self.list.as_slice(), place), who)
    }

    /// Whether a number, an address or a hardware address is there.
    pub fn has(&self, number: PortNo, ip: Ip, mac: Mac) -> bool
        ensures { result ≡ list_any (λ q. nat_eq q.number.0 number.0 || nat_eq q.ip.0 ip.0 || same_octets q.mac.0 mac.0) self.now }
    {
        let has_number = self.numbers.contains(&number.0);
        let has_ip = self.addresses.contains(&ip.0);
        let has_mac = self.macs.contains(&mac.0);
        some_of(has_number, has_ip, has_mac)
    }

    /// The numbers of a participant's ports.
    pub fn of(&self, who: Pid) -> &[PortNo]
        ensures { result.now ≡ map (λ q. q.number) (filter (λ q. nat_eq q.owner.0 who.0) self.now) }
    {
        owners::numbers_of(&self.owners, who)
    }

    /// The first port of a participant.
    pub fn first_of(&self, who: Pid) -> Option<&PortInfo>
        ensures { option_copied result ≡ find (λ q. nat_eq q.owner.0 who.0) self.now }
    {
        owners::first_of(&self.owners, who)
    }

    /// Puts a new port last. After want of memory the list is as it was.
    pub fn add(&mut self, port: PortInfo) -> Result<(), Memory>
        requires { list_any (λ q. nat_eq q.number.0 port.number.0 || nat_eq q.ip.0 port.ip.0 || same_octets q.mac.0 port.mac.0) self.old ≡ false }
        ensures ok { OnOk result (self.new ≡ self.old ++ port ∷ []) }
        ensures err { OnErr result (self.new ≡ self.old) }
    {
        self.list.reserve(1)?;
        self.numbers.reserve(1)?;
        self.addresses.reserve(1)?;
        self.macs.reserve(1)?;
        owners::add(&mut self.owners, port)?;
        put(&mut self.numbers, port.number.0);
        put(&mut self.addresses, port.ip.0);
        put(&mut self.macs, port.mac.0);
        match self.list.push(port) {
            Ok(()) => Ok(()),
            Err(_) => unreachable!(),
        }
    }
}

/// Whether there is a port, and it is the participant's.
fn is_of(port: Option<&PortInfo>, who: Pid) -> bool
    ensures { result ≡ option_map_or (λ (q : PortInfo). nat_eq q.owner.0 who.0) (option_copied port.entry) false }
{
    match port {
        Some(port) => port.owner == who,
        None => false,
    }
}

fn some_of(one: bool, two: bool, three: bool) -> bool
    ensures { result ≡ (one || two || three) }
{
    one || two || three
}
