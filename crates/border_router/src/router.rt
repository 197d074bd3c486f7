//! A router at a port of the exchange: it goes by the longest prefix that it was told (RFC 1812 5.2.4.3), and asks for
//! next hops by ARP (RFC 826).

ghost use Rattle.std.specs.Prelude.{◌≡◌, ◌≤◌, ◌<◌, ◌+◌, [], length, Err, Some, None, IsOk, OnOk, IfOk, ◌↔◌};
ghost use Rattle.std.specs.FinMap as map;
ghost use Rattle.border_router.specs.Hearing.{Answer, IsReply, IsReplyOf, announced, withdrawn, with_answer, with_news};
ghost use Rattle.border_router.specs.Known.{asked};
ghost use Rattle.net_types.specs.Maps.{ordered};
ghost use Rattle.border_router.specs.Tagging.{HasHeaders, IsTagged, IsUnresolved, prefix_to};
ghost use Rattle.net_types.specs.Frames.{destination};
ghost use Rattle.net_types.specs.declared.address.Ip.{Ip as Address};
ghost use Rattle.net_types.specs.Keys.{ip_cmp};

use crate::addresses::Addresses;
use crate::fault::TagFault;
use crate::heard::News;
use crate::octets::{address, mac};
use ip_frame::wrap;
use net_types::{Ip, Ips, Mac, Memory, Prefix, ascending};
use prefix_map::PrefixMap;
use std::alloc::Global;
use std::marker::Model;

/// A router's own addresses, the next hops of the prefixes that it was told of, and the MACs of the addresses that it
/// resolved.
#[derive(Drop)]
pub struct Router {
    mac: Mac,
    ip: Ip,
    next_hops: PrefixMap<Ip>,
    resolved: Addresses,
}

impl Model for Router {
    ghost use Rattle.std.specs.Coded.{codes};
    ghost use Rattle.std.specs.FinMap as map;
    ghost use Rattle.border_router.specs.Known.{Seen};

    ghost Value = { Seen };

    ghost coded = { Prim.hlevel (codes, map.code) };

    ghost view = { λ a. record { known = record { mac = a.mac; ip = a.ip; next_hops = a.next_hops.map; resolved = a.resolved.map }; prefixes = a.next_hops.room; addresses = a.resolved.room } };
}

impl Router {
    /// A router that has heard nothing.
    pub fn new(alloc: Global, mac: Mac, ip: Ip) -> Router
        ensures { result.known ≡ record { mac = mac; ip = ip; next_hops = map.empty; resolved = map.empty } }
    {
        Router {
            mac,
            ip,
            next_hops: PrefixMap::new(alloc),
            resolved: Addresses::new(alloc),
        }
    }

    /// Makes room for so many new prefixes and new addresses. It takes memory only where there is less.
    pub fn reserve(&mut self, prefixes: usize, addresses: usize) -> Result<(), Memory>
        ensures known { self.new.known ≡ self.old.known }
        ensures prefixes { OnOk result (prefixes ≤ self.new.prefixes) }
        ensures addresses { OnOk result (addresses ≤ self.new.addresses) }
        ensures kept_prefixes { self.old.prefixes ≤ self.new.prefixes }
        ensures kept_addresses { self.old.addresses ≤ self.new.addresses }
        ensures enough { prefixes ≤ self.old.prefixes → addresses ≤ self.old.addresses → IsOk result }
    {
        self.next_hops.reserve(prefixes)?;
        self.resolved.reserve(addresses)
    }

    /// Withdraws, and then announces. Each announced prefix uses one place of the room at most.
    pub fn hear(&mut self, news: &News)
        requires next_hop { news.now.next_hop ≡ None → news.now.announced ≡ [] }
        requires room { length news.now.announced ≤ self.old.prefixes }
        ensures known { self.new.known ≡ with_news news.now self.old.known }
        ensures prefixes { self.old.prefixes ≤ self.new.prefixes + length news.now.announced }
        ensures addresses { self.old.addresses ≤ self.new.addresses }
    {
        withdraw(&mut self.next_hops, news.withdrawn.items());
        if let Some(next_hop) = news.next_hop {
            announce(&mut self.next_hops, news.announced.items(), next_hop);
        }
    }

    /// Resolves the address that an ARP reply is about, where the reply goes to the router's MAC. It uses one place of the
    /// room at most.
    pub fn hear_arp(&mut self, frame: &[u8])
        requires reply { IsReply frame.now }
        requires room { 0 < self.old.addresses }
        ensures known { (a : Answer) → IsReplyOf frame.now a → self.new.known ≡ with_answer a self.old.known }
        ensures prefixes { self.old.prefixes ≤ self.new.prefixes }
        ensures addresses { self.old.addresses ≤ self.new.addresses + 1 }
    {
        if mac(frame, 32) == self.mac {
            self.resolved.put(address(frame, 28), mac(frame, 22));
        }
    }

    /// The next hops that aren't resolved, ascending, each once. Memory is the only refusal.
    pub fn asks(&self) -> Result<Ips, Memory>
        ensures { IfOk result (λ ips. ips ≡ asked self.now.known) }
    {
        let mut ips = Vec::new(self.resolved.allocator());
        for (_, next_hop) in self.next_hops.iter() {
            if self.resolved.get(*next_hop).is_none() {
                ips.push(*next_hop)?;
            }
        }
        Ok(Ips::from_vec(ascending(ips)))
    }

    /// The frame from the router's MAC to that of the next hop, for the longest prefix that covers the datagram's
    /// destination.
    pub fn tag(&self, datagram: &[u8]) -> Result<Vec<u8>, TagFault>
        requires { HasHeaders datagram.now }
        // No prefix covers the destination.
        ensures unrouted { (result ≡ Err TagFault.Unrouted) ↔ (prefix_to self.now.known (destination datagram.now) ≡ None) }
        // The next hop isn't resolved.
        ensures unresolved { (ip : Address) → (result ≡ Err (TagFault.Unresolved ip)) ↔ IsUnresolved self.now.known (destination datagram.now) ip }
        // It is, and this is the frame.
        ensures framed { IfOk result (λ frame. IsTagged self.now.known datagram.now frame.items) }
    {
        let Some((_, next_hop)) = self.next_hops.longest(address(datagram, 16)) else {
            return Err(TagFault::Unrouted);
        };
        let Some(to) = self.resolved.get(*next_hop) else {
            return Err(TagFault::Unresolved(*next_hop));
        };
        let frame = wrap(self.resolved.allocator(), datagram, self.mac, to)?;
        Ok(frame)
    }
}

fn withdraw(next_hops: &mut PrefixMap<Ip>, prefixes: &[Prefix])
    ensures map { next_hops.new.map ≡ withdrawn prefixes.now next_hops.old.map }
    ensures room { next_hops.old.room ≤ next_hops.new.room }
{
    for prefix in prefixes {
        next_hops.remove(*prefix);
    }
}

fn announce(next_hops: &mut PrefixMap<Ip>, prefixes: &[Prefix], next_hop: Ip)
    requires { length prefixes.now ≤ next_hops.old.room }
    ensures map { next_hops.new.map ≡ announced prefixes.now (Some next_hop) next_hops.old.map }
    ensures room { next_hops.old.room ≤ next_hops.new.room + length prefixes.now }
{
    for prefix in prefixes {
        next_hops.put(*prefix, next_hop);
    }
}
