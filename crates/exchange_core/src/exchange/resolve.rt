//! The lines by which routers learn the MACs of next hops (RFC 826).

ghost use Rattle.std.specs.Prelude.{◌≡◌, ◌<◌, true, Some, length, IfOk, OnErr};
ghost use Rattle.events.specs.Forms.{IsWellFormed};
ghost use Rattle.events.specs.Fits.{IsStep};
ghost use Rattle.events.specs.Resolving.{port_place};
ghost use Rattle.net_types.specs.Octets.{same_octets};
ghost use Rattle.events.specs.declared.Event.TheVariants as lines;
ghost use Rattle.net_types.specs.declared.address.PortNo.{PortNo};
ghost use Rattle.exchange_core.specs.Placed.{is_declared};

use super::Core;
use crate::arp_responder::{answer, exchanges, pool_request};
use crate::next_hops::missing_hops;
use crate::replies::bare_reply;
use arp_frame::ArpRequest;
use events::{Exchange, Head, Phase, Reply};
use net_types::{Bytes, Mac, Memory};

impl Core {
    /// The router at the port sends a frame to the responder.
    pub(super) fn arp(&mut self, place: usize, bytes: &Bytes) -> Result<Reply, Memory>
        requires ready { is_declared self.old.phase ≡ true }
        requires within { place < length self.old.routing.ports }
        requires line { (port : PortNo) × IsWellFormed (lines.Arp port bytes.now) × (port_place self.old port ≡ Some place) }
        ensures step { IfOk result (λ reply. (port : PortNo) → IsWellFormed (lines.Arp port bytes.now) → port_place self.old port ≡ Some place → IsStep self.old (lines.Arp port bytes.now) reply self.new) }
        ensures unchanged { OnErr result (self.new ≡ self.old) }
    {
        let source = self.registry.ports()[place];
        let Some(asked) = pool_request(self.base, self.size, bytes.items()) else {
            self.phase = Phase::Running;
            return Ok(bare_reply(self.alloc, Head::Silent));
        };
        let mut reply = bare_reply(self.alloc, Head::Fine);
        reply.asks.push(Exchange {
            request: None,
            reply: answer(self.alloc, self.base, &asked)?,
        })?;
        if !asks_as(&asked, source.mac) {
            self.phase = Phase::Running;
            return Ok(reply);
        }
        self.resolved[place].insert_all(&[asked.target])?;
        self.phase = Phase::Running;
        Ok(reply)
    }

    /// The router at the port asks for each next hop that it was told and hasn't resolved.
    pub(super) fn resolve(&mut self, place: usize) -> Result<Reply, Memory>
        requires ready { is_declared self.old.phase ≡ true }
        requires within { place < length self.old.routing.ports }
        requires line { (port : PortNo) × IsWellFormed (lines.Resolve port) × (port_place self.old port ≡ Some place) }
        ensures step { IfOk result (λ reply. (port : PortNo) → IsWellFormed (lines.Resolve port) → port_place self.old port ≡ Some place → IsStep self.old (lines.Resolve port) reply self.new) }
        ensures unchanged { OnErr result (self.new ≡ self.old) }
    {
        let source = self.registry.ports()[place];
        let tags = self.adverts.told_tags(source.owner)?;
        let resolved = &self.resolved.as_slice()[place];
        let missing = missing_hops(self.alloc, self.base, resolved, &tags)?;
        let mut reply = bare_reply(self.alloc, Head::Fine);
        reply.asks = exchanges(self.alloc, self.base, &source, missing.as_slice())?;
        self.resolved[place].insert_all(missing.as_slice())?;
        self.phase = Phase::Running;
        Ok(reply)
    }
}

/// Whether a router asked with this MAC.
fn asks_as(asked: &ArpRequest, mac: Mac) -> bool
    ensures { result ≡ same_octets asked.now.mac.0 mac.0 }
{
    asked.mac == mac
}
