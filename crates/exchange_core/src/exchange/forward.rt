//! The lines that send a datagram from the router at a port, or a frame as it is.

ghost use Rattle.std.specs.Prelude.{◌≡◌, ◌≤◌, true, IfErr, IfOk, OnErr, Some, length};
ghost use Rattle.events.specs.Forms.{IsWellFormed};
ghost use Rattle.events.specs.Fits.{IsStep};
ghost use Rattle.events.specs.Resolving.{is_resolved};
ghost use Rattle.events.specs.State.{port_of};
ghost use Rattle.events.specs.declared.Event.TheVariants as lines;
ghost use Rattle.net_types.specs.Frames.{headers_of};
ghost use Rattle.exchange_core.specs.Leaving.{sent_by};
ghost use Rattle.exchange_core.specs.Placed.{is_declared};
ghost use Rattle.exchange_core.specs.Stops.{IsStop};

use super::Core;
use crate::octets::{NOBODY, are_octets, known, readdress};
use crate::replies::bare_reply;
use crate::stop::Stop;
use events::{Head, Phase, Refusal, Reply};
use ip_frame::{headers, wrap};
use net_types::{Bytes, Headers, Ip, Memory, PortInfo, PortNo, Tag};
use next_hop_pool::vmac;

impl Core {
    /// A datagram comes from the router at the port; it leaves by what the router was told.
    pub(super) fn packet(&mut self, source: PortInfo, bytes: &Bytes) -> Result<Reply, Stop>
        requires formed { IsWellFormed (lines.Packet source.number bytes.now) }
        requires ready { is_declared self.old.phase ≡ true }
        requires known { port_of self.old source.number ≡ Some source }
        ensures step { IfOk result (λ reply. IsStep self.old (lines.Packet source.number bytes.now) reply self.new) }
        ensures stop { IfErr result (IsStop self.old (lines.Packet source.number bytes.now)) }
        ensures unchanged { OnErr result (self.new ≡ self.old) }
    {
        known(source.mac);
        let frame = wrap(self.alloc, bytes.items(), source.mac, NOBODY)?;
        are_octets(frame.as_slice());
        let Some(fields) = headers(source.number, frame.as_slice()) else {
            return Err(Refusal::BadPacket.into());
        };
        let reply = match self.adverts.longest(source.owner, fields.dst) {
            Some((_, entry)) => self.sent(&source, &fields, entry.tag, frame)?,
            None => bare_reply(self.alloc, Head::Unrouted),
        };
        self.phase = Phase::Running;
        Ok(reply)
    }

    /// A frame comes in at the port as it is.
    pub(super) fn frame(&mut self, source: PortInfo, bytes: &Bytes) -> Result<Reply, Memory>
        requires formed { IsWellFormed (lines.Frame source.number bytes.now) }
        requires ready { is_declared self.old.phase ≡ true }
        requires known { port_of self.old source.number ≡ Some source }
        ensures step { IfOk result (λ reply. IsStep self.old (lines.Frame source.number bytes.now) reply self.new) }
        ensures unchanged { OnErr result (self.new ≡ self.old) }
    {
        let names = &self.registry;
        let frames = self
            .switch
            .forward(self.alloc, names, source.number, bytes.items())?;
        self.phase = Phase::Running;
        let mut reply = bare_reply(self.alloc, Head::Fine);
        reply.frames = frames;
        Ok(reply)
    }

    /// The router sends a frame, whose headers were read, to a tag that it was told, where it has resolved the tag's address.
    fn sent(
        &self,
        source: &PortInfo,
        fields: &Headers,
        tag: Tag,
        mut frame: Vec<u8>,
    ) -> Result<Reply, Memory>
        requires small { tag.0 ≤ 65536 }
        requires whole { 6 ≤ length frame.items }
        requires read { headers_of source.now.number frame.items ≡ Some fields.now }
        ensures { IfOk result (λ reply. reply ≡ sent_by self.now source.now tag frame.items) }
    {
        let next_hop = Ip(self.base.0 + tag.0);
        if !self.has_resolved(source.number, next_hop) {
            return Ok(bare_reply(self.alloc, Head::Unresolved(next_hop)));
        }
        readdress(frame.as_mut_slice(), vmac(tag));
        let names = &self.registry;
        let mut reply = bare_reply(self.alloc, Head::Fine);
        reply.frames = self
            .switch
            .forward_read(self.alloc, names, fields, frame.as_slice())?;
        Ok(reply)
    }

    /// Whether the router at a port has resolved an address.
    fn has_resolved(&self, port: PortNo, ip: Ip) -> bool
        ensures { result ≡ is_resolved self.now port ip }
    {
        match self.registry.port_place(port) {
            Some(place) => self.resolved.as_slice()[place].contains(ip),
            None => false,
        }
    }
}
