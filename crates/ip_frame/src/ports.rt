//! The ports that are written into a frame, and the checksum over them.

ghost use Rattle.std.specs.Prelude.{◌≡◌, ◌+◌, ◌<◌, ◌≤◌, ◌^◌, length, IfSome};
ghost use Rattle.net_types.specs.Frames.{put_word};
ghost use Rattle.ip_frame.specs.Places.{AreOctets, IsPlaced};
ghost use Rattle.ip_frame.specs.Rewriting.{CanTake, ports_of, ports_difference, with_port_checksum};

use crate::checksum::{difference, put_checksum, put_udp_checksum};
use crate::layout::{TCP, ports_at};
use crate::words::{put_word, word};
use net_types::Headers;

/// Ports, and where the first of them stands.
#[derive(Clone, Copy)]
pub(crate) struct Ports {
    pub(crate) at: usize,
    pub(crate) sport: u16,
    pub(crate) dport: u16,
}

impl Ports {
    /// The ports of the headers, where the frame has ports.
    pub(crate) fn of(frame: &[u8], to: &Headers) -> Option<Ports>
        requires { CanTake frame.now to.now }
        ensures value { result ≡ ports_of frame.now to.now }
        ensures placed { IfSome result
            (λ ports. IsPlaced to.now.proto (length frame.now) ports.at) }
        ensures octets { AreOctets frame.now }
    {
        Some(Ports {
            at: ports_at(frame)?,
            sport: to.sport?,
            dport: to.dport?,
        })
    }

    /// What the ports add to the checksum's sum.
    fn difference(&self, frame: &[u8]) -> u32
        requires { self.now.at + 4 ≤ length frame.now }
        ensures value { result ≡ ports_difference self.now frame.now }
        ensures bound { result < 2 ^ 18 }
    {
        difference(word(frame, self.at), self.sport)
            + difference(word(frame, self.at + 2), self.dport)
    }

    /// Writes the checksum of TCP or UDP, whose sum begins with what the addresses add.
    pub(crate) fn put_checksum(&self, frame: &mut [u8], proto: u8, addresses: u32)
        requires placed { IsPlaced proto (length frame.old) self.now.at }
        requires sum { addresses < 2 ^ 19 }
        ensures { frame.new
            ≡ with_port_checksum self.now.at proto (addresses + ports_difference self.now frame.old) frame.old }
    {
        let sum = addresses + self.difference(frame);
        if proto == TCP {
            put_checksum(frame, self.at + 16, sum);
        } else {
            put_udp_checksum(frame, self.at + 6, sum);
        }
    }

    /// Writes the ports.
    pub(crate) fn put(&self, frame: &mut [u8])
        requires { self.now.at + 4 ≤ length frame.old }
        ensures { frame.new
            ≡ put_word (self.now.at + 2) self.now.dport (put_word self.now.at self.now.sport frame.old) }
    {
        put_word(frame, self.at, self.sport);
        put_word(frame, self.at + 2, self.dport);
    }
}
