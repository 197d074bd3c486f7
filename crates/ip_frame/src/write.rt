//! Writes headers into a frame.

ghost use Rattle.std.specs.Prelude.{◌≡◌, ◌≤◌, length, IfSome};
ghost use Rattle.net_types.specs.Frames.{written};
ghost use Rattle.ip_frame.specs.Places.{IsPlaced};
ghost use Rattle.ip_frame.specs.Rewriting.{CanTake, with_checksums, with_fields};

use crate::checksum::{difference_at, put_checksum};
use crate::layout::{CHECKSUM, DESTINATION, SOURCE};
use crate::ports::Ports;
use crate::words::put_address;
use net_types::{Headers, Mac};

/// Writes the checksums. They come first, since they change by the words that the fields still have.
fn put_checksums(frame: &mut [u8], to: &Headers, ports: Option<Ports>)
    requires room { 34 ≤ length frame.old }
    requires placed { IfSome ports
        (λ ports. IsPlaced to.now.proto (length frame.old) ports.at) }
    ensures { frame.new ≡ with_checksums to.now ports frame.old }
{
    let addresses = difference_at(frame, SOURCE, to.src)
        + difference_at(frame, DESTINATION, to.dst);
    put_checksum(frame, CHECKSUM, addresses);
    if let Some(ports) = ports {
        ports.put_checksum(frame, to.proto, addresses);
    }
}

/// Writes the addresses, and the ports where the frame has some.
fn put_fields(frame: &mut [u8], to: &Headers, ports: Option<Ports>)
    requires room { 34 ≤ length frame.old }
    requires placed { IfSome ports
        (λ ports. IsPlaced to.now.proto (length frame.old) ports.at) }
    ensures { frame.new ≡ with_fields to.now ports frame.old }
{
    put_address(frame, SOURCE, to.src);
    put_address(frame, DESTINATION, to.dst);
    if let Some(ports) = ports {
        ports.put(frame);
    }
}

/// Writes headers and the MAC that the frame goes to. Of the headers only the fields change that differ and that the
/// frame has, and with them the IPv4 checksum and that of TCP or UDP (RFC 1624 3); a UDP checksum of 0 stays 0, and one
/// that becomes 0 is written as 65535 (RFC 768). Takes no memory.
pub fn rewrite(frame: &mut [u8], to: &Headers, mac: Mac)
    requires { CanTake frame.old to.now }
    ensures { frame.new ≡ written frame.old to.now mac }
{
    let ports = Ports::of(frame, to);
    put_checksums(frame, to, ports);
    put_fields(frame, to, ports);
    frame[..6].copy_from_slice(&mac.0);
}
