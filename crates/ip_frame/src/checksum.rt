//! Checksums that change with the words that they are over (RFC 1624 3).

ghost use Rattle.std.specs.Prelude.{◌≡◌, ◌+◌, ◌≤◌, ◌<◌, ◌^◌, length};
ghost use Rattle.net_types.specs.Frames.{folded};
ghost use Rattle.ip_frame.specs.Sums.{difference, difference_at, updated, updated_udp, with_checksum, with_udp_checksum};

use crate::words::{put_word, word, words_of};
use net_types::Ip;

/// What a word adds to the sum: nothing where it stays, since a checksum of 65535 would become 0.
pub(crate) fn difference(old: u16, new: u16) -> u32
    ensures value { result ≡ difference old new }
    ensures bound { result < 2 ^ 17 }
{
    if old == new {
        return 0;
    }
    u32::from(!old) + u32::from(new)
}

/// What an address adds to the sum by its two words.
pub(crate) fn difference_at(frame: &[u8], at: usize, to: Ip) -> u32
    requires { at + 4 ≤ length frame.now }
    ensures value { result ≡ difference_at at frame.now to }
    ensures bound { result < 2 ^ 18 }
{
    let (high, low) = words_of(to);
    difference(word(frame, at), high) + difference(word(frame, at + 2), low)
}

/// Adds the carries back until 16 bits are left; below 2 ^ 31 that takes two turns.
fn folded(sum: u32) -> u16
    requires { sum < 2 ^ 31 }
    ensures { result ≡ folded sum }
{
    let once = sum % 65536 + sum / 65536;
    (once % 65536 + once / 65536) as u16
}

/// HC' = ~(~HC + ~m + m'). A sum of 0 leaves the checksum as it is.
fn updated(old: u16, sum: u32) -> u16
    requires { sum < 2 ^ 30 }
    ensures { result ≡ updated old sum }
{
    !folded(u32::from(!old) + sum)
}

/// A checksum of 0 says that there is none, so it stays, and a result of 0 is written as 65535 (RFC 768).
fn updated_udp(old: u16, sum: u32) -> u16
    requires { sum < 2 ^ 30 }
    ensures { result ≡ updated_udp old sum }
{
    if old == 0 {
        return 0;
    }
    match updated(old, sum) {
        0 => 0xffff,
        new => new,
    }
}

/// Writes the checksum at a place as it is after the sum.
pub(crate) fn put_checksum(frame: &mut [u8], at: usize, sum: u32)
    requires place { at + 2 ≤ length frame.old }
    requires sum { sum < 2 ^ 30 }
    ensures { frame.new ≡ with_checksum at sum frame.old }
{
    let old = word(frame, at);
    put_word(frame, at, updated(old, sum));
}

/// The same by the rules of UDP.
pub(crate) fn put_udp_checksum(frame: &mut [u8], at: usize, sum: u32)
    requires place { at + 2 ≤ length frame.old }
    requires sum { sum < 2 ^ 30 }
    ensures { frame.new ≡ with_udp_checksum at sum frame.old }
{
    let old = word(frame, at);
    put_word(frame, at, updated_udp(old, sum));
}
