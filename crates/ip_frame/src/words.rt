//! Words of two octets in a frame, the high octet first.

ghost use Rattle.std.specs.Prelude.{◌≡◌, ◌+◌, ◌≤◌, ◌/◌, ◌%◌, length};
ghost use Rattle.net_types.specs.Octets.{word_at, address_at};
ghost use Rattle.net_types.specs.Frames.{put_word};
ghost use Rattle.ip_frame.specs.Sums.{with_address};

use net_types::Ip;

pub(crate) fn word(frame: &[u8], at: usize) -> u16
    requires { at + 2 ≤ length frame.now }
    ensures { result ≡ word_at at frame.now }
{
    u16::from_be_bytes([frame[at], frame[at + 1]])
}

pub(crate) fn put_word(frame: &mut [u8], at: usize, value: u16)
    requires { at + 2 ≤ length frame.old }
    ensures { frame.new ≡ put_word at value frame.old }
{
    frame[at..at + 2].copy_from_slice(&value.to_be_bytes());
}

pub(crate) fn address(frame: &[u8], at: usize) -> Ip
    requires { at + 4 ≤ length frame.now }
    ensures { result ≡ address_at at frame.now }
{
    Ip(u32::from_be_bytes([frame[at], frame[at + 1], frame[at + 2], frame[at + 3]]))
}

/// The two words of an address, the high one first.
pub(crate) fn words_of(ip: Ip) -> (u16, u16)
    ensures high { result.0 ≡ ip.0 / 65536 }
    ensures low { result.1 ≡ ip.0 % 65536 }
{
    ((ip.0 / 65536) as u16, (ip.0 % 65536) as u16)
}

pub(crate) fn put_address(frame: &mut [u8], at: usize, ip: Ip)
    requires { at + 4 ≤ length frame.old }
    ensures { frame.new ≡ with_address at ip frame.old }
{
    let (high, low) = words_of(ip);
    put_word(frame, at, high);
    put_word(frame, at + 2, low);
}
