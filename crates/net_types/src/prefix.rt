//! Prefixes of addresses (RFC 4271 4.3).

ghost use Rattle.std.specs.Prelude.{◌≡◌, ◌<◌, ◌≤◌, ◌%◌, ◌^◌, ◌-◌};

use crate::address::Ip;

/// An address and the number of its first bits that count; the others are zero.
#[derive(Clone, Copy, Debug, PartialEq, Eq, PartialOrd, Ord, Hash)]
pub struct Prefix {
    pub address: Ip,
    pub len: u8,
    ghost in_range: { address.0 < 2 ^ 32 },
    ghost short: { len ≤ 32 },
    ghost host_bits_zero: { address.0 % 2 ^ (32 - len) ≡ 0 },
}

/// A prefix has at most 32 bits.
#[derive(Clone, Copy, Debug, PartialEq, Eq)]
pub struct BadLength;

/// The number whose first `len` bits are 1.
fn mask(len: u8) -> u32
    requires { len ≤ 32 }
    ensures { result ≡ 2 ^ 32 - 2 ^ (32 - len) }
{
    if len == 0 { 0 } else { u32::MAX << (32 - len) }
}

impl Prefix {
    ghost use Rattle.std.specs.Prelude.{IsErr, IfOk, IsTrue, IsNone, IfSome, ◌↔◌};
    ghost use Rattle.net_types.specs.Prefixes.{covers, lies_within, meet_prefixes, any_prefix};
    ghost use Rattle.net_types.specs.Bits.{same_bits};

    /// The prefix of the first `len` bits of an address; the bits past them are cleared. Refused is a length over 32.
    pub fn new(ip: Ip, len: u8) -> Result<Prefix, BadLength>
        ensures bad { IsErr result ↔ (32 < len) }
        ensures len { IfOk result (λ p. p.len ≡ len) }
        ensures bits { IfOk result (λ p. IsTrue (same_bits len p.address.0 ip.0)) }
    {
        if len > 32 {
            return Err(BadLength);
        }
        Ok(Prefix {
            address: Ip(ip.0 & mask(len)),
            len,
        })
    }

    /// The prefix of all addresses.
    pub fn any() -> Prefix
        ensures { result ≡ any_prefix }
    {
        Prefix {
            address: Ip(0),
            len: 0,
        }
    }

    /// Whether an address begins with the bits of the prefix.
    pub fn covers(self, ip: Ip) -> bool
        ensures { result ≡ covers self ip }
    {
        ip.0 & mask(self.len) == self.address.0
    }

    /// Whether each address of this prefix is one of the other.
    pub fn within(self, other: Prefix) -> bool
        ensures { result ≡ lies_within self other }
    {
        other.len <= self.len && other.covers(self.address)
    }

    /// The longer of two prefixes of which one lies within the other; none where neither does.
    #[tactic(auto, unfolding(crate::specs::Prefixes::meet_prefixes))]
    pub fn meet(self, other: Prefix) -> Option<Prefix>
        ensures { result ≡ meet_prefixes self other }
    {
        if self.within(other) {
            Some(self)
        } else if other.within(self) {
            Some(other)
        } else {
            None
        }
    }
}
