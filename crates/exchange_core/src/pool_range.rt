//! The addresses of the pool.

ghost use Rattle.std.specs.Prelude.{◌≡◌};
ghost use Rattle.exchange_core.specs.Placed.{lies_in};

use net_types::Ip;

/// Whether an address is one of the pool's.
pub fn is_in_pool(base: Ip, size: u32, ip: Ip) -> bool
    ensures { result ≡ lies_in base size ip }
{
    base.0 < ip.0 && ip.0 as u64 <= base.0 as u64 + size as u64
}
