//! Why a datagram is not put into a frame.

ghost use Rattle.std.specs.Prelude.{◌≡◌};
ghost use Rattle.border_router.specs.declared.fault.TagFault.TheVariants.{Memory};

use net_types::{Ip, Memory};

/// No prefix covers the destination, the next hop isn't resolved, or want of memory.
#[derive(Clone, Copy, Debug, PartialEq, Eq)]
pub enum TagFault {
    Unrouted,
    Unresolved(Ip),
    Memory,
}

impl From<Memory> for TagFault {
    ghost from_gives = { λ _ e. e ≡ Memory };

    fn from(_: Memory) -> TagFault {
        TagFault::Memory
    }
}
