//! Why a message is not decoded.

ghost use Rattle.std.specs.Prelude.{◌≡◌};
ghost use Rattle.bgp_update.specs.declared.fault.UpdateFault.TheVariants.{Memory};

use net_types::{Fault, Memory};
use std::alloc::{AllocError, AllocFailed};

/// The first check that a message fails, or want of memory.
#[derive(Clone, Copy, Debug, PartialEq, Eq)]
pub enum UpdateFault {
    Bad(Fault),
    Memory,
}

impl From<Memory> for UpdateFault {
    ghost from_gives = { λ _ e. e ≡ Memory };

    fn from(_: Memory) -> UpdateFault {
        UpdateFault::Memory
    }
}

impl From<AllocError> for UpdateFault {
    ghost from_gives = { λ _ e. e ≡ Memory };

    fn from(_: AllocError) -> UpdateFault {
        UpdateFault::Memory
    }
}

impl<T: Drop> From<AllocFailed<T>> for UpdateFault {
    ghost from_gives = { λ _ e. e ≡ Memory };

    fn from(_: AllocFailed<T>) -> UpdateFault {
        UpdateFault::Memory
    }
}
