//! Why nothing was declared.

ghost use Rattle.std.specs.Prelude.{◌≡◌};
ghost use Rattle.registry.specs.declared.fault.RegFault.TheVariants as faults;

use net_types::Memory;
use std::alloc::AllocError;

/// Why a participant or a port was not declared.
#[derive(Clone, Copy, Debug, PartialEq, Eq)]
pub enum RegFault {
    /// The name, the number or one of the addresses is declared already.
    Taken,
    /// 256 participants are declared.
    Full,
    /// Memory ran out.
    Memory,
}

impl From<Memory> for RegFault {
    ghost from_gives = { λ _ e. e ≡ faults.Memory };

    fn from(_: Memory) -> RegFault {
        RegFault::Memory
    }
}

impl From<AllocError> for RegFault {
    ghost from_gives = { λ _ e. e ≡ faults.Memory };

    fn from(_: AllocError) -> RegFault {
        RegFault::Memory
    }
}
