//! Why a row isn't answered.

use net_types::Memory;
use std::alloc::AllocError;

/// Why a row isn't answered.
#[derive(Clone, Copy, Debug, PartialEq, Eq)]
pub enum Fault {
    /// A text spells no policy, or the policy is nobody's.
    Policy,
    /// Nobody offers, or somebody who isn't declared, or one participant twice.
    Offers,
    /// There are more rules than there is room for.
    Wide { rules: usize },
    /// The table would have more rules than it has room for.
    TableFull { rules: usize, capacity: usize },
    Memory,
}

impl From<Memory> for Fault {
    ghost use Rattle.std.specs.Prelude.{◌≡◌};
    ghost use Rattle.table_cases.specs.declared.fault.Fault.TheVariants as fault;

    ghost from_gives = { λ _ e. e ≡ fault.Memory };

    fn from(_: Memory) -> Fault
        ensures { result ≡ fault.Memory }
    {
        Fault::Memory
    }
}

impl From<AllocError> for Fault {
    fn from(_: AllocError) -> Fault {
        Fault::Memory
    }
}
