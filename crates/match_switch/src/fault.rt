//! Why a block isn't put in.

ghost use Rattle.std.specs.Prelude.{◌≡◌};
ghost use Rattle.match_switch.specs.declared.fault.PutFault.TheVariants as fault;

use net_types::Memory;

/// Why a block isn't put in.
#[derive(Clone, Copy, Debug, PartialEq, Eq)]
pub enum PutFault {
    /// There would be more rules than there is room for.
    TableFull { rules: usize, capacity: usize },
    Memory,
}

impl From<Memory> for PutFault {
    ghost from_gives = { λ _ e. e ≡ fault.Memory };

    fn from(_: Memory) -> PutFault
        ensures { result ≡ fault.Memory }
    {
        PutFault::Memory
    }
}
