//! Why a text is no rules, and why rules can't be bound.

ghost use Rattle.std.specs.Prelude.{◌≡◌};
ghost use Rattle.export_rules.specs.declared.fault.RulesFault.TheVariants as rules;
ghost use Rattle.export_rules.specs.declared.fault.BindFault.TheVariants as bind;

use net_types::Memory;
use std::alloc::{AllocError, AllocFailed};
use text_fields::WrongOctet;

/// What is wrong with a text.
#[derive(Clone, Copy, Debug, PartialEq, Eq)]
pub enum RulesFault {
    /// It has more than 8192 octets.
    TextLong,
    /// No rules go on with this octet, or end before it.
    Syntax { at: u32 },
    /// Memory ran out.
    Memory,
}

impl From<WrongOctet> for RulesFault {
    ghost from_gives = { λ wrong e. e ≡ rules.Syntax wrong.at };

    fn from(wrong: WrongOctet) -> RulesFault {
        RulesFault::Syntax { at: wrong.at }
    }
}

impl From<Memory> for RulesFault {
    ghost from_gives = { λ _ e. e ≡ rules.Memory };

    fn from(_: Memory) -> RulesFault {
        RulesFault::Memory
    }
}

/// Why rules have no participants.
#[derive(Clone, Copy, Debug, PartialEq, Eq)]
pub enum BindFault {
    /// A rule names a participant that isn't declared.
    UnknownName,
    /// Memory ran out.
    Memory,
}

impl From<AllocError> for BindFault {
    ghost from_gives = { λ _ e. e ≡ bind.Memory };

    fn from(_: AllocError) -> BindFault {
        BindFault::Memory
    }
}

impl<T: Drop> From<AllocFailed<T>> for BindFault {
    ghost from_gives = { λ _ e. e ≡ bind.Memory };

    fn from(_: AllocFailed<T>) -> BindFault {
        BindFault::Memory
    }
}
