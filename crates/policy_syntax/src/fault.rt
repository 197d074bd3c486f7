//! Why a text is no policy.

ghost use Rattle.std.specs.Prelude.{◌≡◌};
ghost use Rattle.policy_syntax.specs.declared.fault.SyntaxFault.TheVariants.{Syntax, Memory};

use std::alloc::{AllocError, AllocFailed};
use text_fields::WrongOctet;

/// What is wrong with a text.
#[derive(Clone, Copy, Debug, PartialEq, Eq)]
pub enum SyntaxFault {
    /// It has more than 8192 octets.
    TextLong,
    /// No policy goes on so from this octet on.
    Syntax { at: u32 },
    /// This octet opens the 65th group that is open at once.
    TooDeep { at: u32 },
    /// Memory ran out.
    Memory,
}

impl From<WrongOctet> for SyntaxFault {
    ghost from_gives = { λ wrong e. e ≡ Syntax wrong.at };

    fn from(wrong: WrongOctet) -> SyntaxFault {
        SyntaxFault::Syntax { at: wrong.at }
    }
}

impl From<AllocError> for SyntaxFault {
    ghost from_gives = { λ _ e. e ≡ Memory };

    fn from(_: AllocError) -> SyntaxFault {
        SyntaxFault::Memory
    }
}

impl<T: Drop> From<AllocFailed<T>> for SyntaxFault {
    ghost from_gives = { λ _ e. e ≡ Memory };

    fn from(_: AllocFailed<T>) -> SyntaxFault {
        SyntaxFault::Memory
    }
}
