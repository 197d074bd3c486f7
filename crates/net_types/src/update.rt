//! What UPDATE messages say, and what may be wrong with them (RFC 4271 4.3, 6.1, 6.3).

ghost use Rattle.std.specs.Prelude.{◌≡◌};
ghost use Rattle.net_types.specs.Faults.{fault_code, fault_subcode, fault_word};

use crate::list::Prefixes;
use crate::route::Attrs;

/// What an UPDATE message says.
#[derive(Drop)]
pub struct Update {
    /// Ascending, each once, none of them announced.
    pub withdrawn: Prefixes,
    /// Said of all announced prefixes; none exactly where nothing is announced.
    pub attrs: Option<Attrs>,
    /// Ascending, each once.
    pub announced: Prefixes,
}

/// The first check that a message fails.
#[derive(Clone, Copy, Debug, PartialEq, Eq)]
pub enum Fault {
    NotUpdate,
    BadHeader,
    Malformed,
    UnknownWellKnown,
    MissingWellKnown,
    Flags,
    Length,
    Origin,
    NextHopSyntax,
    Network,
    AsPath,
}

/// How a fault is told: to people by a word, to a peer by an error code and, where the standard gives one, a subcode
/// (RFC 4271 4.5).
#[derive(Clone, Copy, Debug, PartialEq, Eq)]
pub struct FaultRow {
    pub word: &'static str,
    pub code: u8,
    pub subcode: Option<u8>,
}

/// A row of the table of faults.
fn row(word: &'static str, code: u8, subcode: Option<u8>) -> FaultRow
    ensures word { result.word.now ≡ word.now }
    ensures code { result.code ≡ code }
    ensures subcode { result.subcode ≡ subcode }
{
    FaultRow {
        word,
        code,
        subcode,
    }
}

impl Fault {
    /// The table of faults.
    pub fn row(self) -> FaultRow
        ensures word { result.word.now ≡ fault_word self }
        ensures code { result.code ≡ fault_code self }
        ensures subcode { result.subcode ≡ fault_subcode self }
    {
        match self {
            Fault::NotUpdate => row("not-update", 1, None),
            Fault::BadHeader => row("bad-header", 1, None),
            Fault::Malformed => row("malformed", 3, Some(1)),
            Fault::UnknownWellKnown => row("unknown-attribute", 3, Some(2)),
            Fault::MissingWellKnown => row("missing-attribute", 3, Some(3)),
            Fault::Flags => row("flags", 3, Some(4)),
            Fault::Length => row("length", 3, Some(5)),
            Fault::Origin => row("origin", 3, Some(6)),
            Fault::NextHopSyntax => row("next-hop-syntax", 3, Some(8)),
            Fault::Network => row("network", 3, Some(10)),
            Fault::AsPath => row("as-path", 3, Some(11)),
        }
    }
}
