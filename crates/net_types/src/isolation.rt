//! How a policy breaks isolation.

use crate::headers::Span;

/// What a part of a policy does that its owner may not.
#[derive(Clone, Copy, Debug, PartialEq, Eq)]
pub enum Kind {
    /// It sends to a name that nobody has.
    UnknownName,
    /// It sends to its own participant.
    OwnName,
    /// It sends out of a port where a participant is to be named, or the other way round.
    FwdKind,
    /// It names another participant's port, or one that isn't there.
    ForeignPort,
    /// It sets fields of what leaves its participant.
    ModifyOutbound,
    /// It asks by which port a packet came in that it receives.
    InportInbound,
}

/// A part of a policy that breaks isolation, with the octets where it stands.
#[derive(Clone, Copy, Debug, PartialEq, Eq)]
pub struct IsolateFault {
    pub kind: Kind,
    pub span: Span,
}
