//! What is trimmed where a participant's policy names others: laws. The functions have empty bodies, and their contracts are
//! the laws.

ghost use Rattle.route_server.specs.Proposed.{TrimmedSignatures, TrimmedBests};

/// Signatures that are trimmed by the new names of a participant are those of the routing in which only those count that
/// are named still, and this has the same best routes.
pub fn trimmed_signatures_are_those()
    ensures signatures { TrimmedSignatures }
    ensures bests { TrimmedBests }
{}
