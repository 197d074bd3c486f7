//! What the choice sees of a route.

use net_types::Ip;

/// What the choice sees of a route.
#[derive(Clone, Copy, Debug, PartialEq, Eq)]
pub struct Candidate {
    /// The AS numbers in the path, where a set counts one as a whole.
    pub hops: u32,
    /// 0 IGP, 1 EGP, 2 INCOMPLETE.
    pub origin: u8,
    /// The AS of the participant who announced the route.
    pub asn: u32,
    /// MULTI_EXIT_DISC, where it is there.
    pub med: Option<u32>,
    /// The BGP identifier of the participant.
    pub id: Ip,
    /// The address of the participant's session.
    pub peer: Ip,
}
