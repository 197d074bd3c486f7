//! Why an update is not taken.

/// Why an update is not taken.
#[derive(Clone, Copy, Debug, PartialEq, Eq)]
pub enum RouteFault {
    /// The path doesn't begin with the announcer's AS.
    FirstAs,
    /// NEXT_HOP is the address of none of the announcer's ports.
    NextHop,
    /// An announced prefix couldn't be told: with its attributes it takes more than 4096 octets.
    Oversize,
    /// Memory ran out.
    Memory,
}
