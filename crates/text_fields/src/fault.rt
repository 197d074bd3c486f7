//! Where a text goes wrong.

/// No text goes on with this octet, or ends before it.
#[derive(Clone, Copy, Debug, PartialEq, Eq)]
pub struct WrongOctet {
    pub at: u32,
}
