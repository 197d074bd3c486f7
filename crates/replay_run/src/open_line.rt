//! What was read of a line that has no end yet.
ghost use Rattle.std.specs.Prelude.{◌≡◌, ◌==◌, ◌++◌, ◌≤◌, List, ℕ, [], length, take, vec_len, is_ok, if◌then◌else◌};

use net_types::Memory;
use std::alloc::Global;
use std::marker::Model;

/// So many octets of a line are kept that one that is too long is told.
const KEPT: usize = 20001;

/// The first 20001 octets of what was read of a line.
#[derive(Drop)]
pub struct OpenLine {
    octets: Vec<u8>,
}

impl Model for OpenLine {
    ghost Value = { List ℕ };

    ghost view = { λ line. line.octets.items };

    ghost invariant = { λ line. vec_len line.octets ≤ 20001 };
}

impl OpenLine {
    /// Nothing of a line. It takes memory only when something is kept.
    pub fn new(alloc: Global) -> OpenLine
        ensures { result ≡ [] }
    {
        OpenLine {
            octets: Vec::new(alloc),
        }
    }

    /// What is kept of the line.
    pub fn octets(&self) -> &[u8]
        ensures { result.now ≡ self.now }
    {
        self.octets.as_slice()
    }

    /// Goes on with a part of the line. After want of memory the line is as before.
    pub fn push(&mut self, part: &[u8]) -> Result<(), Memory>
        ensures { self.new ≡ (if is_ok result then take 20001 (self.old ++ part.now) else self.old) }
    {
        let room = KEPT - self.octets.len();
        self.octets
            .extend_from_slice(&part[..room.min(part.len())])?;
        Ok(())
    }

    /// Goes on to the next line.
    pub fn clear(&mut self)
        ensures { self.new ≡ [] }
    {
        self.octets.clear();
    }
}
