//! Fills a frame of 42 octets from its front.

ghost use Rattle.std.specs.Prelude.{◌≡◌, ◌+◌, ◌≤◌, ◌++◌, [], List, ℕ, length, take};

use std::marker::Model;

/// The octets written so far.
#[derive(Drop)]
pub(crate) struct Writer {
    octets: [u8; 42],
    len: usize,
    ghost within: { len ≤ 42 },
}

impl Model for Writer {
    ghost Value = { List ℕ };

    ghost view = { λ a. take a.len a.octets };
}

impl Writer {
    pub(crate) fn new() -> Writer
        ensures { result ≡ [] }
    {
        Writer {
            octets: [0; 42],
            len: 0,
        }
    }

    /// Writes behind what is there.
    pub(crate) fn put(mut self, part: &[u8]) -> Writer
        requires { length self + length part.now ≤ 42 }
        ensures { result ≡ self ++ part.now }
    {
        let start = self.len;
        let end = start + part.len();
        self.octets[start..end].copy_from_slice(part);
        self.len = end;
        self
    }

    /// The whole frame.
    pub(crate) fn finish(self) -> [u8; 42]
        requires { length self ≡ 42 }
        ensures { result ≡ self }
    {
        self.octets
    }
}
