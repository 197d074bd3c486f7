//! A reader as the source of a run.
ghost use Rattle.std.specs.Prelude.{◌≡◌, is_some, is_err, refl};
ghost use Rattle.std.specs.Io.{ReadsAtMost};
ghost use Rattle.std.specs.Io.KnownBytes.{ReadConsumes};
ghost use Rattle.replay_run.specs.Causes.{HasCause};
ghost use Rattle.streams.specs.Told.{Told, counted};

use replay_run::{Failed, Source};
use std::io::{Read, Stdin};
use std::marker::Model;

/// A reader that tells the bytes that are left at all times, or at none.
pub trait SteadyReader: Read {
    ghost steady: { (before after : Self) → is_some (Self.remaining before) ≡ is_some (Self.remaining after) };
}

impl SteadyReader for Stdin {
    ghost steady = { λ _ _. refl };
}

impl SteadyReader for &[u8] {
    ghost steady = { λ _ _. refl };
}

/// A reader as a source, which counts its faults. Contracts see the bytes that the reader tells.
#[derive(Drop)]
pub struct ReaderSource<R: SteadyReader> {
    reader: R,
    faults: u64,
}

impl<R: SteadyReader> Model for ReaderSource<R> {
    ghost Value = { Told };

    ghost view = { λ s. record { bytes = R.remaining s.reader; faults = s.faults } };
}

impl<R: SteadyReader> ReaderSource<R> {
    /// A source of what the reader gives. No fault is counted at first.
    pub fn new(reader: R) -> ReaderSource<R>
        ensures { result ≡ record { bytes = R.remaining reader; faults = 0 } }
    {
        ReaderSource { reader, faults: 0 }
    }
}

impl<R: SteadyReader> Source for ReaderSource<R> {
    ghost left = { λ s. s.bytes };

    ghost faults = { λ s. s.faults };

    fn read(&mut self, buf: &mut [u8]) -> Result<usize, Failed>
        ensures bound { ReadsAtMost result buf.new }
        ensures bytes { ReadConsumes self.old.bytes self.new.bytes result buf.new }
        ensures telling { is_some self.new.bytes ≡ is_some self.old.bytes }
        ensures cause { HasCause self.old.faults self.new.faults result }
        // Each fault is counted, and nothing else.
        ensures counted { self.new.faults ≡ counted (is_err result) self.old.faults }
    {
        match self.reader.read(buf) {
            Ok(count) => Ok(count),
            Err(_) => {
                self.faults = self.faults.saturating_add(1);
                Err(Failed)
            }
        }
    }
}
