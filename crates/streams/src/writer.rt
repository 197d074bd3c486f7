//! A writer as the sink of a run.
ghost use Rattle.std.specs.Prelude.{◌≡◌, ◌<◌, is_some, is_err, length, refl, IfOk, IfErr};
ghost use Rattle.std.specs.Io.{WritesAtMost};
ghost use Rattle.std.specs.Io.KnownBytes.{WriteAppends};
ghost use Rattle.replay_run.specs.Causes.{HasSinkCause};
ghost use Rattle.streams.specs.Told.{Told, counted};

use replay_run::{Sink, SinkFault};
use std::io::{Stdout, Write};
use std::marker::Model;

/// A writer that tells the bytes that it holds at all times, or at none.
pub trait SteadyWriter: Write {
    ghost steady: { (before after : Self) → is_some (Self.contents before) ≡ is_some (Self.contents after) };
}

impl SteadyWriter for Stdout {
    ghost steady = { λ _ _. refl };
}

impl SteadyWriter for Vec<u8> {
    ghost steady = { λ _ _. refl };
}

/// A writer as a sink, which counts its faults. Contracts see the bytes that the writer tells.
#[derive(Drop)]
pub struct WriterSink<W: SteadyWriter> {
    writer: W,
    faults: u64,
}

impl<W: SteadyWriter> Model for WriterSink<W> {
    ghost Value = { Told };

    ghost view = { λ s. record { bytes = W.contents s.writer; faults = s.faults } };
}

impl<W: SteadyWriter> WriterSink<W> {
    /// A sink that writes to the writer. No fault is counted at first.
    pub fn new(writer: W) -> WriterSink<W>
        ensures { result ≡ record { bytes = W.contents writer; faults = 0 } }
    {
        WriterSink { writer, faults: 0 }
    }

    /// The writer.
    pub fn into_writer(self) -> W
        ensures { W.contents result ≡ self.bytes }
    {
        self.writer
    }
}

impl<W: SteadyWriter> Sink for WriterSink<W> {
    ghost held = { λ s. s.bytes };

    ghost faults = { λ s. s.faults };

    /// A write that takes nothing of a piece is a fault.
    fn write(&mut self, piece: &[u8]) -> Result<usize, SinkFault>
        ensures bound { WritesAtMost result piece.now }
        ensures some { IfOk result (λ n. 0 < length piece.now → 0 < n) }
        ensures failed { IfErr result (λ fault. fault ≡ SinkFault.Failed) }
        ensures bytes { WriteAppends self.old.bytes self.new.bytes result piece.now }
        ensures telling { is_some self.new.bytes ≡ is_some self.old.bytes }
        ensures cause { HasSinkCause self.old.faults self.new.faults result }
        // Each fault is counted, and nothing else.
        ensures counted { self.new.faults ≡ counted (is_err result) self.old.faults }
    {
        match self.writer.write(piece) {
            Ok(count) if count > 0 || piece.is_empty() => Ok(count),
            _ => {
                self.faults = self.faults.saturating_add(1);
                Err(SinkFault::Failed)
            }
        }
    }
}
