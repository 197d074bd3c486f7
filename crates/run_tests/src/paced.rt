//! A source and a sink in memory that give and take all that there is room for, or an octet at a time.
ghost use Rattle.std.specs.Prelude.{Some};

use replay_run::{Failed, Sink, SinkFault, SinkOf, Source, SourceOf};

/// How much a call gives or takes at most.
#[derive(Clone, Copy, Debug, PartialEq, Eq)]
pub enum Pace {
    /// All that there is room for.
    Whole,
    /// One octet.
    Octet,
}

#[derive(Drop)]
pub struct PacedSource {
    pub source: SourceOf,
    pub pace: Pace,
}

impl Source for PacedSource {
    ghost left = { λ s. Some s.source.bytes };

    ghost faults = { λ s. s.source.faults };

    fn read(&mut self, buf: &mut [u8]) -> Result<usize, Failed> {
        match self.pace {
            Pace::Whole => self.source.read(buf),
            Pace::Octet => {
                let room = buf.len().min(1);
                self.source.read(&mut buf[..room])
            }
        }
    }
}

#[derive(Drop)]
pub struct PacedSink {
    pub sink: SinkOf,
    pub pace: Pace,
}

impl Sink for PacedSink {
    ghost held = { λ s. Some s.sink.bytes };

    ghost faults = { λ s. s.sink.faults };

    fn write(&mut self, piece: &[u8]) -> Result<usize, SinkFault> {
        match self.pace {
            Pace::Whole => self.sink.write(piece),
            Pace::Octet => self.sink.write(&piece[..piece.len().min(1)]),
        }
    }
}
