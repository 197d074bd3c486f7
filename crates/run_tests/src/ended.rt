//! How runs end, and what they write.
ghost use Rattle.std.specs.Prelude.{◌≡◌};

use crate::paced::{Pace, PacedSink, PacedSource};
use net_types::{Items, Memory, Steps, Text, Words};
use replay_run::{Sink, SinkOf, Source, SourceOf, Status, run};
use sdx_core::Sdx;
use std::alloc::Global;
use std::marker::Brand;
use std::sync::ledger::{Blank, Ledger};
use streams::{ReaderSource, WriterSink};

/// A run: the words of the program, what it reads, and the reads and writes that fail, by their numbers from 0.
#[derive(Clone, Copy)]
pub struct Given<'g> {
    pub words: &'g [&'g str],
    pub input: &'g [u8],
    pub failing_reads: &'g [u64],
    pub failing_writes: &'g [u64],
    pub pace: Pace,
}

impl<'g> Given<'g> {
    /// A run of `replay` over these octets, in which nothing fails.
    pub fn replay(input: &'g [u8]) -> Given<'g> {
        Given {
            words: &["replay"],
            input,
            failing_reads: &[],
            failing_writes: &[],
            pace: Pace::Whole,
        }
    }
}

/// How a run ended, and what it wrote.
#[derive(Drop)]
pub struct Ended {
    pub status: Status,
    pub output: Vec<u8>,
}

impl Ended {
    /// What it wrote but for the rules that are added, of which a policy leaves a choice.
    pub fn without_adds(&self, alloc: Global) -> Result<Vec<u8>, Memory> {
        let mut kept = Vec::new(alloc);
        for line in self.output.split_inclusive(|octet| *octet == b'\n') {
            if !line.starts_with(b"  add ") {
                kept.extend_from_slice(line)?;
            }
        }
        Ok(kept)
    }
}

fn words_of(alloc: Global, words: &[&str]) -> Result<Words, Memory> {
    let mut list = Items::new(alloc);
    for word in words {
        let text: Text = Items::from_vec(Vec::from_slice(alloc, word.as_bytes())?);
        list.push(text)?;
    }
    Ok(list)
}

fn source_of(alloc: Global, given: Given<'_>) -> Result<PacedSource, Memory> {
    let bytes = Vec::from_slice(alloc, given.input)?;
    let failing = Vec::from_slice(alloc, given.failing_reads)?;
    let source = SourceOf::new(bytes, failing);
    let pace = given.pace;
    Ok(PacedSource { source, pace })
}

fn sink_of(alloc: Global, given: Given<'_>) -> Result<PacedSink, Memory> {
    let failing = Vec::from_slice(alloc, given.failing_writes)?;
    let sink = SinkOf::new(alloc, failing);
    let pace = given.pace;
    Ok(PacedSink { sink, pace })
}

/// The status of a run on a new exchange.
fn status_of<S: Source, K: Sink, L: Ledger>(
    rt: &HostRuntime,
    blank: Blank,
    words: &Words,
    source: &mut S,
    sink: &mut K,
) -> Status
    requires name { blank.name ≡ L.name }
    requires parts { blank.parts ≡ L.parts }
    requires whole { blank.parts ≡ 1 }
{
    let mut steps: Steps<L> = Steps::new(rt, blank);
    let mut sdx = Sdx::new(rt.alloc());
    run(rt.alloc(), words, source, sink, &mut sdx, &mut steps)
}

/// How a run ends.
pub fn run_given(rt: &HostRuntime, given: Given<'_>) -> Result<Ended, Memory> {
    let words = words_of(rt.alloc(), given.words)?;
    let mut source = source_of(rt.alloc(), given)?;
    let mut sink = sink_of(rt.alloc(), given)?;
    let status = status_of::<PacedSource, PacedSink, Brand>(
        rt,
        Blank::new(1),
        &words,
        &mut source,
        &mut sink,
    );
    let output = Vec::from_slice(rt.alloc(), sink.sink.bytes())?;
    Ok(Ended { status, output })
}

/// How a run of `replay` over a reader and a writer of std ends.
pub fn over_streams(rt: &HostRuntime, input: &[u8]) -> Result<Ended, Memory> {
    let words = words_of(rt.alloc(), &["replay"])?;
    let mut source = ReaderSource::new(input);
    let mut sink = WriterSink::new(Vec::new(rt.alloc()));
    let status = status_of::<ReaderSource<&[u8]>, WriterSink<Vec<u8>>, Brand>(
        rt,
        Blank::new(1),
        &words,
        &mut source,
        &mut sink,
    );
    let output = sink.into_writer();
    Ok(Ended { status, output })
}
