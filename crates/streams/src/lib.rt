//! Readers and writers of std as the source and the sink of a run, and its status as a number.
#![tactic(auto)]

mod exit;
mod reader;
#[cfg(test)]
mod tests;
mod writer;

pub use exit::exit_code;
pub use reader::{ReaderSource, SteadyReader};
pub use writer::{SteadyWriter, WriterSink};
