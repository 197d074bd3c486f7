//! A run over generated lines.
ghost use Rattle.std.specs.Prelude.{◌≡◌, ◌≤◌, ◌<◌, ◌+◌, ℕ, IfOk, OnOk, OnErr};
ghost use Rattle.events.specs.Lines.{event_of};
ghost use Rattle.events.specs.State.{first};
ghost use Rattle.replay_run.specs.Bounds.{line_bound};
ghost use Rattle.replay_run.specs.Causes.{Rose};
ghost use Rattle.replay_run.specs.Load.{CountsEvent, HasLoaded, Loaded, Loads};

use crate::Status;
use crate::outside::Sink;
use crate::progress::{done_or_refused, fault_status, write_all};
use crate::tally::{Tally, summary};
use job_laws::all_runs_go_on;
use load_gen::line;
use net_types::{Memory, Steps};
use replay_text::read_line;
use sdx_core::Sdx;
use std::alloc::Global;
use std::sync::ledger::Ledger;

/// The lines that declare the exchange, its participants and their ports.
const DECLARED: u64 = 17;

/// Runs one line on the exchange, and counts its reply.
fn count_line<L: Ledger>(
    alloc: Global,
    line: &[u8],
    tally: &mut Tally,
    sdx: &mut Sdx,
    steps: &mut Steps<L>,
) -> Result<(), Memory>
    ensures counted { OnOk result (CountsEvent (event_of line.now) sdx.old tally.old tally.new sdx.new) }
    ensures steps { steps.new ≤ steps.old + line_bound sdx.old (event_of line.now) }
{
    let Some(event) = read_line(alloc, line)? else {
        return Ok(());
    };
    let reply = sdx.step(&event, steps)?;
    *tally = tally.with(&reply);
    Ok(())
}

/// Runs the line of this number, and counts its reply.
fn run_generated<L: Ledger>(
    alloc: Global,
    seed: u64,
    number: u64,
    tally: &mut Tally,
    sdx: &mut Sdx,
    steps: &mut Steps<L>,
) -> Result<(), Memory>
    requires few { number < 1000017 }
    ensures ok { (before : ℕ) → Loaded seed number tally.old sdx.old before steps.old → OnOk result (Loaded seed (number + 1) tally.new sdx.new before steps.new) }
    ensures err { (before lines : ℕ) → number < lines → Loaded seed number tally.old sdx.old before steps.old → OnErr result (Loads seed lines before steps.new) }
{
    all_runs_go_on();
    let line = line(alloc, seed, number)?;
    count_line(alloc, line.as_slice(), tally, sdx, steps)
}

/// Runs the first lines of a seed, one after the other, and counts their replies.
fn run_lines<L: Ledger>(
    alloc: Global,
    seed: u64,
    lines: u64,
    sdx: &mut Sdx,
    steps: &mut Steps<L>,
) -> Result<Tally, Memory>
    requires first { sdx.old ≡ first }
    requires few { lines ≤ 1000017 }
    ensures ok { IfOk result (λ tally. Loaded seed lines tally sdx.new steps.old steps.new) }
    ensures err { OnErr result (Loads seed lines steps.old steps.new) }
{
    let mut tally = Tally::new();
    for number in 0..lines {
        run_generated(alloc, seed, number, &mut tally, sdx, steps)?;
    }
    Ok(tally)
}

/// Runs the declarations and so many lines that are drawn from the seed, and writes the summary of their replies.
pub fn load<K: Sink, L: Ledger>(
    alloc: Global,
    seed: u64,
    count: u64,
    sink: &mut K,
    sdx: &mut Sdx,
    steps: &mut Steps<L>,
) -> Status
    requires first { sdx.old ≡ first }
    requires few { count ≤ 1000000 }
    ensures load { HasLoaded result seed count (K.held sink.old) (K.held sink.new) sdx.new steps.old steps.new }
    ensures write { result ≡ Status.WriteFault → Rose (K.faults sink.old) (K.faults sink.new) }
{
    let lines = DECLARED + count;
    let Ok(tally) = run_lines(alloc, seed, lines, sdx, steps) else {
        return Status::Memory;
    };
    let rules = sdx.switch().rules();
    let Ok(text) = summary(alloc, lines, tally, sdx.live_tags(), rules) else {
        return Status::Memory;
    };
    match write_all(sink, text.as_bytes()) {
        Ok(()) => done_or_refused(tally.refused > 0),
        Err(fault) => fault_status(fault),
    }
}
