//! What lines are answered, and how the run ends.

use net_types::Memory;
use replay_run::Status;
use run_tests::{Ended, Given, Pace, run_given};
use std::alloc::Global;

/// Whether the rules that are added are shown, too.
#[derive(Clone, Copy, PartialEq, Eq)]
pub enum Adds {
    Shown,
    LeftOut,
}

fn said(status: Status) -> &'static str {
    match status {
        Status::Done => "done",
        Status::Refused => "refused",
        _ => "failed",
    }
}

/// Octets as text behind an earlier one.
fn push_octets(text: &mut String, octets: &[u8]) -> Result<(), Memory> {
    for octet in octets {
        text.push(char::from(*octet))?;
    }
    Ok(())
}

/// What a run wrote, and how it ended.
fn told(alloc: Global, ended: &Ended, adds: Adds) -> Result<String, Memory> {
    let mut text = String::new(alloc);
    match adds {
        Adds::Shown => push_octets(&mut text, &ended.output)?,
        Adds::LeftOut => push_octets(&mut text, &ended.without_adds(alloc)?)?,
    }
    text.push_str("== ")?;
    text.push_str(said(ended.status))?;
    Ok(text)
}

/// Whether the run does the same octet by octet.
fn is_same_by_octets(rt: &HostRuntime, lines: &[u8], whole: &Ended) -> Result<bool, Memory> {
    let given = Given {
        pace: Pace::Octet,
        ..Given::replay(lines)
    };
    let slow = run_given(rt, given)?;
    Ok(slow.status == whole.status && slow.output == whole.output)
}

/// What the lines are answered, and how their run ends.
pub fn answer(rt: &HostRuntime, lines: &[u8], adds: Adds) -> Result<String, Memory> {
    let whole = run_given(rt, Given::replay(lines))?;
    let text = told(rt.alloc(), &whole, adds)?;
    if is_same_by_octets(rt, lines, &whole)? {
        return Ok(text);
    }
    Ok(String::from_str(rt.alloc(), "another run octet by octet")?)
}
