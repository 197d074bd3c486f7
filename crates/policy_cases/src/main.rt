//! Reads rows, each a name, a tab and a question about policies, and prints the answers.
//!
//! A has port 1, B the ports 2 and 3, C port 4. A text is read, printed, kept apart, measured or compiled; a classifier is
//! made by words, each of which takes what those before it made: `dport=80 to=2 sequence`.
#![tactic(auto)]

ghost use Rattle.std.specs.Prelude.{◌≡◌};

mod blocks;
mod classifiers;
mod declared;
mod isolation;
mod packets;
mod said;
mod texts;
mod widths;
mod words;

use anyhow::Result;
use net_types::{Memory, Steps};
use std::alloc::Global;
use std::marker::Brand;
use std::sync::ledger::{Blank, Ledger};
use words::first_word;

fn answer<L: Ledger>(
    alloc: Global,
    question: &str,
    steps: &mut Steps<L>,
) -> Result<String, Memory> {
    let (word, rest) = first_word(question);
    match word {
        "read" => texts::read(alloc, rest),
        "spaces" => texts::spaces(alloc, rest),
        "print" => texts::printed(alloc, rest),
        "tree" => texts::grouped(alloc, rest),
        "out" => isolation::outbound(alloc, rest),
        "in" => isolation::inbound(alloc, rest),
        "names" => isolation::names(alloc, rest),
        "meets" => widths::meets(alloc, rest),
        "wide" => widths::wide(alloc, rest),
        "results" => packets::results(alloc, rest),
        "packets" => packets::packets(alloc, rest),
        "rules" => classifiers::rules(alloc, rest),
        "gives" => classifiers::gives(alloc, rest),
        "build" => blocks::built(alloc, rest, steps),
        _ => Ok(String::from_str(alloc, "no question")?),
    }
}

fn print_row<L: Ledger>(rt: &HostRuntime, row: &str, steps: &mut Steps<L>) -> Result<()> {
    let (name, question) = row.split_once('\t').unwrap_or(("", row));
    match answer(rt.alloc(), question, steps) {
        Ok(text) => println!(rt; "{name}: {text}")?,
        Err(_) => println!(rt; "{name}: no memory")?,
    }
    Ok(())
}

fn start<L: Ledger>(rt: &HostRuntime, blank: Blank) -> Result<()>
    requires name { blank.name ≡ L.name }
    requires parts { blank.parts ≡ L.parts }
    requires whole { blank.parts ≡ 1 }
{
    let mut steps: Steps<L> = Steps::new(rt, blank);
    for row in rt.lines(rt.alloc()) {
        let row = row?;
        print_row(rt, row.as_str(), &mut steps)?;
    }
    Ok(())
}

fn main(rt: HostRuntime) -> Result<()> {
    start::<Brand>(&rt, Blank::new(1))
}
