//! Reads rows, each a name, a tab and a question to a background job, and prints the answers.
//!
//! There are two desks, each with classes and a table, as they are before lines and after them. What a row changes on a desk
//! stands for the next ones. Prefixes of 8 bits are written by their first octets, and pairs as `PORT:TAG`.
#![tactic(auto)]

ghost use Rattle.std.specs.Prelude.{◌≡◌};

mod desk;
mod jobs;
mod offered;
mod words;
mod wrong;

use anyhow::Result;
use desk::Desk;
use net_types::Steps;
use std::alloc::Global;
use std::marker::Brand;
use std::sync::ledger::{Blank, Ledger};
use words::first_word;
use wrong::Wrong;

/// The desks.
#[derive(Drop)]
struct Desks {
    before: Desk,
    after: Desk,
}

fn on_desk<L: Ledger>(
    alloc: Global,
    desk: &mut Desk,
    question: &str,
    steps: &mut Steps<L>,
) -> std::result::Result<String, Wrong> {
    let (word, rest) = first_word(question);
    match word {
        "new" => {
            *desk = Desk::new(alloc);
            desk.size(alloc)
        }
        "size" => desk.size(alloc),
        "give" => desk.give(alloc, rest),
        "forget" => desk.forget(alloc, rest),
        "put" => desk.put(alloc, rest, steps),
        "fill" => desk.fill(alloc, rest, steps),
        "next" => desk.next(alloc, rest),
        "job" => jobs::alone(alloc, desk, rest, steps),
        _ => Err(Wrong::Row),
    }
}

impl Desks {
    fn answer<L: Ledger>(
        &mut self,
        alloc: Global,
        question: &str,
        steps: &mut Steps<L>,
    ) -> std::result::Result<String, Wrong> {
        let (word, rest) = first_word(question);
        match word {
            "before" => on_desk(alloc, &mut self.before, rest, steps),
            "after" => on_desk(alloc, &mut self.after, rest, steps),
            "job" => jobs::through(alloc, &self.before, &self.after, rest, steps),
            _ => Err(Wrong::Row),
        }
    }
}

fn print_row<L: Ledger>(
    rt: &HostRuntime,
    desks: &mut Desks,
    row: &str,
    steps: &mut Steps<L>,
) -> Result<()> {
    let (name, question) = row.split_once('\t').unwrap_or(("", row));
    match desks.answer(rt.alloc(), question, steps) {
        Ok(text) => println!(rt; "{name}: {text}")?,
        Err(Wrong::Row) => println!(rt; "{name}: no question")?,
        Err(Wrong::Memory) => println!(rt; "{name}: no memory")?,
    }
    Ok(())
}

fn start<L: Ledger>(rt: &HostRuntime, blank: Blank) -> Result<()>
    requires name { blank.name ≡ L.name }
    requires parts { blank.parts ≡ L.parts }
    requires whole { blank.parts ≡ 1 }
{
    let mut steps: Steps<L> = Steps::new(rt, blank);
    let mut desks = Desks {
        before: Desk::new(rt.alloc()),
        after: Desk::new(rt.alloc()),
    };
    for row in rt.lines(rt.alloc()) {
        let row = row?;
        print_row(rt, &mut desks, row.as_str(), &mut steps)?;
    }
    Ok(())
}

fn main(rt: HostRuntime) -> Result<()> {
    start::<Brand>(&rt, Blank::new(1))
}
