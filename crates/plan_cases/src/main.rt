//! Reads rows, each a name, a tab, how many tags there are, for how many rules there is room, and lines, with bars between
//! them, and prints what is planned and committed, from where nobody announced anything on and all policies drop.
//!
//! A has the port 1, B the ports 2 and 3, and C the port 4. A line is a participant with its UPDATE, `out` or `in` with a
//! participant and its policy, `take` with a participant that was told nothing and takes all that is pending, or `table`,
//! which asks for the table. Octets are hexadecimal digits, with spaces between them where they please; `M` stands for the
//! sixteen octets of a marker. Pairs are written as `PORT:TAG`.
#![tactic(auto)]

ghost use Rattle.std.specs.Prelude.{◌≡◌};

mod declared;
mod parts;
mod policies;
mod programs;
mod rebuilt;
mod request;
mod told;
mod words;
mod wrong;

use anyhow::Result;
use net_types::{Pid, Steps};
use parts::Parts;
use std::alloc::Global;
use std::marker::Brand;
use std::sync::ledger::{Blank, Ledger};
use told::taken;
use words::{first_number, first_word, octets, who};
use wrong::Wrong;

/// Three participants, none of which announced anything, so many tags, and room for so many rules.
fn begun(alloc: Global, size: u32, capacity: u32) -> std::result::Result<Parts, Wrong> {
    if size == 0 || size > 65536 {
        return Err(Wrong::Row);
    }
    if capacity > 1000000 {
        return Err(Wrong::Row);
    }
    Parts::new(alloc, size, capacity as usize)
}

/// What the plan of a participant's UPDATE says; the octets stand in the text.
fn updated<L: Ledger>(
    alloc: Global,
    parts: &mut Parts,
    from: Pid,
    digits: &str,
    steps: &mut Steps<L>,
) -> std::result::Result<String, Wrong> {
    let message = octets(alloc, digits)?;
    parts.update(alloc, from, message.as_slice(), steps)
}

/// What the plan of another outbound policy says; the participant's letter and the policy stand in the text.
fn sent<L: Ledger>(
    alloc: Global,
    parts: &mut Parts,
    text: &str,
    steps: &mut Steps<L>,
) -> std::result::Result<String, Wrong> {
    let (letter, policy) = first_word(text);
    parts.send(alloc, who(letter)?, policy, steps)
}

/// What the plan of another inbound policy says.
fn received<L: Ledger>(
    alloc: Global,
    parts: &mut Parts,
    text: &str,
    steps: &mut Steps<L>,
) -> std::result::Result<String, Wrong> {
    let (letter, policy) = first_word(text);
    parts.receive(alloc, who(letter)?, policy, steps)
}

/// What a participant that was told nothing takes; its letter is the text.
fn took(alloc: Global, parts: &mut Parts, letter: &str) -> std::result::Result<String, Wrong> {
    let tags = parts.take(who(letter)?)?;
    Ok(taken(alloc, &tags)?)
}

/// What the plan of a line says, what a participant takes, or what is in the table.
fn planned<L: Ledger>(
    alloc: Global,
    parts: &mut Parts,
    line: &str,
    steps: &mut Steps<L>,
) -> std::result::Result<String, Wrong> {
    let (word, rest) = first_word(line);
    match word {
        "table" => Ok(parts.table(alloc)?),
        "take" => took(alloc, parts, rest),
        "out" => sent(alloc, parts, rest, steps),
        "in" => received(alloc, parts, rest, steps),
        _ => updated(alloc, parts, who(word)?, rest, steps),
    }
}

/// Puts what is planned and committed of a line behind a text, and a bar before it where it isn't the first.
fn say<L: Ledger>(
    alloc: Global,
    parts: &mut Parts,
    line: &str,
    text: &mut String,
    steps: &mut Steps<L>,
) -> std::result::Result<(), Wrong> {
    let said = planned(alloc, parts, line, steps)?;
    if !text.is_empty() {
        text.push_str(" | ")?;
    }
    text.push_str(said.as_str())?;
    Ok(())
}

/// What is planned and committed of lines one after the other; they stand in the text with bars between them.
fn all<L: Ledger>(
    alloc: Global,
    parts: &mut Parts,
    lines: &str,
    steps: &mut Steps<L>,
) -> std::result::Result<String, Wrong> {
    let mut text = String::new(alloc);
    for line in lines.split('|') {
        say(alloc, parts, line, &mut text, steps)?;
    }
    Ok(text)
}

/// What is planned and committed from where nobody announced anything on.
fn answer<L: Ledger>(
    alloc: Global,
    question: &str,
    steps: &mut Steps<L>,
) -> std::result::Result<String, Wrong> {
    let (size, rest) = first_number(question)?;
    let (capacity, rest) = first_number(rest)?;
    let mut parts = begun(alloc, size, capacity)?;
    all(alloc, &mut parts, rest, steps)
}

fn print_row<L: Ledger>(rt: &HostRuntime, row: &str, steps: &mut Steps<L>) -> Result<()> {
    let (name, question) = row.split_once('\t').unwrap_or(("", row));
    match answer(rt.alloc(), question, steps) {
        Ok(text) => println!(rt; "{name}: {text}")?,
        Err(Wrong::Row) => println!(rt; "{name}: no question")?,
        Err(Wrong::Memory) => println!(rt; "{name}: no memory")?,
    }
    Ok(())
}

fn start<L: Ledger>(rt: &HostRuntime, blank: Blank) -> Result<()>
    requires name { blank.name ≡ L.name }
    requires parts { blank.parts ≡ L.parts }
    requires whole { blank.parts ≡ 1 }
{
    let mut steps: Steps<L> = Steps::new(rt, blank);
    for row in rt.lines(rt.alloc()) {
        let row = row?;
        print_row(rt, row.as_str(), &mut steps)?;
    }
    Ok(())
}

fn main(rt: HostRuntime) -> Result<()> {
    start::<Brand>(&rt, Blank::new(1))
}
