//! Reads rows, each a name, a tab and a question to the table of a switch, and prints the answers.
//!
//! The table stands from one row to the next. A, B, C and D have the ports 1, 2, 3 and 4, whose routers have the MACs
//! 02:00:00:00:00:01 to 02:00:00:00:00:04. A row gives a port and a tag, the offers by which A sends, and policies:
//! `put 1 7 B 2, C 3 hole; out POLICY; in B POLICY`.
#![tactic(auto)]

ghost use Rattle.std.specs.Prelude.{◌≡◌};

mod asked;
mod building;
mod declared;
mod fault;
mod flows;
mod frames;
mod policies;
mod table;

use anyhow::Result;
use fault::Fault;
use match_switch::Switch;
use net_types::Steps;
use registry::Registry;
use std::alloc::Global;
use std::marker::Brand;
use std::sync::ledger::{Blank, Ledger};

fn answer<L: Ledger>(
    alloc: Global,
    names: &Registry,
    switch: &mut Switch,
    question: &str,
    steps: &mut Steps<L>,
) -> Result<String, Fault> {
    let (word, rest) = question.split_once(' ').unwrap_or((question, ""));
    match word {
        "put" => table::put(alloc, names, switch, rest, steps),
        "swap" => table::swap(alloc, names, switch, rest, steps),
        "drop" => table::leave(alloc, switch, rest),
        "rules" => table::rules(alloc, switch, rest),
        "next" => table::next(alloc, switch, rest),
        "room" => table::room(alloc, switch),
        "table" => table::table(alloc, switch, rest),
        "build" => table::build(alloc, names, rest, steps),
        "tight" => table::tight(alloc, names, rest, steps),
        "decide" => Ok(frames::decided(alloc, switch, rest)?),
        "frame" => Ok(frames::forwarded(alloc, names, switch, rest)?),
        _ => Ok(String::from_str(alloc, "no question")?),
    }
}

fn print_row<L: Ledger>(
    rt: &HostRuntime,
    names: &Registry,
    switch: &mut Switch,
    row: &str,
    steps: &mut Steps<L>,
) -> Result<()> {
    let (name, question) = row.split_once('\t').unwrap_or(("", row));
    match answer(rt.alloc(), names, switch, question, steps) {
        Ok(text) => println!(rt; "{name}: {text}")?,
        Err(Fault::Policy) => println!(rt; "{name}: no policy")?,
        Err(Fault::Offers) => println!(rt; "{name}: no offers")?,
        Err(Fault::Wide { rules }) => println!(rt; "{name}: wide {rules}")?,
        Err(Fault::TableFull { rules, capacity }) => {
            println!(rt; "{name}: table-full {rules} {capacity}")?
        }
        Err(Fault::Memory) => println!(rt; "{name}: no memory")?,
    }
    Ok(())
}

fn start<L: Ledger>(rt: &HostRuntime, blank: Blank) -> Result<()>
    requires name { blank.name ≡ L.name }
    requires parts { blank.parts ≡ L.parts }
    requires whole { blank.parts ≡ 1 }
{
    let mut steps: Steps<L> = Steps::new(rt, blank);
    let Ok(names) = declared::four(rt.alloc()) else {
        println!(rt; "the participants are not declared")?;
        return Ok(());
    };
    let mut switch = Switch::new(rt.alloc(), 10);
    for row in rt.lines(rt.alloc()) {
        let row = row?;
        print_row(rt, &names, &mut switch, row.as_str(), &mut steps)?;
    }
    Ok(())
}

fn main(rt: HostRuntime) -> Result<()> {
    start::<Brand>(&rt, Blank::new(1))
}
