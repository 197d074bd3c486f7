//! Reads rows, each a name, a tab and updates of participants or names of A's policy, and prints what they touch at a route
//! server.
//!
//! A has the port 1, B the ports 2 and 3, and C the port 4.
#![tactic(auto)]

mod exchange;
mod rows;
mod said;
mod told;
mod wrong;

use anyhow::Result;
use exchange::{after, bests_after, closed, down, named};
use rows::{first_word, said, who};
use std::alloc::Global;
use wrong::Wrong;

fn answer(alloc: Global, question: &str) -> std::result::Result<String, Wrong> {
    let (word, rest) = first_word(question);
    match word {
        "after" => {
            let (first, then) = rest.split_once(" | ").unwrap_or((rest, ""));
            after(alloc, said(first), said(then))
        }
        "bests" => {
            let (name, rest) = first_word(rest);
            bests_after(alloc, said(rest), who(name))
        }
        "down" => down(alloc, said(rest)),
        "named" => {
            let (before, rest) = first_word(rest);
            let (now, rest) = first_word(rest);
            let (first, then) = rest.split_once(" | ").unwrap_or((rest, ""));
            named(alloc, said(first), said(then), before, now)
        }
        "closed" => closed(alloc, said(rest)),
        _ => Err(Wrong::Row),
    }
}

fn print_row(rt: &HostRuntime, row: &str) -> Result<()> {
    let (name, question) = row.split_once('\t').unwrap_or(("", row));
    match answer(rt.alloc(), question) {
        Ok(text) => println!(rt; "{name}: {text}")?,
        Err(Wrong::Row) => println!(rt; "{name}: no question")?,
        Err(Wrong::Memory) => println!(rt; "{name}: no memory")?,
    }
    Ok(())
}

fn main(rt: HostRuntime) -> Result<()> {
    for row in rt.lines(rt.alloc()) {
        let row = row?;
        print_row(&rt, row.as_str())?;
    }
    Ok(())
}
