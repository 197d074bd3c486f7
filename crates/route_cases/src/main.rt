//! Reads rows, each a name, a tab and a question, and prints what the parts of the route server answer.
//!
//! What is declared stands from one row to the next, until a row starts anew.
#![tactic(auto)]

mod choices;
mod names;
mod rules;
mod words;

use anyhow::Result;
use net_types::Memory;
use registry::Registry;
use std::alloc::Global;
use words::first_word;

fn answer(alloc: Global, names: &mut Registry, question: &str) -> Result<String, Memory> {
    let (word, rest) = first_word(question);
    match word {
        "new" => {
            *names = Registry::new(alloc);
            Ok(String::from_str(alloc, "nothing is declared")?)
        }
        "participant" => names::participant(alloc, names, rest),
        "octets" => names::octets(alloc, names, rest),
        "port" => names::port(alloc, names, rest),
        "taken" => names::taken(alloc, names, rest),
        "owns" => names::owns(alloc, names, rest),
        "find" => names::found(alloc, names.find(rest)),
        "ports" => names::ports(alloc, names, rest),
        "list" => names::list(alloc, names),
        "rules" => rules::read(alloc, rest),
        "bind" => rules::bound(alloc, names, rest),
        "allows" => rules::allowed(alloc, names, rest),
        "best" => choices::best_of(alloc, rest),
        _ => Ok(String::from_str(alloc, "no question")?),
    }
}

fn print_row(rt: &HostRuntime, names: &mut Registry, row: &str) -> Result<()> {
    let (name, question) = row.split_once('\t').unwrap_or(("", row));
    match answer(rt.alloc(), names, question) {
        Ok(text) => println!(rt; "{name}: {text}")?,
        Err(_) => println!(rt; "{name}: no memory")?,
    }
    Ok(())
}

fn main(rt: HostRuntime) -> Result<()> {
    let mut names = Registry::new(rt.alloc());
    for row in rt.lines(rt.alloc()) {
        let row = row?;
        print_row(&rt, &mut names, row.as_str())?;
    }
    Ok(())
}
