//! Reads rows, each a name, a tab and a question, and prints replies as text.
//!
//! A row `head HEAD` is a reply without details. Rows `tag`, `drop`, `add`, `advert`, `ask`, `answer` and `out` put
//! details into one that stands from row to row, until `write N` or `table N` prints it as that to line N, and it begins anew.
#![tactic(auto)]

mod details;
mod heads;
mod rules;
mod words;

use anyhow::Result;
use details::none;
use events::{Event, Head, Reply};
use net_types::{Memory, PortNo};
use replay_text::write_reply;
use std::alloc::Global;
use words::first_word;

/// The text of a reply to a line.
fn written(alloc: Global, line: u32, event: &Event, reply: &Reply) -> Result<String, Memory> {
    let mut text = String::new(alloc);
    for octet in write_reply(alloc, line, event, reply)?.items() {
        text.push(char::from(*octet))?;
    }
    Ok(text)
}

/// A reply without details to the last of all lines.
fn headed(alloc: Global, text: &str) -> Result<String, Memory> {
    let reply = none(alloc, heads::head(alloc, text)?);
    written(alloc, u32::MAX, &Event::Bad, &reply)
}

/// The reply with its details. It begins anew.
fn finished(alloc: Global, reply: &mut Reply, event: &Event, line: &str) -> Result<String, Memory> {
    let text = written(alloc, line.parse().unwrap_or(0), event, reply)?;
    *reply = none(alloc, Head::Fine);
    Ok(text)
}

fn answer(alloc: Global, reply: &mut Reply, question: &str) -> Result<String, Memory> {
    let (word, rest) = first_word(question);
    match word {
        "head" => headed(alloc, rest),
        "write" => finished(alloc, reply, &Event::Resolve { port: PortNo(1) }, rest),
        "table" => finished(alloc, reply, &Event::Table, rest),
        _ => {
            details::put(alloc, reply, word, rest)?;
            Ok(String::from_str(alloc, "put in")?)
        }
    }
}

fn print_row(rt: &HostRuntime, reply: &mut Reply, row: &str) -> Result<()> {
    let (name, question) = row.split_once('\t').unwrap_or(("", row));
    match answer(rt.alloc(), reply, question) {
        Ok(text) => println!(rt; "{name}: {text}")?,
        Err(_) => println!(rt; "{name}: no memory")?,
    }
    Ok(())
}

fn main(rt: HostRuntime) -> Result<()> {
    let mut reply = none(rt.alloc(), Head::Fine);
    for row in rt.lines(rt.alloc()) {
        let row = row?;
        print_row(&rt, &mut reply, row.as_str())?;
    }
    Ok(())
}
