//! Reads rows, each a name, a tab and a question, and prints what the codecs and frames answer.
//!
//! Octets are hexadecimal digits, with spaces between them where they please; `M` stands for the sixteen octets of a marker.
//! What a router heard stands from one row to the next, until a row `router` starts anew.
#![tactic(auto)]

mod datagrams;
mod fields;
mod octets;
mod requests;
mod routers;
mod updates;
mod wide;
mod words;

use anyhow::Result;
use border_router::Router;
use net_types::Memory;
use std::alloc::Global;
use words::first_word;

fn answer(alloc: Global, router: &mut Router, question: &str) -> Result<String, Memory> {
    let (word, rest) = first_word(question);
    match word {
        "update" => updates::answer(alloc, rest),
        "copy" => updates::copied(alloc, rest),
        "fields" => fields::answer(alloc, rest),
        "beside" => updates::beside(alloc, rest),
        "flags" => updates::flags(alloc, rest),
        "announce" => updates::announced(alloc, rest),
        "withdraw" => updates::withdrawn(alloc, rest),
        "sequences" => wide::sequences(alloc, rest),
        "asked" => requests::asked(alloc, rest),
        "asked-cuts" => requests::cuts(alloc, rest),
        "ask" => requests::written(alloc, rest),
        "reply" => requests::replied(alloc, rest),
        "wrap" => datagrams::wrapped(alloc, rest),
        "headers" => datagrams::found(alloc, rest),
        "headers-cuts" => datagrams::cuts(alloc, rest),
        "rewrite" => datagrams::rewritten(alloc, rest),
        _ => routers::answer(alloc, router, question),
    }
}

fn print_row(rt: &HostRuntime, router: &mut Router, row: &str) -> Result<()> {
    let (name, question) = row.split_once('\t').unwrap_or(("", row));
    match answer(rt.alloc(), router, question) {
        Ok(text) => println!(rt; "{name}: {text}")?,
        Err(_) => println!(rt; "{name}: no memory")?,
    }
    Ok(())
}

fn main(rt: HostRuntime) -> Result<()> {
    let mut router = routers::unheard(rt.alloc());
    for row in rt.lines(rt.alloc()) {
        let row = row?;
        print_row(&rt, &mut router, row.as_str())?;
    }
    Ok(())
}
