//! Reads rows, each a name, a tab and a line, and prints as what the line is read.
//!
//! A backslash and two hexadecimal digits in a row stand for an octet that can't be seen. With a tab and a number behind
//! the line its last octet stands so often.
#![tactic(auto)]

mod octets;
mod printing;

use anyhow::Result;
use net_types::Memory;
use octets::line_of;
use printing::push_event;
use replay_text::read_line;
use std::alloc::Global;

/// What the line of a row is read as.
fn event_text(alloc: Global, line: &str) -> Result<String, Memory> {
    let line = line_of(alloc, line)?;
    let event = read_line(alloc, line.as_slice())?;
    let mut text = String::new(alloc);
    push_event(&mut text, &event)?;
    Ok(text)
}

fn print_row(rt: &HostRuntime, row: &str) -> Result<()> {
    let Some((name, line)) = row.split_once('\t') else {
        println!(rt; "no row: {row}")?;
        return Ok(());
    };
    match event_text(rt.alloc(), line) {
        Ok(text) => println!(rt; "{name}: {text}")?,
        Err(_) => println!(rt; "{name}: no memory")?,
    }
    Ok(())
}

fn main(rt: HostRuntime) -> Result<()> {
    for row in rt.lines(rt.alloc()) {
        let row = row?;
        print_row(&rt, row.as_str())?;
    }
    Ok(())
}
