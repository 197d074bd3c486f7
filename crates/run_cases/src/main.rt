//! Reads cases, each a row `% NAME`, lines of an exchange and a row that ends it, and prints what the lines are answered and
//! how the run ends.
//!
//! Behind a row `==` all is printed. Behind a row `=-` the replies' lines `add` are left out, since policies that test leave
//! a choice of the rules. Each case is a run on an exchange of its own, and is run octet by octet, too: where that writes
//! something else or ends otherwise, it is said in place of the replies.
#![tactic(auto)]

mod cases;

use anyhow::Result;
use cases::{Adds, answer};

fn print_case(rt: &HostRuntime, lines: &str, adds: Adds) -> Result<()> {
    match answer(rt, lines.as_bytes(), adds) {
        Ok(text) => println!(rt; "{text}")?,
        Err(_) => println!(rt; "no memory")?,
    }
    Ok(())
}

/// Prints the name of a case, puts a line behind those before it, or runs them.
fn take_row(rt: &HostRuntime, lines: &mut String, row: &str) -> Result<()> {
    match row {
        "==" => {
            print_case(rt, lines.as_str(), Adds::Shown)?;
            lines.clear();
        }
        "=-" => {
            print_case(rt, lines.as_str(), Adds::LeftOut)?;
            lines.clear();
        }
        _ if row.starts_with("% ") => println!(rt; "{row}")?,
        _ => {
            lines.push_str(row)?;
            lines.push('\n')?;
        }
    }
    Ok(())
}

fn main(rt: HostRuntime) -> Result<()> {
    let mut lines = String::new(rt.alloc());
    for row in rt.lines(rt.alloc()) {
        let row = row?;
        take_row(&rt, &mut lines, row.as_str())?;
    }
    Ok(())
}
