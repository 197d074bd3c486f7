//! An exchange that grows by one update after another, and a job that makes it small again.

use crate::{Given, run_given};
use net_types::Memory;
use replay_run::Status;
use std::alloc::Global;
use std::test::Fail;

/// So many prefixes, each announced by an update of its own.
const PREFIXES: u32 = 20000;

/// A pool and a table that are large enough, and A, B and C.
const DECLARED: &str = "\
exchange 100.64.0.0 65536 1000000
participant A 65001 1.0.0.1
participant B 65002 1.0.0.2
participant C 65003 1.0.0.3
port A 1 172.16.1.1 02:00:00:00:00:01
port B 2 172.16.1.2 02:00:00:00:00:02
port B 3 172.16.1.3 02:00:00:00:00:03
port C 4 172.16.1.4 02:00:00:00:00:04
";

/// B's UPDATE up to the number of its prefix 10.X.Y.0/24.
const UPDATE: &str =
    "update B ffffffffffffffffffffffffffffffff002d0200000012400101004002040201fdea400304ac10010218";

/// The declarations, the updates, and a job of as many units as it owes.
fn lines(alloc: Global) -> Result<String, Memory> {
    let mut lines = String::new(alloc);
    lines.push_str(DECLARED)?;
    for number in 0..PREFIXES {
        write!(lines, "{UPDATE}0a{number:04x}\n")?;
    }
    lines.push_str("recompile\nwork 60000\ntable\n")?;
    Ok(lines)
}

/// The prefix of a number.
fn prefix(alloc: Global, number: u32) -> Result<String, Memory> {
    let mut text = String::new(alloc);
    let high = number / 256;
    let low = number % 256;
    write!(text, "10.{high}.{low}.0/24")?;
    Ok(text)
}

/// The replies to the declarations and the updates: each prefix gets a tag of its own, with a rule for A's and for C's port.
fn growing(alloc: Global) -> Result<String, Memory> {
    let mut replies = String::new(alloc);
    for number in 1..9u32 {
        write!(replies, "{number} ok\n")?;
    }
    for number in 0..PREFIXES {
        let prefix = prefix(alloc, number)?;
        let tag = number + 1;
        let line = number + 9;
        write!(
            replies,
            "{line} ok\n  tag {prefix} {tag}\n  add 1 {tag} * -> 2\n  add 4 {tag} * -> 2\n"
        )?;
    }
    Ok(replies)
}

/// The replies to the job's lines: all prefixes get the first tag, and the rules of all others go.
fn shrinking(alloc: Global, replies: &mut String) -> Result<(), Memory> {
    replies.push_str("20009 working 60000\n20010 done\n")?;
    for number in 1..PREFIXES {
        let prefix = prefix(alloc, number)?;
        write!(replies, "  tag {prefix} 1\n")?;
    }
    for port in [1u32, 4u32] {
        for tag in 2..PREFIXES + 1 {
            write!(replies, "  drop {port} {tag}\n")?;
        }
    }
    replies.push_str("20011 ok\n  flow 1 1 * -> 2\n  flow 4 1 * -> 2\n")?;
    Ok(())
}

#[test]
fn a_job_leaves_one_tag_of_twenty_thousand(rt: HostRuntime) -> Result<(), Fail> {
    let alloc = rt.alloc();
    let lines = lines(alloc)?;
    let mut replies = growing(alloc)?;
    shrinking(alloc, &mut replies)?;
    let ended = run_given(&rt, Given::replay(lines.as_bytes()))?;
    assert!(rt; ended.status == Status::Done);
    assert!(rt; ended.output.as_slice() == replies.as_bytes());
    Ok(())
}
