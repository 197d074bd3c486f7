//! A job that does some units between a thousand updates, and then ends.

ghost use Rattle.std.specs.Prelude.{◌<◌};

use crate::{Given, run_given};
use net_types::Memory;
use replay_run::Status;
use std::alloc::Global;
use std::test::Fail;

/// So many prefixes, each announced once in each round.
const PREFIXES: u32 = 250;

/// How often they are announced, each time with B's other port as next hop.
const ROUNDS: u32 = 4;

/// How many units are done after a round.
const UNITS: u32 = 100;

/// A, B and C, and a job of which nothing is to do.
const DECLARED: &str = "\
exchange 100.64.0.0 2048 4096
participant A 65001 1.0.0.1
participant B 65002 1.0.0.2
participant C 65003 1.0.0.3
port A 1 172.16.1.1 02:00:00:00:00:01
port B 2 172.16.1.2 02:00:00:00:00:02
port B 3 172.16.1.3 02:00:00:00:00:03
port C 4 172.16.1.4 02:00:00:00:00:04
recompile
";

/// The replies to these lines.
const BEGUN: &str = "1 ok\n2 ok\n3 ok\n4 ok\n5 ok\n6 ok\n7 ok\n8 ok\n9 working 0\n";

/// B's UPDATE up to the last octet of its next hop.
const UPDATE: &str =
    "update B ffffffffffffffffffffffffffffffff002c0200000012400101004002040201fdea400304ac1001";

/// B's port in a round.
fn port(round: u32) -> u32 {
    2 + round % 2
}

/// The declarations, the rounds of updates, the units between them, and the end of the job.
fn lines(alloc: Global) -> Result<String, Memory> {
    let mut lines = String::from_str(alloc, DECLARED)?;
    for round in 0..ROUNDS {
        let port = port(round);
        for number in 0..PREFIXES {
            write!(lines, "{UPDATE}{port:02x}100a{number:02x}\n")?;
        }
        write!(lines, "work {UNITS}\n")?;
    }
    lines.push_str("work 4849\nwork 1\ntable\n")?;
    Ok(lines)
}

/// The tag that a prefix has after a round: the least one that was free, since each update frees the tag before it.
fn tag(round: u32, number: u32) -> u32
    requires round { round < 4 }
    requires number { number < 250 }
{
    if number < round {
        252 - round + number
    } else {
        number + 1 - round
    }
}

/// The reply to the update of a prefix: a fresh tag, whose rules come in the place of the earlier ones.
fn push_update(alloc: Global, replies: &mut String, round: u32, number: u32) -> Result<(), Memory>
    requires round { round < 4 }
    requires number { number < 250 }
{
    let line = 10 + round * (PREFIXES + 1) + number;
    let (port, fresh) = (port(round), tag(round, number));
    write!(replies, "{line} ok\n  tag 10.{number}.0.0/16 {fresh}\n")?;
    if round > 0 {
        let gone = tag(round - 1, number);
        write!(replies, "  drop 1 {gone}\n  drop 4 {gone}\n")?;
    }
    write!(
        replies,
        "  add 1 {fresh} * -> {port}\n  add 4 {fresh} * -> {port}\n"
    )?;
    Ok(())
}

/// The replies to the updates and the units. An update that gives a tag adds five units, and one more where its prefix had
/// none: there are four ports.
fn waiting(alloc: Global) -> Result<String, Memory> {
    let mut replies = String::from_str(alloc, BEGUN)?;
    let owed = [1400, 2550, 3700, 4850];
    for round in 0..ROUNDS {
        for number in 0..PREFIXES {
            push_update(alloc, &mut replies, round, number)?;
        }
        let line = 10 + round * (PREFIXES + 1) + PREFIXES;
        let left = owed[round as usize];
        write!(replies, "{line} working {left}\n")?;
    }
    Ok(replies)
}

/// The replies to the end: all prefixes get the least tag, which 10.3.0.0/16 has, and the rules of all others go. 248 is no
/// prefix's tag.
fn push_end(replies: &mut String) -> Result<(), Memory> {
    replies.push_str("1014 working 1\n1015 done\n")?;
    for number in 0..PREFIXES {
        if number != 3 {
            write!(replies, "  tag 10.{number}.0.0/16 1\n")?;
        }
    }
    for port in [1u32, 4u32] {
        for tag in 2..252u32 {
            if tag != 248 {
                write!(replies, "  drop {port} {tag}\n")?;
            }
        }
    }
    replies.push_str("1016 ok\n  flow 1 1 * -> 3\n  flow 4 1 * -> 3\n")?;
    Ok(())
}

#[test]
fn a_job_may_wait_for_a_thousand_updates(rt: HostRuntime) -> Result<(), Fail> {
    let alloc = rt.alloc();
    let lines = lines(alloc)?;
    let mut replies = waiting(alloc)?;
    push_end(&mut replies)?;
    let ended = run_given(&rt, Given::replay(lines.as_bytes()))?;
    assert!(rt; ended.status == Status::Done);
    assert!(rt; ended.output.as_slice() == replies.as_bytes());
    Ok(())
}
