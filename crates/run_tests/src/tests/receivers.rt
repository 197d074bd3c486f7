//! A rule that many receivers get, whose own rules are so many that what leaves is built cell by cell.

use crate::{Given, run_given};
use net_types::Memory;
use replay_run::Status;
use std::alloc::Global;
use std::test::Fail;

/// So many participants announce a prefix to the first one.
const RECEIVERS: u32 = 20;

/// So many ports each of them tests of each protocol's two.
const TESTS: u32 = 64;

/// UDP from 192.0.2.1 to 10.0.0.1, up to the source port.
const PACKET: &str = "packet 1 4500001c000000004011aecfc00002010a000001";

/// An UPDATE that announces 10.0.0.0/8, up to the number of the AS.
const UPDATE: &str = "ffffffffffffffffffffffffffffffff002b0200000012400101004002040201";

/// The source and destination ports of packets, and the numbers of the first participant that tests them and of the one behind
/// the last.
const PACKETS: [(u32, u32, u32, u32); 4] = [
    (10, 1000, 1, 11),
    (70, 1000, 7, 21),
    (1000, 5, 1, 21),
    (1000, 1000, 0, 0),
];

/// By how much the number of a participant's second port is greater than that of its first.
const SECOND: u32 = 100;

/// The exchange, and two ports of each participant.
fn push_declared(lines: &mut String) -> Result<(), Memory> {
    lines.push_str("exchange 100.64.0.0 65536 1000000\n")?;
    for n in 0..RECEIVERS + 1 {
        let port = n + 1;
        let number = 65000 + port;
        write!(lines, "participant P{n} {number} 1.0.0.{port}\n")?;
        for port in [port, port + SECOND] {
            write!(
                lines,
                "port P{n} {port} 172.16.1.{port} 02:00:00:00:00:{port:02x}\n"
            )?;
        }
    }
    Ok(())
}

/// The tests of a field's values from one on.
fn push_tests(lines: &mut String, field: &str, first: u32) -> Result<(), Memory> {
    write!(lines, "(match({field}={first})")?;
    for value in first.saturating_add(1)..first.saturating_add(TESTS) {
        write!(lines, "+match({field}={value})")?;
    }
    lines.push_str(")")?;
    Ok(())
}

/// The policy of a participant, which takes some source ports and some destination ports at its second port, and tests these
/// first or those.
fn push_policy(lines: &mut String, n: u32) -> Result<(), Memory> {
    let port = n.saturating_add(1 + SECOND);
    write!(lines, "in P{n} (")?;
    if n % 2 == 0 {
        push_tests(lines, "srcport", n)?;
        lines.push_str("+")?;
        push_tests(lines, "dstport", 1)?;
    } else {
        push_tests(lines, "dstport", 1)?;
        lines.push_str("+")?;
        push_tests(lines, "srcport", n)?;
    }
    write!(lines, ") >> fwd({port})\n")?;
    Ok(())
}

/// All participants but the first announce a prefix to it, and each has a policy.
fn push_receivers(lines: &mut String) -> Result<(), Memory> {
    for n in 1..RECEIVERS + 1 {
        let port = n + 1;
        let number = 65000 + port;
        write!(lines, "export P{n} allow P0 *; deny * *\n")?;
        write!(
            lines,
            "update P{n} {UPDATE}{number:04x}400304ac1001{port:02x}080a\n"
        )?;
    }
    for n in 1..RECEIVERS + 1 {
        push_policy(lines, n)?;
    }
    Ok(())
}

/// The first one sends all to each of them; then packets come.
fn push_sending(lines: &mut String) -> Result<(), Memory> {
    lines.push_str("out P0 fwd(P1)")?;
    for n in 2..RECEIVERS + 1 {
        write!(lines, "+fwd(P{n})")?;
    }
    lines.push_str("\ndrain P0\nresolve 1\n")?;
    for (source, destination, _, _) in PACKETS {
        write!(lines, "{PACKET}{source:04x}{destination:04x}00080000\n")?;
    }
    Ok(())
}

fn lines(alloc: Global) -> Result<String, Memory> {
    let mut lines = String::new(alloc);
    push_declared(&mut lines)?;
    push_receivers(&mut lines)?;
    push_sending(&mut lines)?;
    Ok(lines)
}

/// By which ports the packets leave: by the first port of the participants that don't test them, and by the second of the others.
fn leaving(alloc: Global) -> Result<Vec<u32>, Memory> {
    let mut ports = Vec::new(alloc);
    for (_, _, first, end) in PACKETS {
        for n in 1..RECEIVERS + 1 {
            if n < first || end <= n {
                ports.push(n + 1)?;
            }
        }
        for n in first..end {
            ports.push(n.saturating_add(1 + SECOND))?;
        }
    }
    Ok(ports)
}

/// The number that a text begins with.
fn number_of(text: &[u8]) -> u32 {
    let mut number = 0u32;
    for octet in text {
        if !octet.is_ascii_digit() {
            return number;
        }
        number = number
            .saturating_mul(10)
            .saturating_add(u32::from(octet.wrapping_sub(b'0')));
    }
    number
}

/// By which ports the replies tell that packets leave.
fn told(alloc: Global, output: &[u8]) -> Result<Vec<u32>, Memory> {
    let mut ports = Vec::new(alloc);
    for line in output.split(|octet| *octet == b'\n') {
        if let Some(told) = line.strip_prefix(b"  out ") {
            ports.push(number_of(told))?;
        }
    }
    Ok(ports)
}

#[test]
fn many_receivers_get_what_they_test(rt: HostRuntime) -> Result<(), Fail> {
    let alloc = rt.alloc();
    let lines = lines(alloc)?;
    let ended = run_given(&rt, Given::replay(lines.as_bytes()))?;
    assert!(rt; ended.status == Status::Done);
    let told = told(alloc, &ended.output)?;
    assert!(rt; told.as_slice() == leaving(alloc)?.as_slice());
    Ok(())
}
