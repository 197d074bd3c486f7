//! A policy behind itself, whose meets are so many that its rules are made from cubes.

use crate::{Given, run_given};
use net_types::Memory;
use replay_run::Status;
use std::alloc::Global;
use std::test::Fail;

/// The values from one to this are tested of each of four fields.
const VALUES: u32 = 11;

/// A, and B with two ports.
const DECLARED: &str = "\
exchange 100.64.0.0 65536 1000000
participant A 65001 1.0.0.1
participant B 65002 1.0.0.2
port A 1 172.16.1.1 02:00:00:00:00:01
port B 2 172.16.1.2 02:00:00:00:00:02
port B 3 172.16.1.3 02:00:00:00:00:03
export B allow A *; deny * *
";

/// B announces 10.0.0.0/8, and A asks for what it was told.
const ANNOUNCED: &str = "\
update B ffffffffffffffffffffffffffffffff002b0200000012400101004002040201fdea400304ac100102080a
drain A
resolve 1
";

/// UDP from 192.0.2.1 to 10.0.0.1, up to the source port.
const PACKET: &str = "packet 1 4500001c000000004011aecfc00002010a000001";

/// The source and destination ports of packets. The first three are among the values.
const PACKETS: [(u32, u32); 4] = [(5, 1000), (1000, 11), (11, 1), (12, 1000)];

/// The tests of the values of four fields, one beside another.
fn push_tests(lines: &mut String) -> Result<(), Memory> {
    lines.push_str("(match(proto=1)")?;
    for value in 1..VALUES + 1 {
        write!(lines, "+match(srcport={value})+match(dstport={value})")?;
        write!(lines, "+match(srcip={value}.0.0.0/8)")?;
        let other = value + 20;
        write!(lines, "+match(dstip={other}.0.0.0/8)")?;
    }
    lines.push_str(")")?;
    Ok(())
}

fn lines(alloc: Global) -> Result<String, Memory> {
    let mut lines = String::new(alloc);
    lines.push_str(DECLARED)?;
    lines.push_str("in B ")?;
    push_tests(&mut lines)?;
    lines.push_str(">>")?;
    push_tests(&mut lines)?;
    lines.push_str(">>fwd(3)\n")?;
    lines.push_str(ANNOUNCED)?;
    for (source, destination) in PACKETS {
        write!(lines, "{PACKET}{source:04x}{destination:04x}00080000\n")?;
    }
    Ok(lines)
}

#[test]
fn a_policy_behind_itself_takes_what_it_tests(rt: HostRuntime) -> Result<(), Fail> {
    let lines = lines(rt.alloc())?;
    let ended = run_given(&rt, Given::replay(lines.as_bytes()))?;
    assert!(rt; ended.status == Status::Done);
    let mut told = Vec::new(rt.alloc());
    for line in ended.output.split(|octet| *octet == b'\n') {
        if line.starts_with(b"  out ") {
            told.extend_from_slice(&line[..line.len().min(8)])?;
        }
    }
    assert!(rt; told.as_slice() == b"  out 3   out 3   out 3   out 2 ".as_slice());
    Ok(())
}
