//! Generated lines of one seed, of each kind.

use load_gen::line;
use net_types::Memory;
use std::alloc::Global;
use std::test::Fail;

/// The numbers and the texts of lines of the seed 7.
const LINES: [(u64, &str); 17] = [
    (0, "exchange 172.16.0.0 4096 100000"),
    (1, "participant P1 65001 1.0.0.1"),
    (8, "participant P8 65008 1.0.0.8"),
    (9, "port P1 1 172.16.128.1 02:00:00:00:00:01"),
    (16, "port P8 8 172.16.128.8 02:00:00:00:00:08"),
    (17, "drain P7"),
    (
        18,
        "update P7 ffffffffffffffffffffffffffffffff001a020003100a9c0000",
    ),
    (19, "take P7 3"),
    (20, "work 64"),
    (21, "out P3 match(dstport=80) >> fwd(P6)"),
    (
        24,
        "update P7 ffffffffffffffffffffffffffffffff003202000000184001010040020a0204fdeffc00fc00fc00400304ac108007100a49",
    ),
    (25, "resolve 2"),
    (
        26,
        "packet 3 4500001c000000004011aec2c00002010a0d000103e801bb00080000",
    ),
    (29, "out P5 drop"),
    (
        36,
        "update P6 ffffffffffffffffffffffffffffffff002c0200000012400101004002040201fdee400304ac108006100ab7",
    ),
    (47, "in P1 match(srcip=0.0.0.0/1) >> modify(dstport=8080)"),
    (85, "recompile"),
];

/// The last line of the last seed.
const LAST: &str = "packet 6 4500001c000000004011ae04c00002010acb000103e8005000080000";

fn is_line(alloc: Global, seed: u64, number: u64, text: &str) -> Result<bool, Memory> {
    let line = line(alloc, seed, number)?;
    Ok(line.as_slice() == text.as_bytes())
}

#[test]
fn lines_are_generated(rt: HostRuntime) -> Result<(), Fail> {
    for (number, text) in &LINES {
        let right = is_line(rt.alloc(), 7, *number, text)?;
        assert!(rt; right, "line {number}");
    }
    assert!(rt; is_line(rt.alloc(), u64::MAX, u64::MAX, LAST)?);
    assert!(rt; is_line(rt.alloc(), 0, 0, "exchange 172.16.0.0 4096 100000")?);
    Ok(())
}
