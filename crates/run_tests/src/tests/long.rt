//! A line of up to 20000 octets is read, and a longer one is refused.

use crate::{Given, Pace, run_given};
use replay_run::Status;
use std::test::Fail;

/// How many octets a comment without an end has, how the run ends, and what it writes.
const COMMENTS: [(usize, Status, &str); 3] = [
    (20000, Status::Done, ""),
    (20001, Status::Refused, "1 refused line\n"),
    (200000, Status::Refused, "1 refused line\n"),
];

#[test]
fn longer_lines_are_refused(rt: HostRuntime) -> Result<(), Fail> {
    for (octets, status, output) in COMMENTS {
        let input = vec![in rt.alloc(); b'#'; octets]?;
        for pace in [Pace::Whole, Pace::Octet] {
            let given = Given {
                pace,
                ..Given::replay(&input)
            };
            let ended = run_given(&rt, given)?;
            let passed = ended.status == status && ended.output.as_slice() == output.as_bytes();
            assert!(rt; passed, "{octets} octets");
        }
    }
    Ok(())
}
