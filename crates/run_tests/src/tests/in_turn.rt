//! A run with policies in which each read and each write fails in turn.

use super::realistic::{REALISTIC_INPUT, REALISTIC_OUTPUT};
use crate::{Given, Pace, over_streams, run_given};
use replay_run::Status;
use std::test::Fail;

/// So many writes are made where a call takes all: the replies to the lines of a piece are written together.
const WRITES: u64 = 1;

/// So many reads are made where a call gives all that there is room for; the last finds the end.
const READS: u64 = 2;

#[test]
fn the_run_ends_well(rt: HostRuntime) -> Result<(), Fail> {
    let given = Given::replay(REALISTIC_INPUT.as_bytes());
    let whole = run_given(&rt, given)?;
    assert!(rt; whole.status == Status::Done);
    let told = whole.without_adds(rt.alloc())?;
    assert!(rt; told.as_slice() == REALISTIC_OUTPUT.as_bytes());
    let pace = Pace::Octet;
    let slow = run_given(&rt, Given { pace, ..given })?;
    let same = slow.status == whole.status && slow.output == whole.output;
    assert!(rt; same, "octet by octet");
    let streamed = over_streams(&rt, given.input)?;
    let same = streamed.status == whole.status && streamed.output == whole.output;
    assert!(rt; same, "over a reader and a writer of std");
    Ok(())
}

#[test]
fn a_last_line_that_is_cut_is_refused(rt: HostRuntime) -> Result<(), Fail> {
    let input = REALISTIC_INPUT.as_bytes();
    let whole = run_given(&rt, Given::replay(input))?;
    let cut = run_given(&rt, Given::replay(&input[..input.len().saturating_sub(2)]))?;
    assert!(rt; cut.status == Status::Refused);
    let refused = b"26 refused line\n";
    assert!(rt; cut.output.ends_with(refused));
    let before = cut.output.len().saturating_sub(refused.len());
    assert!(rt; whole.output.starts_with(&cut.output[..before]));
    Ok(())
}

#[test]
fn each_read_fails_in_turn(rt: HostRuntime) -> Result<(), Fail> {
    let given = Given::replay(REALISTIC_INPUT.as_bytes());
    let whole = run_given(&rt, given)?;
    let octets = given.input.len() as u64 + 1;
    for (pace, reads) in [(Pace::Whole, READS), (Pace::Octet, octets)] {
        for read in 0..reads {
            let failing = Given {
                failing_reads: &[read],
                pace,
                ..given
            };
            let ended = run_given(&rt, failing)?;
            let begins = whole.output.starts_with(ended.output.as_slice());
            let passed = ended.status == Status::ReadFault && begins;
            assert!(rt; passed, "read {read} of {reads}");
        }
    }
    Ok(())
}

#[test]
fn each_write_fails_in_turn(rt: HostRuntime) -> Result<(), Fail> {
    let given = Given::replay(REALISTIC_INPUT.as_bytes());
    let whole = run_given(&rt, given)?;
    for write in 0..=WRITES {
        let failing = Given {
            failing_writes: &[write],
            ..given
        };
        let ended = run_given(&rt, failing)?;
        let failed = ended.status == Status::WriteFault;
        assert!(rt; failed == (write < WRITES), "write {write}");
        assert!(rt; ended.output.is_empty() == (write == 0), "write {write}");
        let begins = whole.output.starts_with(ended.output.as_slice());
        assert!(rt; begins, "write {write}");
    }
    Ok(())
}

#[test]
fn each_write_of_an_octet_fails_in_turn(rt: HostRuntime) -> Result<(), Fail> {
    let given = Given::replay(REALISTIC_INPUT.as_bytes());
    let whole = run_given(&rt, given)?;
    for write in 0..whole.output.len() {
        let failing = Given {
            failing_writes: &[write as u64],
            pace: Pace::Octet,
            ..given
        };
        let ended = run_given(&rt, failing)?;
        let passed = ended.status == Status::WriteFault
            && ended.output.as_slice() == &whole.output[..write];
        assert!(rt; passed, "write {write}");
    }
    Ok(())
}
