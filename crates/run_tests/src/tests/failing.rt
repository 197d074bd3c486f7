//! Runs of other words, and runs in which reads and writes fail.

use super::loads::{load_cases, misspelled_load_cases, slow_load_cases};
use crate::{Given, Pace, run_given};
use net_types::Memory;
use replay_run::Status;
use std::test::Fail;

/// A run, and what is expected of it.
#[derive(Clone, Copy)]
pub struct Case<'c> {
    pub name: &'c str,
    pub words: &'c [&'c str],
    pub input: &'c [u8],
    pub failing_reads: &'c [u64],
    pub failing_writes: &'c [u64],
    pub status: Status,
    pub output: &'c str,
}

/// A run of `replay` in which nothing fails.
fn replays<'c>(name: &'c str, input: &'c [u8], status: Status, output: &'c str) -> Case<'c> {
    Case {
        name,
        words: &["replay"],
        input,
        failing_reads: &[],
        failing_writes: &[],
        status,
        output,
    }
}

/// Whether a run ends and writes as the case says.
fn passes(rt: &HostRuntime, case: &Case<'_>, pace: Pace) -> Result<bool, Memory> {
    let ended = run_given(
        rt,
        Given {
            words: case.words,
            input: case.input,
            failing_reads: case.failing_reads,
            failing_writes: case.failing_writes,
            pace,
        },
    )?;
    Ok(ended.status == case.status && ended.output.as_slice() == case.output.as_bytes())
}

/// Runs that read no line.
fn cases_without_lines<'c>() -> [Case<'c>; 5] {
    let empty = replays("an empty input", b"", Status::Done, "");
    let usage = Case {
        input: b"exchange 172.16.0.0 8 64\n",
        failing_reads: &[0],
        failing_writes: &[0],
        status: Status::Usage,
        ..empty
    };
    [
        empty,
        Case {
            name: "the first read fails",
            failing_reads: &[0],
            status: Status::ReadFault,
            ..empty
        },
        Case {
            name: "no words",
            words: &[],
            ..usage
        },
        Case {
            name: "a word more",
            words: &["replay", "x"],
            ..usage
        },
        Case {
            name: "another word",
            words: &["Replay"],
            ..usage
        },
    ]
}

/// Lines that are skipped, with reads that fail.
fn skipped_cases<'c>() -> [Case<'c>; 3] {
    let skipped = replays(
        "lines that are skipped",
        b"# one\n\n#\n\n\n# no end",
        Status::Done,
        "",
    );
    [
        skipped,
        Case {
            name: "the second read fails",
            failing_reads: &[1],
            status: Status::ReadFault,
            ..skipped
        },
        Case {
            name: "a third read and a write would fail",
            failing_reads: &[2],
            failing_writes: &[0],
            ..skipped
        },
    ]
}

fn refused_case<'c>() -> Case<'c> {
    replays(
        "lines that are refused",
        b"x\n# skipped\n\ny\nz",
        Status::Refused,
        "1 refused line\n4 refused line\n5 refused line\n",
    )
}

/// Refused lines, with reads and writes that fail.
fn refused_cases<'c>() -> [Case<'c>; 4] {
    let refused = refused_case();
    [
        refused,
        Case {
            name: "a line without an end is not answered",
            failing_reads: &[1],
            status: Status::ReadFault,
            output: "1 refused line\n4 refused line\n",
            ..refused
        },
        Case {
            name: "the first write fails",
            failing_writes: &[0],
            status: Status::WriteFault,
            output: "",
            ..refused
        },
        Case {
            name: "the last write fails",
            failing_writes: &[1],
            status: Status::WriteFault,
            output: "1 refused line\n4 refused line\n",
            ..refused
        },
    ]
}

/// The same, where one octet is read or written at a time.
fn slowly_refused_cases<'c>() -> [Case<'c>; 4] {
    let refused = refused_case();
    [
        refused,
        Case {
            name: "a read fails before an end",
            failing_reads: &[1],
            status: Status::ReadFault,
            output: "",
            ..refused
        },
        Case {
            name: "a read fails behind an end",
            failing_reads: &[2],
            status: Status::ReadFault,
            output: "1 refused line\n",
            ..refused
        },
        Case {
            name: "a write fails within a reply",
            failing_writes: &[17],
            status: Status::WriteFault,
            output: "1 refused line\n4 ",
            ..refused
        },
    ]
}

/// The name of the first case that doesn't pass.
fn first_failing<'c>(
    rt: &HostRuntime,
    cases: &[Case<'c>],
    pace: Pace,
) -> Result<Option<&'c str>, Memory> {
    for case in cases {
        if !passes(rt, case, pace)? {
            return Ok(Some(case.name));
        }
    }
    Ok(None)
}

#[test]
fn runs_end_and_write_as_they_should(rt: HostRuntime) -> Result<(), Fail> {
    for cases in [
        cases_without_lines().as_slice(),
        skipped_cases().as_slice(),
        refused_cases().as_slice(),
        load_cases().as_slice(),
        misspelled_load_cases().as_slice(),
    ] {
        let failing = first_failing(&rt, cases, Pace::Whole)?;
        assert!(rt; failing.is_none(), "{}", failing.unwrap_or(""));
    }
    Ok(())
}

#[test]
fn runs_octet_by_octet_do_the_same(rt: HostRuntime) -> Result<(), Fail> {
    for cases in [
        cases_without_lines().as_slice(),
        slowly_refused_cases().as_slice(),
        slow_load_cases().as_slice(),
    ] {
        let failing = first_failing(&rt, cases, Pace::Octet)?;
        assert!(rt; failing.is_none(), "{}", failing.unwrap_or(""));
    }
    Ok(())
}
