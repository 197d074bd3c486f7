//! Runs over generated lines.

use super::failing::Case;
use replay_run::Status;

/// The summary of the declarations alone.
const DECLARED: &str = "lines 17\nok 17\nrefused 0\nadverts 0\nframes 0\ntags 0\nrules 0\n";

/// The same without its end.
const ALL_BUT_ONE: &str = "lines 17\nok 17\nrefused 0\nadverts 0\nframes 0\ntags 0\nrules 0";

/// The summary of two thousand lines of the seed 7.
const DRAWN: &str =
    "lines 2017\nok 1961\nrefused 56\nadverts 7364\nframes 154\ntags 468\nrules 9312\n";

/// A run that draws no line. It would fail if it read.
fn declared<'c>() -> Case<'c> {
    Case {
        name: "the declarations alone",
        words: &["load", "1", "0"],
        input: b"x\n",
        failing_reads: &[0],
        failing_writes: &[],
        status: Status::Done,
        output: DECLARED,
    }
}

/// A run that draws two thousand lines.
fn drawn<'c>() -> Case<'c> {
    Case {
        name: "two thousand lines of the seed 7",
        words: &["load", "7", "2000"],
        status: Status::Refused,
        output: DRAWN,
        ..declared()
    }
}

/// Loads, with a write that fails.
pub fn load_cases<'c>() -> [Case<'c>; 4] {
    [
        declared(),
        drawn(),
        Case {
            name: "the greatest seed",
            words: &["load", "18446744073709551615", "0"],
            ..declared()
        },
        Case {
            name: "the first write of a summary fails",
            failing_writes: &[0],
            status: Status::WriteFault,
            output: "",
            ..declared()
        },
    ]
}

/// The same, where one octet is written at a time.
pub fn slow_load_cases<'c>() -> [Case<'c>; 4] {
    [
        declared(),
        drawn(),
        Case {
            name: "a write fails within a summary",
            failing_writes: &[7],
            status: Status::WriteFault,
            output: "lines 1",
            ..declared()
        },
        Case {
            name: "the last write of a summary fails",
            failing_writes: &[58],
            status: Status::WriteFault,
            output: ALL_BUT_ONE,
            ..declared()
        },
    ]
}

/// Words that are no load.
pub fn misspelled_load_cases<'c>() -> [Case<'c>; 10] {
    let usage = Case {
        failing_writes: &[0],
        status: Status::Usage,
        output: "",
        ..declared()
    };
    [
        Case {
            name: "no seed",
            words: &["load"],
            ..usage
        },
        Case {
            name: "no number of lines",
            words: &["load", "1"],
            ..usage
        },
        Case {
            name: "a word too many",
            words: &["load", "1", "2", "3"],
            ..usage
        },
        Case {
            name: "a seed with a zero before it",
            words: &["load", "01", "5"],
            ..usage
        },
        Case {
            name: "a number with a zero before it",
            words: &["load", "1", "00"],
            ..usage
        },
        Case {
            name: "a line too many",
            words: &["load", "1", "1000001"],
            ..usage
        },
        Case {
            name: "a seed with a sign",
            words: &["load", "-1", "5"],
            ..usage
        },
        Case {
            name: "a seed of 65 bits",
            words: &["load", "18446744073709551616", "1"],
            ..usage
        },
        Case {
            name: "an empty seed",
            words: &["load", "", "1"],
            ..usage
        },
        Case {
            name: "another word with two numbers",
            words: &["Load", "1", "0"],
            ..usage
        },
    ]
}
