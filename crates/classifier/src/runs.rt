//! Rules in runs: a cube that holds those of a run tells at once where none of its rules matters.

ghost use Rattle.std.specs.Prelude.{◌≡◌, ◌<◌, IfOk};
ghost use Rattle.classifier.specs.Runs.{lines_in};

use crate::line::Line;
use crate::run::Run;
use net_types::Memory;
use std::alloc::Global;

/// How many rules a run has: so many that looking at the runs is little work beside looking at the rules.
const LENGTH: usize = 64;

/// The rules in runs of that length, of which the last may be shorter.
pub fn runs_by<'a>(alloc: Global, lines: &'a [Line], length: usize) -> Result<Vec<Run<'a>>, Memory>
    requires { 0 < length }
    ensures { IfOk result (λ v. lines_in v.items ≡ lines.now) }
{
    let mut runs = Vec::new(alloc);
    let mut left = lines;
    while !left.is_empty() {
        let (run, others) = left.split_at(left.len().min(length));
        runs.push(Run::new(run))?;
        left = others;
    }
    Ok(runs)
}

/// The rules in runs.
pub fn runs_of<'a>(alloc: Global, lines: &'a [Line]) -> Result<Vec<Run<'a>>, Memory>
    ensures { IfOk result (λ v. lines_in v.items ≡ lines.now) }
{
    runs_by(alloc, lines, LENGTH)
}
