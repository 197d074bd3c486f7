//! A job, from its start on, and told of lines.

ghost use Rattle.std.specs.Prelude.{◌≡◌, ◌+◌, IfOk, OnOk, length};
ghost use Rattle.std.specs.FinMap.{entries, keys};
ghost use Rattle.events.specs.Tags.{capped};
ghost use Rattle.recompile.specs.Covering.{Covers};
ghost use Rattle.recompile.specs.Setting.{setting};

use crate::desk::Desk;
use crate::words::{first_word, number, pairs, push_prefix, tags};
use crate::wrong::Wrong;
use match_switch::Switch;
use net_types::{Memory, Steps, Tag};
use recompile::{Job, Progress, Swap};
use std::alloc::Global;
use std::sync::ledger::Ledger;

/// A job for what is on a desk.
fn started(alloc: Global, desk: &Desk) -> Result<Job, Wrong>
    ensures covers { IfOk result (Covers (setting desk.now.classes desk.now.switch.table)) }
    ensures owed { IfOk result (λ job. job.owed ≡ capped (length (entries desk.now.classes.tag) + length (keys desk.now.switch.table))) }
{
    let pairs = desk.pairs_for_job(alloc)?;
    Ok(Job::start(alloc, &desk.classes, pairs)?)
}

/// The job begins anew for what is on a desk.
fn begun_anew(alloc: Global, job: &mut Job, desk: &Desk) -> Result<(), Wrong>
    ensures covers { OnOk result (Covers (setting desk.now.classes desk.now.switch.table) job.new) }
    ensures owed { OnOk result (job.new.owed ≡ capped (length (entries desk.now.classes.tag) + length (keys desk.now.switch.table))) }
{
    let pairs = desk.pairs_for_job(alloc)?;
    Ok(job.on_policy(&desk.classes, &[], pairs)?)
}

/// How many pairs get other rules.
fn others(swap: &Swap, switch: &Switch) -> u64 {
    let mut others = 0u64;
    for (pair, _) in switch.iter() {
        if swap.built.get(pair).is_some() {
            others = others.saturating_add(1);
        }
    }
    others
}

/// Puts the moves of a swap behind a text, the first and the last of many, and how many pairs get other rules.
fn push_swap(text: &mut String, swap: &Swap, switch: &Switch) -> Result<(), Memory> {
    let moves = swap.moves.list();
    let count = moves.len();
    write!(text, "; ready with {count} moves")?;
    for ends in [moves.first(), moves.last()] {
        if let Some((prefix, Tag(tag))) = ends {
            text.push_str(", ")?;
            push_prefix(text, *prefix)?;
            write!(text, " to {tag}")?;
        }
    }
    let others = others(swap, switch);
    write!(text, " and {others} other rules")?;
    Ok(())
}

/// Puts what a job owes behind a text and some words.
fn push_owed(text: &mut String, words: &str, job: &Job) -> Result<(), Memory> {
    let owed = job.owed();
    write!(text, "{words}owed {owed}")?;
    Ok(())
}

/// Does so many units. A swap that is ready is given up again.
fn work<L: Ledger>(
    text: &mut String,
    job: &mut Job,
    units: u64,
    desk: &Desk,
    steps: &mut Steps<L>,
) -> Result<(), Wrong>
    requires { Covers (setting desk.now.classes desk.now.switch.table) job.old }
    ensures { OnOk result (Covers (setting desk.now.classes desk.now.switch.table) job.new) }
{
    match job.work(units, &desk.classes, &desk.switch, steps)? {
        Progress::Working(left) => write!(text, "; working {left}")?,
        Progress::Ready(swap) => {
            push_swap(text, &swap, &desk.switch)?;
            job.give_up(swap);
            push_owed(text, "; given up, ", job)?;
        }
    }
    Ok(())
}

/// Does units, once for each number between spaces.
fn work_each<L: Ledger>(
    told: &mut String,
    job: &mut Job,
    text: &str,
    desk: &Desk,
    steps: &mut Steps<L>,
) -> Result<(), Wrong>
    requires { Covers (setting desk.now.classes desk.now.switch.table) job.old }
{
    for word in text.split(' ') {
        work(told, job, number(word)?, desk, steps)?;
    }
    Ok(())
}

/// The words of a line that a job is told of: how many prefixes it makes carried, how many ports there are, and behind commas
/// the fresh tags, the emptied ones and the added pairs.
fn changed(alloc: Global, job: &mut Job, text: &str) -> Result<(), Wrong> {
    let (counts, rest) = text.split_once(", ").unwrap_or((text, ""));
    let (newly, ports) = first_word(counts);
    let (newly, ports) = (number(newly)?, number(ports)?);
    let (fresh, rest) = rest.split_once(", ").unwrap_or((rest, ""));
    let (emptied, added) = rest.split_once(", ").unwrap_or((rest, ""));
    let (fresh, emptied, added) = (
        tags(alloc, fresh)?,
        tags(alloc, emptied)?,
        pairs(alloc, added)?,
    );
    match (fresh.len() as u64).checked_mul(ports) {
        Some(most) if added.len() as u64 <= most => {}
        _ => return Err(Wrong::Row),
    }
    Ok(job.on_changes(newly, ports, fresh.items(), emptied.items(), added.items())?)
}

/// A job on a desk does units, once for each number.
pub fn alone<L: Ledger>(
    alloc: Global,
    desk: &Desk,
    text: &str,
    steps: &mut Steps<L>,
) -> Result<String, Wrong> {
    let mut told = String::new(alloc);
    let mut job = started(alloc, desk)?;
    push_owed(&mut told, "", &job)?;
    work_each(&mut told, &mut job, text, desk, steps)?;
    Ok(told)
}

/// A job on a desk does units, is told of changes, and begins anew on another desk, where it does units again.
pub fn through<L: Ledger>(
    alloc: Global,
    before: &Desk,
    after: &Desk,
    text: &str,
    steps: &mut Steps<L>,
) -> Result<String, Wrong> {
    let (first, rest) = text.split_once("; ").unwrap_or((text, ""));
    let (changes, last) = rest.split_once("; ").unwrap_or((rest, ""));
    let mut told = String::new(alloc);
    let mut job = started(alloc, before)?;
    push_owed(&mut told, "", &job)?;
    work(&mut told, &mut job, number(first)?, before, steps)?;
    changed(alloc, &mut job, changes)?;
    push_owed(&mut told, "; ", &job)?;
    begun_anew(alloc, &mut job, after)?;
    push_owed(&mut told, "; ", &job)?;
    work_each(&mut told, &mut job, last, after, steps)?;
    Ok(told)
}
