//! Reads lines of a word and a policy from standard input, and writes what a compiler finds: `wide`, `meets`, `compile` or `tighten`.
#![tactic(auto)]

ghost use Rattle.std.specs.Prelude.{Some};

use anyhow::Result;
use bumpalo::Bump;
use classifier::tighten;
use net_types::{Memory, Pid, PortNo};
use policy_compile::{compile, count_meets, too_wide};
use policy_isolate::Names;
use policy_syntax::{Tree, parse};
use std::alloc::Global;

/// An exchange in which every name and every port is one participant's.
struct Anyone;

impl Names for Anyone {
    ghost pid_of = { λ _ _. Some (record { 0 = 0 }) };

    ghost owner_of = { λ _ _. Some (record { 0 = 0 }) };

    fn find(&self, _name: &str) -> Option<Pid> {
        Some(Pid(0))
    }

    fn owner(&self, _port: PortNo) -> Option<Pid> {
        Some(Pid(0))
    }
}

/// What a line asks of a policy.
#[derive(Clone, Copy, Debug, PartialEq, Eq)]
enum Question {
    /// Whether it is too wide: 1 or 0.
    Wide,
    /// How many meets it has, up to one more than 65536.
    Meets,
    /// How many rules it compiles to.
    Compile,
    /// How many of them are left when they are tightened.
    Tighten,
}

/// The question of a line, and the policy behind it.
fn asked(line: &str) -> Option<(Question, &str)> {
    if let Some(text) = line.strip_prefix("wide ") {
        Some((Question::Wide, text))
    } else if let Some(text) = line.strip_prefix("meets ") {
        Some((Question::Meets, text))
    } else if let Some(text) = line.strip_prefix("compile ") {
        Some((Question::Compile, text))
    } else if let Some(text) = line.strip_prefix("tighten ") {
        Some((Question::Tighten, text))
    } else {
        None
    }
}

fn answer(alloc: Global, question: Question, tree: &Tree<'_>) -> Result<usize, Memory> {
    match question {
        Question::Wide => {
            let wide = too_wide(alloc, tree)?;
            Ok(if wide { 1 } else { 0 })
        }
        Question::Meets => count_meets(alloc, tree, 65536),
        Question::Compile => {
            let rules = compile(alloc, tree, &Anyone)?;
            Ok(rules.lines().len())
        }
        Question::Tighten => {
            let rules = compile(alloc, tree, &Anyone)?;
            let tight = tighten(alloc, &rules)?;
            Ok(tight.lines().len())
        }
    }
}

fn write_answer(rt: &HostRuntime, line: &str) -> Result<()> {
    let alloc = rt.alloc();
    let Some((question, text)) = asked(line) else {
        println!(rt; "no question")?;
        return Ok(());
    };
    let arena = Bump::new(alloc);
    let Ok(tree) = parse(alloc, &arena, text) else {
        println!(rt; "no policy")?;
        return Ok(());
    };
    match answer(alloc, question, &tree) {
        Ok(number) => println!(rt; "{number}")?,
        Err(_) => println!(rt; "no memory")?,
    }
    Ok(())
}

fn main(rt: HostRuntime) -> Result<()> {
    for line in rt.lines(rt.alloc()) {
        let line = line?;
        write_answer(&rt, line.as_str())?;
    }
    Ok(())
}
