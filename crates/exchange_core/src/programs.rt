//! The policies of participants, as texts and compiled.

ghost use Rattle.std.specs.Prelude.{◌≡◌, ◌<◌, ◌++◌, [], length, map, slice_set, codes, IfOk, OnOk};
ghost use Rattle.classifier.specs.Classifiers.{lines_of};
ghost use Rattle.exchange_core.specs.Programs.{IsChangeOf, IsDropping, all_lent, changed, lent_of};

use block_build::Views;
use classifier::{Classifier, Results, single};
use net_types::{Items, Memory, Pid, Text};
use std::alloc::Global;

/// A policy: its text, and the classifier that it is compiled to.
#[derive(Drop)]
pub struct Program {
    pub text: Text,
    pub classifier: Classifier,
}

/// The two policies of a participant.
#[derive(Drop)]
pub struct Programs {
    pub outbound: Program,
    pub inbound: Program,
}

/// What becomes of the policies in a line that builds rules.
#[derive(Drop)]
pub enum PolicyChange {
    /// All stay as they are.
    Stay,
    /// The outbound policy of a participant becomes this.
    Outbound { who: Pid, program: Program },
    /// The inbound policy of a participant becomes this.
    Inbound { who: Pid, program: Program },
}

/// The policy `drop`.
fn dropping(alloc: Global) -> Result<Program, Memory>
    ensures { IfOk result (λ program. IsDropping program) }
{
    let classifier = single(alloc, Results::new(alloc))?;
    let text = Items::from_vec(Vec::from_slice(alloc, "drop".as_bytes())?);
    Ok(Program { text, classifier })
}

/// The policies of a participant that has said none: both are `drop`.
pub fn both_dropping(alloc: Global) -> Result<Programs, Memory>
    ensures outbound { IfOk result (λ programs. IsDropping programs.outbound) }
    ensures inbound { IfOk result (λ programs. IsDropping programs.inbound) }
{
    let outbound = dropping(alloc)?;
    let inbound = dropping(alloc)?;
    Ok(Programs { outbound, inbound })
}

/// Lends the classifiers of further participants.
fn lend_all<'p>(views: &mut Views<'p>, programs: &'p [Programs]) -> Result<(), Memory>
    ensures { OnOk result (views.new ≡ views.old ++ all_lent programs.now) }
{
    for both in programs {
        views.push(&both.outbound.classifier, &both.inbound.classifier)?;
    }
    Ok(())
}

/// Lends the classifiers of all participants, with these two in place of those of one.
fn lend_with<'p>(
    alloc: Global,
    programs: &'p [Programs],
    who: Pid,
    outbound: &'p Classifier,
    inbound: &'p Classifier,
) -> Result<Views<'p>, Memory>
    requires { who.0 < length programs.now }
    ensures { IfOk result (λ views. views ≡ slice_set (all_lent programs.now) who.0 (record { outbound = lines_of outbound.now; inbound = lines_of inbound.now })) }
{
    let at = who.0 as usize;
    let (before, _) = programs.split_at(at);
    let (_, after) = programs.split_at(at + 1);
    let mut views = Views::new(alloc);
    lend_all(&mut views, before)?;
    views.push(outbound, inbound)?;
    lend_all(&mut views, after)?;
    Ok(views)
}

/// Lends the classifiers of all participants as they are.
fn lend<'p>(alloc: Global, programs: &'p [Programs]) -> Result<Views<'p>, Memory>
    ensures { IfOk result (λ views. views ≡ all_lent programs.now) }
{
    let mut views = Views::new(alloc);
    lend_all(&mut views, programs)?;
    Ok(views)
}

/// Lends the classifiers of all participants as they are after a change.
pub fn lend_changed<'p>(
    alloc: Global,
    programs: &'p [Programs],
    change: &'p PolicyChange,
) -> Result<Views<'p>, Memory>
    requires { IsChangeOf (length programs.now) change.now }
    ensures { IfOk result (λ views. views ≡ all_lent (changed programs.now change.now)) }
{
    match change {
        PolicyChange::Stay => lend(alloc, programs),
        PolicyChange::Outbound { who, program } => {
            let inbound = &programs[who.0 as usize].inbound;
            lend_with(
                alloc,
                programs,
                *who,
                &program.classifier,
                &inbound.classifier,
            )
        }
        PolicyChange::Inbound { who, program } => {
            let outbound = &programs[who.0 as usize].outbound;
            lend_with(
                alloc,
                programs,
                *who,
                &outbound.classifier,
                &program.classifier,
            )
        }
    }
}

/// Carries a change out. It takes no memory.
pub fn carry_out(programs: &mut Vec<Programs>, change: PolicyChange)
    requires { IsChangeOf (length programs.old.items) change }
    ensures { programs.new.items ≡ changed programs.old.items change }
{
    match change {
        PolicyChange::Stay => {}
        PolicyChange::Outbound { who, program } => {
            programs[who.0 as usize].outbound = program;
        }
        PolicyChange::Inbound { who, program } => {
            programs[who.0 as usize].inbound = program;
        }
    }
}
