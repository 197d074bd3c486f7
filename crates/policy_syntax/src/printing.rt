//! The canonical text of a tree.

ghost use Rattle.std.specs.Prelude.{◌≡◌, ◌++◌, codes, OnOk, IfOk};
ghost use Rattle.std.specs.Fmt.{decimal};
ghost use Rattle.std.specs.String.{string_bytes};
ghost use Rattle.grammar.specs.Tokens.{address_text};
ghost use Rattle.policy_syntax.specs.Canonical.{opening, closing, group_first, group_second, group_third, ip_text, len_text, prefix_text, test_text, pred_text, target_text, comma, field_text, assign_text, policy_text, canonical};
ghost use Rattle.policy_syntax.specs.Views.{test_of, pred_of, target_of, policy_of};
ghost use Rattle.policy_syntax.specs.Levels.{level_of};

use crate::tree::{Pred, Target, Test, Tree};
use net_types::{Assign, Ip, Memory, Prefix};
use std::alloc::{AllocError, Global};

/// Where a part stands: what may stand there without a group.
#[derive(Clone, Copy)]
enum Level {
    Loose,
    Middle,
    Tight,
    Single,
}

impl Level {
    ghost use Rattle.policy_syntax.specs.Levels.{level_of};

    // A sum or a disjunction is a group here.
    fn groups_first(self) -> bool
        ensures { result ≡ group_first (level_of self) }
    {
        !matches!(self, Level::Loose)
    }

    // A chain or a conjunction is a group here.
    fn groups_second(self) -> bool
        ensures { result ≡ group_second (level_of self) }
    {
        matches!(self, Level::Tight | Level::Single)
    }

    // A negation is a group here.
    fn groups_third(self) -> bool
        ensures { result ≡ group_third (level_of self) }
    {
        matches!(self, Level::Single)
    }
}

fn open_if(out: &mut String, grouped: bool) -> Result<(), AllocError>
    ensures { OnOk result (string_bytes out.new ≡ string_bytes out.old ++ opening grouped) }
{
    if grouped { out.push_str("(") } else { Ok(()) }
}

fn close_if(out: &mut String, grouped: bool) -> Result<(), AllocError>
    ensures { OnOk result (string_bytes out.new ≡ string_bytes out.old ++ closing grouped) }
{
    if grouped { out.push_str(")") } else { Ok(()) }
}

fn push_number(out: &mut String, number: u32) -> Result<(), AllocError>
    ensures { OnOk result (string_bytes out.new ≡ string_bytes out.old ++ decimal number) }
{
    write!(out, "{number}")
}

#[tactic(auto, using(std::proofs::Common::append_assoc))]
fn push_address(out: &mut String, ip: u32) -> Result<(), AllocError>
    ensures { OnOk result (string_bytes out.new ≡ string_bytes out.old ++ address_text ip) }
{
    push_number(out, ip / 16777216)?;
    out.push_str(".")?;
    push_number(out, ip / 65536 % 256)?;
    out.push_str(".")?;
    push_number(out, ip / 256 % 256)?;
    out.push_str(".")?;
    push_number(out, ip % 256)
}

#[tactic(auto, using(std::proofs::Common::append_assoc))]
fn push_prefix(out: &mut String, prefix: Prefix) -> Result<(), AllocError>
    ensures { OnOk result (string_bytes out.new ≡ string_bytes out.old ++ prefix_text prefix) }
{
    push_address(out, prefix.address.0)?;
    push_len(out, prefix.len)
}

#[tactic(auto, using(std::proofs::Common::append_assoc))]
fn push_len(out: &mut String, len: u8) -> Result<(), AllocError>
    ensures { OnOk result (string_bytes out.new ≡ string_bytes out.old ++ len_text len) }
{
    if len == 32 {
        return Ok(());
    }
    out.push_str("/")?;
    push_number(out, len as u32)
}

#[tactic(auto, using(std::proofs::Common::append_assoc))]
fn push_test(out: &mut String, test: Test) -> Result<(), AllocError>
    ensures { OnOk result (string_bytes out.new ≡ string_bytes out.old ++ test_text (test_of test)) }
{
    match test {
        Test::Inport(port) => {
            out.push_str("inport=")?;
            push_number(out, port.0 as u32)
        }
        Test::Src(prefix) => {
            out.push_str("srcip=")?;
            push_prefix(out, prefix)
        }
        Test::Dst(prefix) => {
            out.push_str("dstip=")?;
            push_prefix(out, prefix)
        }
        Test::Proto(number) => {
            out.push_str("proto=")?;
            push_number(out, number as u32)
        }
        Test::Sport(number) => {
            out.push_str("srcport=")?;
            push_number(out, number as u32)
        }
        Test::Dport(number) => {
            out.push_str("dstport=")?;
            push_number(out, number as u32)
        }
    }
}

#[tactic(auto, using(std::proofs::Common::append_assoc))]
fn push_pred(out: &mut String, level: Level, pred: &Pred<'_>) -> Result<(), AllocError>
    ensures { OnOk result (string_bytes out.new ≡ string_bytes out.old ++ pred_text (level_of level) (pred_of pred.now)) }
{
    match pred {
        Pred::Yes => out.push_str("true"),
        Pred::Is(test, _) => push_test(out, *test),
        Pred::Not(inner) => {
            let grouped = level.groups_third();
            open_if(out, grouped)?;
            out.push_str("!")?;
            push_pred(out, Level::Single, inner)?;
            close_if(out, grouped)
        }
        Pred::And(a, b) => {
            let grouped = level.groups_second();
            open_if(out, grouped)?;
            push_pred(out, Level::Middle, a)?;
            out.push_str(" & ")?;
            push_pred(out, Level::Tight, b)?;
            close_if(out, grouped)
        }
        Pred::Or(a, b) => {
            let grouped = level.groups_first();
            open_if(out, grouped)?;
            push_pred(out, Level::Loose, a)?;
            out.push_str(" | ")?;
            push_pred(out, Level::Middle, b)?;
            close_if(out, grouped)
        }
    }
}

fn push_target(out: &mut String, target: Target<'_>) -> Result<(), AllocError>
    ensures { OnOk result (string_bytes out.new ≡ string_bytes out.old ++ target_text (target_of target.entry)) }
{
    match target {
        Target::Name(name) => out.push_str(name),
        Target::Number(port) => push_number(out, port.0 as u32),
    }
}

#[tactic(auto, using(std::proofs::Common::append_assoc))]
fn push_policy(out: &mut String, level: Level, tree: &Tree<'_>) -> Result<(), AllocError>
    ensures { OnOk result (string_bytes out.new ≡ string_bytes out.old ++ policy_text (level_of level) (policy_of tree.now)) }
{
    match tree {
        Tree::Drop => out.push_str("drop"),
        Tree::Pass => out.push_str("pass"),
        Tree::Block => out.push_str("block"),
        Tree::Fwd(target, _) => {
            out.push_str("fwd(")?;
            push_target(out, *target)?;
            out.push_str(")")
        }
        Tree::Match(pred) => {
            out.push_str("match(")?;
            push_pred(out, Level::Loose, pred)?;
            out.push_str(")")
        }
        Tree::Set(fields, _) => {
            out.push_str("modify(")?;
            push_assign(out, *fields)?;
            out.push_str(")")
        }
        Tree::Then(a, b) => {
            let grouped = level.groups_second();
            open_if(out, grouped)?;
            push_policy(out, Level::Middle, a)?;
            out.push_str(" >> ")?;
            push_policy(out, Level::Tight, b)?;
            close_if(out, grouped)
        }
        Tree::Both(a, b) => {
            let grouped = level.groups_first();
            open_if(out, grouped)?;
            push_policy(out, Level::Loose, a)?;
            out.push_str(" + ")?;
            push_policy(out, Level::Middle, b)?;
            close_if(out, grouped)
        }
    }
}

fn push_address_field(
    out: &mut String,
    first: bool,
    name: &str,
    field: Option<Ip>,
) -> Result<(), AllocError>
    ensures { OnOk result (string_bytes out.new ≡ string_bytes out.old ++ field_text first name.now field ip_text) }
{
    match field {
        None => Ok(()),
        Some(ip) => {
            push_comma(out, first)?;
            out.push_str(name)?;
            push_address(out, ip.0)
        }
    }
}

fn push_port_field(
    out: &mut String,
    first: bool,
    name: &str,
    field: Option<u16>,
) -> Result<(), AllocError>
    ensures { OnOk result (string_bytes out.new ≡ string_bytes out.old ++ field_text first name.now field decimal) }
{
    match field {
        None => Ok(()),
        Some(port) => {
            push_comma(out, first)?;
            out.push_str(name)?;
            push_number(out, port as u32)
        }
    }
}

// A comma, but in front of the first field.
fn push_comma(out: &mut String, first: bool) -> Result<(), AllocError>
    ensures { OnOk result (string_bytes out.new ≡ string_bytes out.old ++ comma first) }
{
    if first { Ok(()) } else { out.push_str(",") }
}

#[tactic(auto, using(std::proofs::Common::append_assoc))]
fn push_assign(out: &mut String, fields: Assign) -> Result<(), AllocError>
    ensures { OnOk result (string_bytes out.new ≡ string_bytes out.old ++ assign_text fields) }
{
    push_address_field(out, true, "srcip=", fields.src)?;
    push_address_field(out, fields.src.is_none(), "dstip=", fields.dst)?;
    push_port_field(
        out,
        fields.src.is_none() && fields.dst.is_none(),
        "srcport=",
        fields.sport,
    )?;
    push_port_field(
        out,
        fields.src.is_none() && fields.dst.is_none() && fields.sport.is_none(),
        "dstport=",
        fields.dport,
    )
}

/// The canonical text of a tree.
pub fn print(alloc: Global, tree: &Tree<'_>) -> Result<String, Memory>
    ensures { IfOk result (λ s. string_bytes s ≡ canonical (policy_of tree.now)) }
{
    let mut out = String::new(alloc);
    push_policy(&mut out, Level::Loose, tree)?;
    Ok(out)
}
