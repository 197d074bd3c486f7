//! Policies as trees in an arena.

use net_types::{Assign, Ip, PortNo, Prefix, Span};

/// An assignment to one field.
#[derive(Clone, Copy)]
pub(crate) enum Field {
    Src(Ip),
    Dst(Ip),
    Sport(u16),
    Dport(u16),
}

impl Field {
    ghost use Rattle.std.specs.Prelude.{◌≡◌};
    ghost use Rattle.net_types.specs.PolicyGrammar.{with_field};
    ghost use Rattle.policy_syntax.specs.Views.{field_of};

    /// These assignments and this one, which counts where both set a field.
    pub(crate) fn added_to(self, all: Assign) -> Assign
        ensures { result ≡ with_field all (field_of self) }
    {
        let mut all = all;
        match self {
            Field::Src(ip) => all.src = Some(ip),
            Field::Dst(ip) => all.dst = Some(ip),
            Field::Sport(number) => all.sport = Some(number),
            Field::Dport(number) => all.dport = Some(number),
        }
        all
    }
}

/// Whom a forward names: a participant, as the text writes it, or a port.
#[derive(Clone, Copy, Debug, PartialEq, Eq)]
pub enum Target<'a> {
    Name(&'a str),
    Number(PortNo),
}

/// A test of one field.
#[derive(Clone, Copy, Debug, PartialEq, Eq)]
pub enum Test {
    Inport(PortNo),
    Src(Prefix),
    Dst(Prefix),
    Proto(u8),
    Sport(u16),
    Dport(u16),
}

/// A predicate, with the places of its tests.
#[derive(Clone, Copy)]
pub enum Pred<'a> {
    Yes,
    Is(Test, Span),
    Not(&'a Pred<'a>),
    And(&'a Pred<'a>, &'a Pred<'a>),
    Or(&'a Pred<'a>, &'a Pred<'a>),
}

/// A policy, with the places of its forwards and assignments. Callers look at it through `node`.
#[derive(Clone, Copy)]
pub enum Tree<'a> {
    Drop,
    Pass,
    Block,
    Fwd(Target<'a>, Span),
    Match(Pred<'a>),
    Set(Assign, Span),
    Both(&'a Tree<'a>, &'a Tree<'a>),
    Then(&'a Tree<'a>, &'a Tree<'a>),
}
