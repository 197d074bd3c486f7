//! What a participant may do with the packets that it receives.

ghost use Rattle.std.specs.Prelude.{◌≡◌, ℕ, List, IfErr};
ghost use Rattle.policy_syntax.specs.Views.{test_of, target_of, pred_of, policy_of};
ghost use Rattle.policy_syntax.specs.Nodes.{node_of};
ghost use Rattle.net_types.specs.PolicyTexts.{SpellsPolicy};
ghost use Rattle.net_types.specs.Isolation.{IsFirstInText, first_of, pred_faults, in_test, in_target, in_faults};

use crate::fault::refused;
use crate::names::Names;
use crate::ports::own_port;
use net_types::{IsolateFault, Kind, Pid, Span};
use policy_syntax::{Node, Pred, Target, Test, Tree};

fn tested(test: Test, span: Span) -> Result<(), IsolateFault>
    ensures { result ≡ first_of (in_test (test_of test) span) }
{
    match test {
        Test::Inport(_) => refused(Kind::InportInbound, span),
        Test::Src(_) => Ok(()),
        Test::Dst(_) => Ok(()),
        Test::Proto(_) => Ok(()),
        Test::Sport(_) => Ok(()),
        Test::Dport(_) => Ok(()),
    }
}

#[tactic(auto, using(crate::proofs::FirstFault::first_then, crate::proofs::FirstFault::first_stays))]
fn matched(pred: &Pred<'_>) -> Result<(), IsolateFault>
    ensures { result ≡ first_of (pred_faults in_test (pred_of pred.now)) }
{
    match pred {
        Pred::Yes => Ok(()),
        Pred::Is(test, span) => tested(*test, *span),
        Pred::Not(inner) => matched(inner),
        Pred::And(first, second) => {
            matched(first)?;
            matched(second)
        }
        Pred::Or(first, second) => {
            matched(first)?;
            matched(second)
        }
    }
}

fn forwarded<N: Names>(
    names: &N,
    me: Pid,
    target: Target<'_>,
    span: Span,
) -> Result<(), IsolateFault>
    ensures { result ≡ first_of (in_target (N.owner_of names.now) me (target_of target.entry) span) }
{
    match target {
        Target::Number(port) => own_port(names, me, port, span),
        Target::Name(_) => refused(Kind::FwdKind, span),
    }
}

#[cycle(inbound)]
#[tactic(auto, using(crate::proofs::FirstFault::first_then, crate::proofs::FirstFault::first_stays))]
fn passed<N: Names>(names: &N, me: Pid, node: Node<'_, '_>) -> Result<(), IsolateFault>
    ensures { result ≡ first_of (in_faults (N.owner_of names.now) me (node_of node.entry)) }
{
    match node {
        Node::Drop => Ok(()),
        Node::Pass => Ok(()),
        Node::Block => Ok(()),
        Node::Fwd(target, span) => forwarded(names, me, target, span),
        Node::Test(pred) => matched(pred),
        Node::Set(_, _) => Ok(()),
        Node::Both(first, second) => {
            check_in(first, names, me)?;
            check_in(second, names, me)
        }
        Node::Then(first, second) => {
            check_in(first, names, me)?;
            check_in(second, names, me)
        }
    }
}

/// Whether a participant may have the policy as its inbound one; the first fault in the text where it may not.
#[cycle(inbound)]
pub fn check_in<N: Names>(tree: &Tree<'_>, names: &N, me: Pid) -> Result<(), IsolateFault>
    // It may have a policy without faults.
    ensures told { result ≡ first_of (in_faults (N.owner_of names.now) me (policy_of tree.now)) }
    // Of a tree that a text spells no other fault begins before the one that is told.
    ensures first { (text : List ℕ) → SpellsPolicy text (policy_of tree.now) → IfErr result (λ fault. IsFirstInText fault (in_faults (N.owner_of names.now) me (policy_of tree.now))) }
{
    passed(names, me, tree.node())
}
