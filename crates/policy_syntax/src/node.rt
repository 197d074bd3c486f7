//! A tree, one level at a time.

use crate::tree::{Pred, Target, Tree};
use net_types::{Assign, Span};

/// What stands at the top of a tree.
#[derive(Clone, Copy)]
pub enum Node<'t, 'a> {
    Drop,
    Pass,
    Block,
    Fwd(Target<'a>, Span),
    Test(&'t Pred<'a>),
    Set(Assign, Span),
    Both(&'t Tree<'a>, &'t Tree<'a>),
    Then(&'t Tree<'a>, &'t Tree<'a>),
}

impl<'a> Tree<'a> {
    ghost use Rattle.std.specs.Prelude.{◌≡◌};
    ghost use Rattle.policy_syntax.specs.Views.{policy_of};
    ghost use Rattle.policy_syntax.specs.Nodes.{node_of};

    /// The top of the tree.
    pub fn node(&self) -> Node<'_, 'a>
        ensures { node_of result ≡ policy_of self.now }
    {
        match self {
            Tree::Drop => Node::Drop,
            Tree::Pass => Node::Pass,
            Tree::Block => Node::Block,
            Tree::Fwd(target, span) => Node::Fwd(*target, *span),
            Tree::Match(pred) => Node::Test(pred),
            Tree::Set(fields, span) => Node::Set(*fields, *span),
            Tree::Both(a, b) => Node::Both(a, b),
            Tree::Then(a, b) => Node::Then(a, b),
        }
    }
}
