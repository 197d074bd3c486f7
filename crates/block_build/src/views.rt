//! The classifiers of all participants.

ghost use Rattle.std.specs.Prelude.{◌≡◌, ◌<◌, ◌++◌, ◌∷◌, [], length, map, IsTrue, IfOk, OnOk, OnErr};
ghost use Rattle.classifier.specs.Classifiers.{lines_of};
ghost use Rattle.net_types.specs.Sets.{Member};
ghost use Rattle.block_build.specs.Lent.{inbound_at, outbound_at};
ghost use Rattle.block_build.specs.Right.{are_for_any_port};
ghost use Rattle.block_build.specs.Views.{has_all, inbound_of};

use crate::spread::are_for_any_port;
use crate::view::View;
use classifier::{Classifier, Line};
use net_types::{Memory, Offer, Part, Pid};
use std::alloc::Global;
use std::marker::Model;

/// The two classifiers of a participant.
#[derive(Drop)]
pub struct Both<'p> {
    outbound: &'p Classifier,
    inbound: &'p Classifier,
}

/// The classifiers of all participants, in order of declaration, borrowed. Contracts see the rules of each.
#[derive(Drop)]
pub struct Views<'p> {
    all: Vec<Both<'p>>,
}

/// Whether two rules are the same.
fn is_same(one: &Line, other: &Line) -> bool
    ensures { IsTrue result → one.now ≡ other.now }
{
    one.cube == other.cube && one.results.equals(&other.results)
}

/// Whether two lists have the same rules in the same order.
fn are_same(one: &[Line], other: &[Line]) -> bool
    ensures { IsTrue result → one.now ≡ other.now }
{
    if one.len() != other.len() {
        return false;
    }
    for i in 0..one.len() {
        if !is_same(&one[i], &other[i]) {
            return false;
        }
    }
    true
}

impl<'p> Model for Views<'p> {
    ghost use Rattle.std.specs.Prelude.{List, map};
    ghost use Rattle.block_build.specs.Lent.{Lent, lent};

    ghost Value = { List Lent };

    ghost view = { λ v. map lent v.all.items };
}

impl<'p> Views<'p> {
    /// The classifiers of nobody.
    pub fn new(alloc: Global) -> Views<'p>
        ensures { result ≡ [] }
    {
        Views {
            all: Vec::new(alloc),
        }
    }

    /// Adds the classifiers of the participant that was declared next. After want of memory all is unchanged.
    pub fn push(&mut self, outbound: &'p Classifier, inbound: &'p Classifier) -> Result<(), Memory>
        ensures ok { OnOk result (self.new ≡ self.old ++ (record { outbound = lines_of outbound.now; inbound = lines_of inbound.now }) ∷ []) }
        ensures err { OnErr result (self.new ≡ self.old) }
    {
        self.all.push(Both { outbound, inbound })?;
        Ok(())
    }

    /// The view that a part's rules are built from: the outbound classifier of its sender and the inbound ones of the
    /// participants in its offers. Memory is the only refusal.
    pub fn view(&self, alloc: Global, part: &Part) -> Result<View<'p>, Memory>
        requires sender { part.now.sender.0 < length self.now }
        requires exporters { (offer : Offer) → Member offer part.now.offers → offer.exporter.0 < length self.now }
        ensures outbound { IfOk result (λ view. view.outbound ≡ outbound_at self.now part.now.sender) }
        ensures inbound { IfOk result (λ view. view.inbound ≡ map (λ offer. (offer.exporter, inbound_at self.now offer.exporter)) part.now.offers) }
        ensures has_all { IfOk result (λ view. IsTrue (has_all view part.now.offers)) }
        ensures receivers { IfOk result (λ view. (offer : Offer) → Member offer part.now.offers → inbound_of view offer.exporter ≡ inbound_at self.now offer.exporter) }
    {
        let mut view = View::new(alloc, self.both(part.sender).outbound);
        for offer in part.offers.items() {
            let who = offer.exporter;
            view.add(who, self.both(who).inbound)?;
        }
        Ok(view)
    }

    /// Whether two participants have the same rules as senders. Where they have, the rules may still be said not to be.
    pub fn send_alike(&self, one: Pid, other: Pid) -> bool
        requires one { one.0 < length self.now }
        requires other { other.0 < length self.now }
        ensures { IsTrue result → outbound_at self.now one ≡ outbound_at self.now other }
    {
        let one = self.both(one).outbound;
        let other = self.both(other).outbound;
        are_same(one.lines(), other.lines())
    }

    /// Whether no rule of a participant as a sender tells by which port a packet has to come in.
    pub fn sends_from_any_port(&self, who: Pid) -> bool
        requires { who.0 < length self.now }
        ensures { result ≡ are_for_any_port (outbound_at self.now who) }
    {
        let own = self.both(who).outbound;
        are_for_any_port(own.lines())
    }

    /// The classifiers of a participant.
    fn both(&self, who: Pid) -> &Both<'p>
        requires { who.0 < length self.now }
        ensures outbound { lines_of result.now.outbound.now ≡ outbound_at self.now who }
        ensures inbound { lines_of result.now.inbound.now ≡ inbound_at self.now who }
    {
        &self.all[who.0 as usize]
    }
}
