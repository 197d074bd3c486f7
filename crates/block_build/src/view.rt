//! The classifiers that the rules of a pair come from.

ghost use Rattle.std.specs.Prelude.{◌≡◌, ◌++◌, ◌∷◌, [], IsTrue, OnOk, OnErr};
ghost use Rattle.classifier.specs.Classifiers.{lines_of};
ghost use Rattle.classifier.specs.Meaning.{HasDistinctCubes, ends_with_everything};
ghost use Rattle.block_build.specs.Views.{IsTotal, inbound_of};

use classifier::{Classifier, Line};
use net_types::{Memory, Pid};
use std::alloc::Global;
use std::marker::Model;

/// The inbound classifier of a participant.
#[derive(Drop)]
pub struct Inbound<'p> {
    who: Pid,
    classifier: &'p Classifier,
}

/// The outbound classifier of a sender and the inbound classifiers of participants that it may reach, all borrowed.
/// Contracts see the rules of each.
#[derive(Drop)]
pub struct View<'p> {
    outbound: &'p Classifier,
    inbounds: Vec<Inbound<'p>>,
}

impl<'p> Model for View<'p> {
    ghost use Rattle.std.specs.Prelude.{map};
    ghost use Rattle.classifier.specs.Classifiers.{lines_of};
    ghost use Rattle.block_build.specs.Views.{IsTotal, Viewed, entry};

    ghost Value = { Viewed };

    ghost view = { λ v. record { outbound = lines_of v.outbound.now; inbound = map entry v.inbounds.items } };

    ghost invariant = { λ v. IsTotal (record { outbound = lines_of v.outbound.now; inbound = map entry v.inbounds.items }) };
}

impl<'p> View<'p> {
    /// A view of a sender's outbound classifier, as yet without receivers.
    pub fn new(alloc: Global, outbound: &'p Classifier) -> View<'p>
        ensures outbound { result.outbound ≡ lines_of outbound.now }
        ensures inbound { result.inbound ≡ [] }
    {
        View {
            outbound,
            inbounds: Vec::new(alloc),
        }
    }

    /// Adds a participant's inbound classifier. Where the participant was added before, the first one stays in force. After
    /// want of memory the view is unchanged.
    pub fn add(&mut self, who: Pid, inbound: &'p Classifier) -> Result<(), Memory>
        ensures ok { OnOk result (self.new ≡ record self.old { inbound = self.old.inbound ++ (who, lines_of inbound.now) ∷ [] }) }
        ensures err { OnErr result (self.new ≡ self.old) }
    {
        self.inbounds.push(Inbound {
            who,
            classifier: inbound,
        })?;
        Ok(())
    }

    /// The rules of the sender: their cubes differ, and the last has all headers.
    pub fn outbound(&self) -> &[Line]
        ensures rules { result.now ≡ self.now.outbound }
        ensures distinct { HasDistinctCubes result.now }
        ensures total { IsTrue (ends_with_everything result.now) }
    {
        self.outbound.lines()
    }

    /// The rules of a participant as a receiver; none where it wasn't added.
    pub fn inbound(&self, who: Pid) -> &[Line]
        ensures { result.now ≡ inbound_of self.now who }
    {
        for entry in self.inbounds.iter() {
            if entry.who == who {
                return entry.classifier.lines();
            }
        }
        &[]
    }

    /// The rules of all its classifiers give something to all headers.
    pub(crate) fn known(&self)
        ensures { IsTotal self.now }
    {
        let _ = &self.outbound;
    }
}
