//! The policies of a row.

ghost use Rattle.std.specs.Prelude.{◌≡◌, length, IfOk};

use crate::fault::Fault;
use block_build::Views;
use bumpalo::Bump;
use classifier::{Classifier, Results, single};
use net_types::Memory;
use policy_compile::compile;
use policy_syntax::{SyntaxFault, parse};
use registry::Registry;
use std::alloc::Global;

/// The outbound policy of a sender, and the inbound policy of each participant.
#[derive(Drop)]
pub struct Policies {
    outbound: Classifier,
    inbounds: Vec<Classifier>,
}

fn dropping(alloc: Global) -> Result<Classifier, Memory> {
    single(alloc, Results::new(alloc))
}

fn compiled(alloc: Global, names: &Registry, text: &str) -> Result<Classifier, Fault> {
    let arena = Bump::new(alloc);
    match parse(alloc, &arena, text) {
        Ok(tree) => Ok(compile(alloc, &tree, names)?),
        Err(SyntaxFault::Memory) => Err(Fault::Memory),
        Err(_) => Err(Fault::Policy),
    }
}

impl Policies {
    /// Policies that drop.
    pub fn new(alloc: Global, names: &Registry) -> Result<Policies, Memory> {
        let outbound = dropping(alloc)?;
        let mut inbounds = Vec::new(alloc);
        for _ in names.participants() {
            inbounds.push(dropping(alloc)?)?;
        }
        Ok(Policies { outbound, inbounds })
    }

    fn set_inbound(&mut self, alloc: Global, names: &Registry, text: &str) -> Result<(), Fault> {
        let (name, text) = text.split_once(' ').unwrap_or((text, ""));
        let Some(who) = names.find(name) else {
            return Err(Fault::Policy);
        };
        let made = compiled(alloc, names, text)?;
        match self.inbounds.get_mut(who.0 as usize) {
            None => Err(Fault::Policy),
            Some(inbound) => {
                *inbound = made;
                Ok(())
            }
        }
    }

    /// Takes `out POLICY` or `in NAME POLICY`.
    pub fn set(&mut self, alloc: Global, names: &Registry, text: &str) -> Result<(), Fault> {
        match text.split_once(' ') {
            Some(("out", text)) => {
                self.outbound = compiled(alloc, names, text)?;
                Ok(())
            }
            Some(("in", text)) => self.set_inbound(alloc, names, text),
            _ => Err(Fault::Policy),
        }
    }

    /// How many participants there are.
    pub fn count(&self) -> usize
        ensures { result ≡ length self.now.inbounds.items }
    {
        self.inbounds.len()
    }

    /// The classifiers of all participants. Each of them sends by the same outbound one.
    pub fn views(&self, alloc: Global) -> Result<Views<'_>, Memory>
        ensures { IfOk result (λ views. length views ≡ length self.now.inbounds.items) }
    {
        let mut views = Views::new(alloc);
        for inbound in &self.inbounds {
            views.push(&self.outbound, inbound)?;
        }
        Ok(views)
    }
}
