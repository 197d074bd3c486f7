//! The actions of a rule.

ghost use Rattle.std.specs.Prelude.{◌≡◌, [], IfOk, OnOk, OnErr, List};
ghost use Rattle.std.specs.Ordering.{eq_by_cmp};
ghost use Rattle.net_types.specs.Actions.{action_cmp, assign_cmp, with_action};
ghost use Rattle.net_types.specs.Maps.{ordered};
ghost use Rattle.net_types.specs.declared.actions.Action.{Action};

use crate::address::PortNo;
use crate::copy::TryCopy;
use crate::headers::Assign;
use crate::memory::Memory;
use crate::same::Same;
use crate::shared_items::SharedItems;
use std::alloc::Global;
use std::cmp::Ordering;
use std::marker::Model;

/// Fields are set, and the packet leaves by the port.
#[derive(Clone, Copy, Debug, PartialEq, Eq)]
pub struct Action {
    pub port: PortNo,
    pub set: Assign,
}

/// Whether two assignments are the same.
fn same_set(one: &Assign, other: &Assign) -> bool
    ensures { result ≡ eq_by_cmp assign_cmp one.now other.now }
{
    let addresses = one.src == other.src && one.dst == other.dst;
    let ports = one.sport == other.sport && one.dport == other.dport;
    addresses && ports
}

impl Same for Action {
    ghost same = { eq_by_cmp action_cmp };

    fn same(&self, other: &Action) -> bool {
        self.port.0 == other.port.0 && same_set(&self.set, &other.set)
    }
}

/// The actions of a rule: each once, by port and then by srcip, dstip, srcport and dstport, where an absent field comes
/// before a present one.
#[derive(Drop)]
pub struct Actions {
    items: SharedItems<Action>,
}

impl Model for Actions {
    ghost Value = { List Action };

    ghost view = { λ a. a.items };
}

/// By srcip, dstip, srcport and dstport, an absent field before a present one.
fn order_sets(a: &Assign, b: &Assign) -> Ordering
    ensures { result ≡ assign_cmp a.now b.now }
{
    let ports = a.sport.cmp(&b.sport).then(a.dport.cmp(&b.dport));
    let targets = a.dst.cmp(&b.dst).then(ports);
    a.src.cmp(&b.src).then(targets)
}

/// By port, and then by what they set.
fn order(a: &Action, b: &Action) -> Ordering
    ensures { result ≡ action_cmp a.now b.now }
{
    let sets = order_sets(&a.set, &b.set);
    a.port.0.cmp(&b.port.0).then(sets)
}

/// Puts actions in order, each once.
fn put_in_order(actions: &mut Vec<Action>)
    ensures { actions.new.items ≡ ordered action_cmp actions.old.items }
{
    actions.sort_unstable_by(|a, b| order(a, b));
    actions.dedup_by(|a, b| order(a, b).is_eq());
}

impl Actions {
    /// No action: what has them is discarded.
    pub fn new(alloc: Global) -> Actions
        ensures { result ≡ [] }
    {
        Actions {
            items: SharedItems::new(alloc),
        }
    }

    /// The actions that are in a vector, in order, each once.
    pub fn from_vec(mut items: Vec<Action>) -> Actions
        ensures { result ≡ ordered action_cmp items.items }
    {
        put_in_order(&mut items);
        Actions {
            items: SharedItems::from_vec(items),
        }
    }

    /// The actions in order.
    pub fn items(&self) -> &[Action]
        ensures { result.now ≡ self.now }
    {
        self.items.items()
    }

    /// Puts an action in at its place; one that is there already isn't put in again. After want of memory nothing is
    /// changed.
    pub fn push(&mut self, action: Action) -> Result<(), Memory>
        ensures ok { OnOk result (self.new ≡ with_action self.old action) }
        ensures err { OnErr result (self.new ≡ self.old) }
    {
        let mut items = self.items.with(action)?;
        put_in_order(&mut items);
        self.items = SharedItems::from_vec(items);
        Ok(())
    }

    /// The same actions, of which a copy is a further owner, without the actions being copied.
    pub fn shared(self) -> Result<Actions, Memory>
        ensures { IfOk result (λ shared. shared ≡ self) }
    {
        let items = self.items.shared()?;
        Ok(Actions { items })
    }
}

impl TryCopy for Actions {
    /// A further owner of the actions where they are shared; else they are copied.
    fn copy(&self) -> Result<Actions, Memory> {
        let items = self.items.copy()?;
        Ok(Actions { items })
    }
}
