//! Participants by their places and by their names.

ghost use Rattle.std.specs.Prelude.{◌≡◌, ◌++◌, ◌∷◌, [], List, length, IfSome, ◌<◌, OnOk, OnErr, false, None};
ghost use Rattle.std.specs.List.{list_any, position_from};
ghost use Rattle.net_types.specs.Octets.{same_octets};

use crate::index::put;
use indexmap::IndexSet;
use net_types::{Ip, Items, Memory, Participant};
use std::alloc::Global;
use std::marker::Model;

/// A list of participants, with their names.
#[derive(Drop)]
pub struct Participants {
    list: Vec<Participant>,
    names: IndexSet<Vec<u8>>,
}

impl Model for Participants {
    ghost use Rattle.std.specs.Prelude.{◌≡◌, List, map};
    ghost use Rattle.net_types.specs.declared.route.Participant.{Participant};

    ghost Value = { List Participant };

    ghost view = { λ a. a.list.items };

    ghost invariant = { λ a. map (λ k. k.items) a.names.keys ≡ map (λ (m : Participant). m.name) a.list.items };
}

impl Participants {
    pub fn new(alloc: Global) -> Participants
        ensures { result ≡ [] }
    {
        Participants {
            list: Vec::new(alloc),
            names: IndexSet::new(alloc),
        }
    }

    pub fn list(&self) -> &[Participant]
        ensures { result.now ≡ self.now }
    {
        self.list.as_slice()
    }

    /// The place of a name.
    pub fn place(&self, name: &[u8]) -> Option<usize>
        ensures place { result ≡ position_from (λ m. same_octets m.name name.now) 0 self.now }
        ensures within { IfSome result (λ place. place < length self.now) }
    {
        self.names.get_index_of(name)
    }

    /// Puts a participant with a new name last. After want of memory the list is as it was.
    pub fn add(&mut self, name: &[u8], asn: u32, id: Ip) -> Result<(), Memory>
        requires { position_from (λ m. same_octets m.name name.now) 0 self.old ≡ None }
        ensures ok { OnOk result (self.new ≡ self.old ++ (record { name = name.now; asn = asn; id = id }) ∷ []) }
        ensures err { OnErr result (self.new ≡ self.old) }
    {
        let alloc = *self.list.allocator();
        let own = Items::from_vec(Vec::from_slice(alloc, name)?);
        let key = Vec::from_slice(alloc, name)?;
        self.names.reserve(1)?;
        self.list.push(Participant { name: own, asn, id })?;
        put(&mut self.names, key);
        Ok(())
    }
}
