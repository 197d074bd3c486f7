//! The lines that declare: the pool and the table, participants and their ports.

ghost use Rattle.std.specs.Prelude.{◌≡◌, ◌||◌, ◌∷◌, [], List, ℕ, Some, take, replicate, IfErr, IfOk, OnErr};
ghost use Rattle.std.specs.FinMap as map;
ghost use Rattle.events.specs.Forms.{IsWellFormed};
ghost use Rattle.events.specs.Fits.{IsStep};
ghost use Rattle.events.specs.declared.Event.TheVariants as lines;
ghost use Rattle.events.specs.declared.Phase.TheVariants.{Declaring, Start};
ghost use Rattle.net_types.specs.Exports.{pid_of};
ghost use Rattle.net_types.specs.Octets.{same_octets};
ghost use Rattle.exchange_core.specs.Placed.{lies_in};
ghost use Rattle.exchange_core.specs.Stops.{IsStop};

use super::Core;
use crate::address_set::AddressSet;
use crate::pool_range::is_in_pool;
use crate::programs::both_dropping;
use crate::replies::bare_reply;
use crate::stop::Stop;
use advert_queue::Adverts;
use events::{Head, Phase, Refusal, Reply};
use net_types::{Ip, Mac, Memory, Name, Pid, PortNo};
use next_hop_pool::Pool;
use std::alloc::Global;

impl Core {
    pub(super) fn exchange(&mut self, base: Ip, size: u32, capacity: u32) -> Result<Reply, Memory>
        requires formed { IsWellFormed (lines.Exchange base size capacity) }
        requires first { self.old.phase ≡ Start }
        ensures step { IfOk result (λ reply. IsStep self.old (lines.Exchange base size capacity) reply self.new) }
        ensures unchanged { OnErr result (self.new ≡ self.old) }
    {
        let pool = Pool::new(self.alloc, base, size)?;
        self.pool = pool;
        self.switch.set_capacity(capacity as usize);
        self.phase = Phase::Declaring;
        self.base = base;
        self.size = size;
        Ok(bare_reply(self.alloc, Head::Fine))
    }

    pub(super) fn participant(&mut self, name: &Name, asn: u32, id: Ip) -> Result<Reply, Stop>
        requires formed { IsWellFormed (lines.Participant name.now asn id) }
        requires declaring { self.old.phase ≡ Declaring }
        ensures step { IfOk result (λ reply. IsStep self.old (lines.Participant name.now asn id) reply self.new) }
        ensures stop { IfErr result (IsStop self.old (lines.Participant name.now asn id)) }
        ensures unchanged { OnErr result (self.new ≡ self.old) }
    {
        if self.registry.find_octets(name.items()).is_some() {
            return Err(Refusal::Clash.into());
        }
        let declared = self.registry.participants().len();
        if declared >= 256 {
            return Err(Refusal::Full.into());
        }
        let programs = both_dropping(self.alloc)?;
        let adverts = nothing_told(self.alloc, declared + 1)?;
        self.programs.reserve(1)?;
        self.server.add_participant()?;
        match self.registry.add_octets(name.items(), asn, id) {
            Ok(_) => {}
            Err(_) => {
                self.server.drop_last();
                return Err(Stop::Memory);
            }
        }
        self.adverts = adverts;
        match self.programs.push(programs) {
            Ok(()) => Ok(bare_reply(self.alloc, Head::Fine)),
            Err(_) => unreachable!(),
        }
    }

    pub(super) fn port(
        &mut self,
        owner: Pid,
        number: PortNo,
        ip: Ip,
        mac: Mac,
    ) -> Result<Reply, Stop>
        requires declaring { self.old.phase ≡ Declaring }
        requires line { (name : List ℕ) × IsWellFormed (lines.Port name number ip mac) × (pid_of self.old.routing name ≡ Some owner) }
        ensures step { IfOk result (λ reply. (name : List ℕ) → IsWellFormed (lines.Port name number ip mac) → pid_of self.old.routing name ≡ Some owner → IsStep self.old (lines.Port name number ip mac) reply self.new) }
        ensures stop { IfErr result (λ stop. (name : List ℕ) → pid_of self.old.routing name ≡ Some owner → IsStop self.old (lines.Port name number ip mac) stop) }
        ensures unchanged { OnErr result (self.new ≡ self.old) }
    {
        let in_use = self.registry.is_taken(number, ip, mac);
        if is_barred(in_use, self.base, self.size, ip, mac) {
            return Err(Refusal::Clash.into());
        }
        self.resolved.push(AddressSet::new(self.alloc))?;
        match self.registry.add_port(owner, number, ip, mac) {
            Ok(()) => Ok(bare_reply(self.alloc, Head::Fine)),
            Err(_) => {
                self.resolved.pop();
                Err(Stop::Memory)
            }
        }
    }
}

/// So many participants, of whom nobody was told anything, and for whom nothing is present.
fn nothing_told(alloc: Global, participants: usize) -> Result<Adverts, Memory>
    ensures told { IfOk result (λ adverts. adverts.told ≡ replicate participants map.empty) }
    ensures present { IfOk result (λ adverts. adverts.present ≡ replicate participants map.empty) }
{
    let mut adverts = Adverts::new(alloc);
    for joined in 0..participants {
        adverts.push()?;
    }
    Ok(adverts)
}

/// Whether a port's number or one of its addresses is in use, or they lie in the pool or among the MACs of tags.
fn is_barred(in_use: bool, base: Ip, size: u32, ip: Ip, mac: Mac) -> bool
    ensures { result ≡ (in_use || lies_in base size ip || same_octets (take 3 mac.0) (2 ∷ 83 ∷ 68 ∷ [])) }
{
    let in_pool = is_in_pool(base, size, ip);
    let reserved = is_reserved(mac);
    in_use || in_pool || reserved
}

/// Whether a hardware address is one of those of tags.
fn is_reserved(mac: Mac) -> bool
    ensures { result ≡ same_octets (take 3 mac.0) (2 ∷ 83 ∷ 68 ∷ []) }
{
    &mac.0[..3] == [2u8, 83, 68].as_slice()
}
