//! What is declared.

ghost use Rattle.std.specs.Prelude.{◌≡◌, ◌≤◌, ◌<◌, ◌++◌, ◌∷◌, [], ◌↔◌, true, false, is_some, length, slice_get, IsTrue, IfOk, OnOk, OnErr, None, IfSome, nat_eq};
ghost use Rattle.std.specs.List.{position_from};
ghost use Rattle.std.specs.Option.{option_copied};
ghost use Rattle.registry.specs.Registered.{Registered, named, port_of, port_with, first_port, ports_of, has_address, is_taken, with_participant, with_port};

use crate::fault::RegFault;
use crate::participants::Participants;
use crate::ports::Ports;
use net_types::{Ip, Mac, Participant, Pid, PortInfo, PortNo};
use std::alloc::Global;
use std::marker::Model;

/// How many participants there may be.
const MOST_PARTICIPANTS: usize = 256;

/// Participants and ports, in order of declaration. A participant's `Pid` is its place.
#[derive(Drop)]
pub struct Registry {
    participants: Participants,
    ports: Ports,
}

impl Model for Registry {
    ghost use Rattle.std.specs.Prelude.{◌≤◌, length};
    ghost use Rattle.registry.specs.Registered.{Registered};

    ghost Value = { Registered };

    ghost view = { λ a. record { participants = a.participants; ports = a.ports } };

    ghost invariant = { λ a. length a.participants ≤ 256 };
}

impl Registry {
    /// Nothing is declared.
    pub fn new(alloc: Global) -> Registry
        ensures { result ≡ record { participants = []; ports = [] } }
    {
        Registry {
            participants: Participants::new(alloc),
            ports: Ports::new(alloc),
        }
    }

    /// Declares a participant under a new name, by its AS and its BGP identifier. Names are octets: `A` and `a` are two.
    /// `Taken` comes before `Full`; after a refusal nothing is declared by the call.
    pub fn add_participant(&mut self, name: &str, asn: u32, id: Ip) -> Result<Pid, RegFault>
        ensures taken { (result ≡ Err RegFault.Taken) ↔ (is_some (named self.old name.now) ≡ true) }
        ensures full { (result ≡ Err RegFault.Full) ↔ ((is_some (named self.old name.now) ≡ false) × (256 ≤ length self.old.participants)) }
        ensures place { IfOk result (λ who. who.0 ≡ length self.old.participants) }
        ensures declared { OnOk result (self.new ≡ with_participant self.old (record { name = name.now; asn = asn; id = id })) }
        ensures unchanged { OnErr result (self.new ≡ self.old) }
    {
        self.add_octets(name.as_bytes(), asn, id)
    }

    /// Declares a participant whose name has these octets, as `add_participant` does.
    pub fn add_octets(&mut self, name: &[u8], asn: u32, id: Ip) -> Result<Pid, RegFault>
        ensures taken { (result ≡ Err RegFault.Taken) ↔ (is_some (named self.old name.now) ≡ true) }
        ensures full { (result ≡ Err RegFault.Full) ↔ ((is_some (named self.old name.now) ≡ false) × (256 ≤ length self.old.participants)) }
        ensures place { IfOk result (λ who. who.0 ≡ length self.old.participants) }
        ensures declared { OnOk result (self.new ≡ with_participant self.old (record { name = name.now; asn = asn; id = id })) }
        ensures unchanged { OnErr result (self.new ≡ self.old) }
    {
        if self.find_octets(name).is_some() {
            return Err(RegFault::Taken);
        }
        let place = self.participants().len();
        if place >= MOST_PARTICIPANTS {
            return Err(RegFault::Full);
        }
        match self.participants.add(name, asn, id) {
            Ok(()) => Ok(Pid(place as u32)),
            Err(_) => Err(RegFault::Memory),
        }
    }

    /// Declares a port of a participant, with the addresses of the router at it. After a refusal nothing is declared by
    /// the call.
    pub fn add_port(&mut self, owner: Pid, number: PortNo, ip: Ip, mac: Mac) -> Result<(), RegFault>
        requires { owner.0 < length self.old.participants }
        ensures taken { (result ≡ Err RegFault.Taken) ↔ (is_taken self.old number ip mac ≡ true) }
        ensures never_full { result ≡ Err RegFault.Full → ⊥ }
        ensures declared { OnOk result (self.new ≡ with_port self.old (record { owner = owner; number = number; ip = ip; mac = mac })) }
        ensures unchanged { OnErr result (self.new ≡ self.old) }
    {
        if self.is_taken(number, ip, mac) {
            return Err(RegFault::Taken);
        }
        let port = PortInfo {
            owner,
            number,
            ip,
            mac,
        };
        match self.ports.add(port) {
            Ok(()) => Ok(()),
            Err(_) => Err(RegFault::Memory),
        }
    }

    /// All participants.
    pub fn participants(&self) -> &[Participant]
        ensures all { result.now ≡ self.now.participants }
        ensures few { length self.now.participants ≤ 256 }
    {
        self.participants.list()
    }

    /// All ports.
    pub fn ports(&self) -> &[PortInfo]
        ensures { result.now ≡ self.now.ports }
    {
        self.ports.list()
    }

    /// The participant of a name; none where it is not declared.
    pub fn find(&self, name: &str) -> Option<Pid>
        ensures { result ≡ named self.now name.now }
    {
        self.find_octets(name.as_bytes())
    }

    /// The participant whose name has these octets; none where it is not declared.
    pub fn find_octets(&self, name: &[u8]) -> Option<Pid>
        ensures { result ≡ named self.now name.now }
    {
        match self.participants.place(name) {
            Some(place) => Some(Pid(place as u32)),
            None => None,
        }
    }

    /// What is declared of a participant.
    pub fn participant(&self, who: Pid) -> Option<&Participant>
        ensures { option_copied result ≡ slice_get self.now.participants who.0 }
    {
        self.participants.list().get(who.0 as usize)
    }

    /// The port of a number.
    pub fn port(&self, number: PortNo) -> Option<&PortInfo>
        ensures { option_copied result ≡ port_of self.now number }
    {
        self.ports.numbered(number)
    }

    /// The place of a port in the order of declaration, by its number.
    pub fn port_place(&self, number: PortNo) -> Option<usize>
        ensures place { result ≡ position_from (λ q. nat_eq q.number.0 number.0) 0 self.now.ports }
        ensures within { IfSome result (λ place. place < length self.now.ports) }
    {
        self.ports.place(number)
    }

    /// The port that has an address.
    pub fn port_with(&self, ip: Ip) -> Option<&PortInfo>
        ensures { option_copied result ≡ port_with self.now ip }
    {
        self.ports.with_address(ip)
    }

    /// The numbers of a participant's ports in order of declaration; none for one that is not declared.
    pub fn ports_of(&self, who: Pid) -> &[PortNo]
        ensures { result.now ≡ ports_of self.now who }
    {
        self.ports.of(who)
    }

    /// The first port that a participant declared.
    pub fn first_port(&self, who: Pid) -> Option<&PortInfo>
        ensures { option_copied result ≡ first_port self.now who }
    {
        self.ports.first_of(who)
    }

    /// Whether one of a participant's ports has an address.
    pub fn has_address(&self, who: Pid, ip: Ip) -> bool
        ensures { result ≡ has_address self.now who ip }
    {
        self.ports.owns_address(who, ip)
    }

    /// Whether some port has this number, this address or this hardware address.
    pub fn is_taken(&self, number: PortNo, ip: Ip, mac: Mac) -> bool
        ensures { result ≡ is_taken self.now number ip mac }
    {
        self.ports.has(number, ip, mac)
    }
}
