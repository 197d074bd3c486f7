//! Three participants with four ports.

ghost use Rattle.std.specs.Prelude.{◌≡◌, ◌≤◌, ◌+◌, [], IfOk, OnOk, length, replicate};
ghost use Rattle.std.specs.FinMap as map;
ghost use Rattle.plan_cases.specs.Parts.{AreDeclared};

use crate::wrong::Wrong;
use advert_queue::Adverts;
use net_types::{Ip, Mac, Memory, Pid, PortNo};
use registry::Registry;
use route_server::RouteServer;
use std::alloc::Global;

/// A participant more.
fn add_participant(names: &mut Registry, name: &str, asn: u32, id: Ip) -> Result<(), Wrong>
    requires { AreDeclared names.old }
    ensures { OnOk result (AreDeclared names.new) }
{
    names.add_participant(name, asn, id)?;
    Ok(())
}

/// A port more, of a participant that is declared.
fn add_port(names: &mut Registry, owner: Pid, number: PortNo, ip: Ip) -> Result<(), Wrong>
    requires { AreDeclared names.old }
    ensures { OnOk result (AreDeclared names.new) }
{
    let there = names.participants().len();
    if owner.0 as usize >= there || number.0 == 0 || number.0 > 255 {
        return Err(Wrong::Row);
    }
    let mac = Mac([2, 0, 0, 0, 0, number.0 as u8]);
    names.add_port(owner, number, ip, mac)?;
    Ok(())
}

/// A has the port 1, B the ports 2 and 3, and C the port 4.
pub fn three(alloc: Global) -> Result<Registry, Wrong>
    ensures { IfOk result AreDeclared }
{
    let mut names = Registry::new(alloc);
    add_participant(&mut names, "A", 65001, Ip(0x01000001))?;
    add_participant(&mut names, "B", 65002, Ip(0x01000002))?;
    add_participant(&mut names, "C", 65003, Ip(0x01000003))?;
    add_port(&mut names, Pid(0), PortNo(1), Ip(0xAC100101))?;
    add_port(&mut names, Pid(1), PortNo(2), Ip(0xAC100102))?;
    add_port(&mut names, Pid(1), PortNo(3), Ip(0xAC100103))?;
    add_port(&mut names, Pid(2), PortNo(4), Ip(0xAC100104))?;
    Ok(names)
}

/// A route server without routes, for so many participants.
pub fn no_routes(alloc: Global, participants: usize) -> Result<RouteServer, Memory>
    ensures routes { IfOk result (λ server. server.routes ≡ map.empty) }
    ensures named { IfOk result (λ server. server.named ≡ replicate participants []) }
{
    let mut server = RouteServer::new(alloc);
    for joined in 0..participants {
        server.add_participant()?;
    }
    Ok(server)
}

/// So many participants, of whom nobody was told anything, and for whom nothing is present.
pub fn nothing_told(alloc: Global, participants: usize) -> Result<Adverts, Memory>
    ensures told { IfOk result (λ adverts. adverts.told ≡ replicate participants map.empty) }
    ensures present { IfOk result (λ adverts. adverts.present ≡ replicate participants map.empty) }
{
    let mut adverts = Adverts::new(alloc);
    for joined in 0..participants {
        adverts.push()?;
    }
    Ok(adverts)
}
