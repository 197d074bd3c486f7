//! A small exchange: A with port 1, B with the ports 2 and 3, C with port 4.

ghost use Rattle.std.specs.Prelude.{◌≡◌, ◌<◌, length, IfOk};
ghost use Rattle.std.specs.FinMap.{empty};
ghost use Rattle.route_server.specs.Served.{AreDeclared};

use crate::said::{Said, Who, prefix, update};
use crate::told::{bests, fault, prefixes, proposed, push_signature};
use crate::wrong::Wrong;
use export_rules::{Bound, parse_rules};
use net_types::{Ip, Items, Mac, Memory, Pid, Pids, PortNo};
use registry::{RegFault, Registry};
use route_server::RouteServer;
use std::alloc::Global;

/// Participants with their AS numbers and identifiers, and ports whose addresses end in their numbers.
fn declare(names: &mut Registry) -> Result<(), RegFault> {
    for (name, asn) in [("A", 65001), ("B", 65002), ("C", 65003)] {
        names.add_participant(name, asn, Ip(asn))?;
    }
    for (owner, number) in [(0, 1), (1, 2), (1, 3), (2, 4)] {
        if (owner as usize) < names.participants().len() {
            let ip = Ip(0xAC100100 + number as u32);
            let mac = Mac([2, 0, 0, 0, 0, number]);
            names.add_port(Pid(owner), PortNo(number as u16), ip, mac)?;
        }
    }
    Ok(())
}

fn three(alloc: Global) -> Result<Registry, Wrong>
    ensures { IfOk result (λ names. length names.participants ≡ 3) }
{
    let mut names = Registry::new(alloc);
    declare(&mut names)?;
    if names.participants().len() != 3 {
        return Err(Wrong::Row);
    }
    Ok(names)
}

/// A server of the three, without routes and rules.
fn server_of_three(alloc: Global, names: &Registry) -> Result<RouteServer, Memory>
    ensures rules { IfOk result (λ server. length server.rules ≡ 3) }
    ensures named { IfOk result (λ server. length server.named ≡ 3) }
    ensures declared { IfOk result (λ server. AreDeclared names.now server.routes) }
{
    let mut server = RouteServer::new(alloc);
    server.add_participant()?;
    server.add_participant()?;
    server.add_participant()?;
    Ok(server)
}

/// A participant's update is taken or refused; told are the touched prefixes or the fault.
fn run(
    alloc: Global,
    server: &mut RouteServer,
    names: &Registry,
    from: Who,
    said: Said,
) -> Result<String, Wrong>
    requires known { length names.now.participants ≡ 3 }
    requires declared { AreDeclared names.now server.old.routes }
    ensures declared { AreDeclared names.now server.new.routes }
    ensures rules { server.new.rules ≡ server.old.rules }
    ensures named { server.new.named ≡ server.old.named }
{
    let update = update(alloc, said)?;
    let proposal = match server.propose_update(names, from.pid(), &update) {
        Ok(proposal) => proposal,
        Err(why) => return fault(alloc, why),
    };
    let touched = prefixes(alloc, proposal.touched())?;
    server.reserve(&proposal)?;
    server.commit(proposal);
    Ok(touched)
}

/// A server after one update, of a participant.
fn server_after(
    alloc: Global,
    names: &Registry,
    from: Who,
    said: Said,
) -> Result<RouteServer, Wrong>
    requires { length names.now.participants ≡ 3 }
    ensures rules { IfOk result (λ server. length server.rules ≡ 3) }
    ensures named { IfOk result (λ server. length server.named ≡ 3) }
    ensures declared { IfOk result (λ server. AreDeclared names.now server.routes) }
{
    let mut server = server_of_three(alloc, names)?;
    run(alloc, &mut server, names, from, said)?;
    Ok(server)
}

/// The signature of 10.0.0.0/8 behind an earlier text.
fn with_signature(
    alloc: Global,
    server: &RouteServer,
    names: &Registry,
    told: String,
) -> Result<String, Wrong>
    requires { AreDeclared names.now server.now.routes }
{
    let mut told = told;
    push_signature(alloc, &mut told, &server.signature(names, prefix(10)?)?)?;
    Ok(told)
}

fn second(
    alloc: Global,
    server: &mut RouteServer,
    names: &Registry,
    from: Who,
    said: Said,
) -> Result<String, Wrong>
    requires known { length names.now.participants ≡ 3 }
    requires declared { AreDeclared names.now server.old.routes }
{
    let told = run(alloc, server, names, from, said)?;
    with_signature(alloc, server, names, told)
}

fn after_in(
    alloc: Global,
    names: &Registry,
    first: (Who, Said),
    then: (Who, Said),
) -> Result<String, Wrong>
    requires { length names.now.participants ≡ 3 }
{
    let mut server = server_after(alloc, names, first.0, first.1)?;
    second(alloc, &mut server, names, then.0, then.1)
}

/// What the second of two updates touches, and then the signature of 10.0.0.0/8.
pub fn after(alloc: Global, first: (Who, Said), then: (Who, Said)) -> Result<String, Wrong> {
    let names = three(alloc)?;
    after_in(alloc, &names, first, then)
}

fn bests_in(alloc: Global, names: &Registry, first: (Who, Said), who: Who) -> Result<String, Wrong>
    requires { length names.now.participants ≡ 3 }
{
    let server = server_after(alloc, names, first.0, first.1)?;
    bests(alloc, &server, names, who.pid())
}

/// A participant's best routes after an update.
pub fn bests_after(alloc: Global, first: (Who, Said), who: Who) -> Result<String, Wrong> {
    let names = three(alloc)?;
    bests_in(alloc, &names, first, who)
}

fn down_in(alloc: Global, names: &Registry, first: (Who, Said)) -> Result<String, Wrong>
    requires { length names.now.participants ≡ 3 }
{
    let server = server_after(alloc, names, first.0, first.1)?;
    let proposal = server.propose_down(names, Pid(1))?;
    Ok(proposed(alloc, &proposal)?)
}

/// What is touched where B is down after an update, and the first signature then.
pub fn down(alloc: Global, first: (Who, Said)) -> Result<String, Wrong> {
    let names = three(alloc)?;
    down_in(alloc, &names, first)
}

/// Rules that give nothing to anybody.
fn nothing(alloc: Global, names: &Registry) -> Result<Bound, Wrong> {
    let Ok(rules) = parse_rules(alloc, "deny * *") else {
        return Err(Wrong::Row);
    };
    rules.bind(names).map_err(|_| Wrong::Row)
}

fn closed_in(alloc: Global, names: &Registry, first: (Who, Said)) -> Result<String, Wrong>
    requires { length names.now.participants ≡ 3 }
{
    let server = server_after(alloc, names, first.0, first.1)?;
    let proposal = server.propose_rules(names, Pid(1), nothing(alloc, names)?)?;
    Ok(proposed(alloc, &proposal)?)
}

/// What is touched where B gives nothing to anybody after an update, and the first signature then.
pub fn closed(alloc: Global, first: (Who, Said)) -> Result<String, Wrong> {
    let names = three(alloc)?;
    closed_in(alloc, &names, first)
}

/// Participants by their letters.
fn pids(alloc: Global, letters: &str) -> Result<Pids, Memory> {
    let mut named = Items::new(alloc);
    for letter in letters.chars() {
        match letter {
            'B' => named.push(Pid(1))?,
            'C' => named.push(Pid(2))?,
            _ => {}
        }
    }
    Ok(named)
}

/// A's policy names these from now on; told are the touched prefixes.
fn name(
    alloc: Global,
    server: &mut RouteServer,
    names: &Registry,
    letters: &str,
) -> Result<String, Wrong>
    requires known { 0 < length server.old.named }
    requires declared { AreDeclared names.now server.old.routes }
    ensures declared { AreDeclared names.now server.new.routes }
    ensures named { length server.new.named ≡ length server.old.named }
{
    let named = pids(alloc, letters)?;
    let proposal = server.propose_named(names, Pid(0), named)?;
    let touched = prefixes(alloc, proposal.touched())?;
    server.reserve(&proposal)?;
    server.commit(proposal);
    Ok(touched)
}

/// Other names after earlier ones; told are the touched prefixes and the signature of 10.0.0.0/8.
fn renamed(
    alloc: Global,
    server: &mut RouteServer,
    names: &Registry,
    before: &str,
    now: &str,
) -> Result<String, Wrong>
    requires known { 0 < length server.old.named }
    requires declared { AreDeclared names.now server.old.routes }
{
    name(alloc, server, names, before)?;
    let told = name(alloc, server, names, now)?;
    with_signature(alloc, server, names, told)
}

fn named_in(
    alloc: Global,
    names: &Registry,
    first: (Who, Said),
    then: (Who, Said),
    before: &str,
    now: &str,
) -> Result<String, Wrong>
    requires { length names.now.participants ≡ 3 }
{
    let mut server = server_after(alloc, names, first.0, first.1)?;
    run(alloc, &mut server, names, then.0, then.1)?;
    renamed(alloc, &mut server, names, before, now)
}

/// What is touched where A's policy names others than before, after two updates, and then the signature of 10.0.0.0/8.
pub fn named(
    alloc: Global,
    first: (Who, Said),
    then: (Who, Said),
    before: &str,
    now: &str,
) -> Result<String, Wrong> {
    let names = three(alloc)?;
    named_in(alloc, &names, first, then, before, now)
}
