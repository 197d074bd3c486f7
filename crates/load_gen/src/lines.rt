//! The lines.

ghost use Rattle.std.specs.Prelude.{◌≡◌, ◌++◌, ◌≤◌, ◌<◌, OnOk, IfOk, codes, decimal, string_bytes};
ghost use Rattle.events.specs.Text.{hex_text};
ghost use Rattle.load_gen.specs.Generated.{drawn_line, generated, in_line, job_line, name_of, out_line, packet_line, participant_line, port_line, port_name, router_address, router_mac, router_text};

use crate::datagrams::datagram;
use crate::digits::push_hex;
use crate::drawing::{Drawn, Kind};
use crate::updates::{announcing, withdrawing};
use net_types::{Bytes, Memory};
use std::alloc::Global;

fn push_participant(text: &mut String, k: u8) -> Result<(), Memory>
    requires { k ≤ 8 }
    ensures { OnOk result (string_bytes text.new ≡ string_bytes text.old ++ participant_line k) }
{
    let asn = 65000 + u32::from(k);
    write!(text, "participant P{k} {asn} 1.0.0.{k}")?;
    Ok(())
}

fn push_port_name(text: &mut String, k: u8) -> Result<(), Memory>
    ensures { OnOk result (string_bytes text.new ≡ string_bytes text.old ++ port_name k) }
{
    write!(text, "port P{k} {k}")?;
    Ok(())
}

fn push_address(text: &mut String, k: u8) -> Result<(), Memory>
    ensures { OnOk result (string_bytes text.new ≡ string_bytes text.old ++ router_address k) }
{
    write!(text, " 172.16.128.{k}")?;
    Ok(())
}

fn push_mac(text: &mut String, k: u8) -> Result<(), Memory>
    ensures { OnOk result (string_bytes text.new ≡ string_bytes text.old ++ router_mac k) }
{
    write!(text, " 02:00:00:00:00:0{k}")?;
    Ok(())
}

fn push_router(text: &mut String, k: u8) -> Result<(), Memory>
    ensures { OnOk result (string_bytes text.new ≡ string_bytes text.old ++ router_text k) }
{
    push_address(text, k)?;
    push_mac(text, k)
}

fn push_port(text: &mut String, k: u8) -> Result<(), Memory>
    ensures { OnOk result (string_bytes text.new ≡ string_bytes text.old ++ port_line k) }
{
    push_port_name(text, k)?;
    push_router(text, k)
}

/// Writes a participant's update, and its message in hexadecimal.
fn push_update(text: &mut String, k: u8, message: &[u8]) -> Result<(), Memory>
    ensures { OnOk result (string_bytes text.new ≡ string_bytes text.old ++ (codes "update " ++ name_of k ++ codes " " ++ hex_text message.now)) }
{
    write!(text, "update P{k} ")?;
    push_hex(text, message)
}

fn push_drain(text: &mut String, k: u8) -> Result<(), Memory>
    ensures { OnOk result (string_bytes text.new ≡ string_bytes text.old ++ codes "drain " ++ name_of k) }
{
    write!(text, "drain P{k}")?;
    Ok(())
}

fn push_take(text: &mut String, k: u8, count: u8) -> Result<(), Memory>
    ensures { OnOk result (string_bytes text.new ≡ string_bytes text.old ++ codes "take " ++ name_of k ++ codes " " ++ decimal count) }
{
    write!(text, "take P{k} {count}")?;
    Ok(())
}

fn push_resolve(text: &mut String, k: u8) -> Result<(), Memory>
    ensures { OnOk result (string_bytes text.new ≡ string_bytes text.old ++ codes "resolve " ++ decimal k) }
{
    write!(text, "resolve {k}")?;
    Ok(())
}

fn push_packet(text: &mut String, k: u8, datagram: &[u8]) -> Result<(), Memory>
    ensures { OnOk result (string_bytes text.new ≡ string_bytes text.old ++ packet_line k datagram.now) }
{
    write!(text, "packet {k} ")?;
    push_hex(text, datagram)
}

fn push_out(text: &mut String, k: u8, to: u8) -> Result<(), Memory>
    ensures { OnOk result (string_bytes text.new ≡ string_bytes text.old ++ out_line k to) }
{
    if k == to {
        write!(text, "out P{k} drop")?;
    } else {
        write!(text, "out P{k} match(dstport=80) >> fwd(P{to})")?;
    }
    Ok(())
}

fn push_in(text: &mut String, k: u8) -> Result<(), Memory>
    ensures { OnOk result (string_bytes text.new ≡ string_bytes text.old ++ in_line k) }
{
    write!(
        text,
        "in P{k} match(srcip=0.0.0.0/1) >> modify(dstport=8080)"
    )?;
    Ok(())
}

fn push_job(text: &mut String, drawn: Drawn) -> Result<(), Memory>
    ensures { OnOk result (string_bytes text.new ≡ string_bytes text.old ++ job_line drawn.0) }
{
    if drawn.starts_job() {
        text.push_str("recompile")?;
    } else {
        text.push_str("work 64")?;
    }
    Ok(())
}

/// Writes the line of a drawn number.
fn push_drawn(alloc: Global, text: &mut String, drawn: Drawn) -> Result<(), Memory>
    ensures { OnOk result (string_bytes text.new ≡ string_bytes text.old ++ drawn_line drawn.0) }
{
    let k = drawn.actor();
    match drawn.kind() {
        Kind::Announce => {
            let message = announcing(alloc, k, drawn.network(), drawn.more())?;
            push_update(text, k, message.items())
        }
        Kind::Withdraw => {
            let message = withdrawing(alloc, drawn.network())?;
            push_update(text, k, message.items())
        }
        Kind::Drain => push_drain(text, k),
        Kind::Take => push_take(text, k, drawn.count()),
        Kind::Resolve => push_resolve(text, k),
        Kind::Packet => {
            let octets = datagram(alloc, drawn.network(), drawn.port())?;
            push_packet(text, k, octets.as_slice())
        }
        Kind::Out => push_out(text, k, drawn.target()),
        Kind::In => push_in(text, k),
        Kind::Job => push_job(text, drawn),
    }
}

/// Writes a line behind the declarations.
fn push_later(alloc: Global, text: &mut String, seed: u64, i: u64) -> Result<(), Memory>
    requires { 16 < i }
    ensures { OnOk result (string_bytes text.new ≡ string_bytes text.old ++ generated seed i) }
{
    push_drawn(alloc, text, Drawn::new(seed, i))
}

fn push_exchange(text: &mut String) -> Result<(), Memory>
    ensures { OnOk result (string_bytes text.new ≡ string_bytes text.old ++ generated 0 0) }
{
    text.push_str("exchange 172.16.0.0 4096 100000")?;
    Ok(())
}

fn push_line(alloc: Global, text: &mut String, seed: u64, i: u64) -> Result<(), Memory>
    ensures { OnOk result (string_bytes text.new ≡ string_bytes text.old ++ generated seed i) }
{
    if i == 0 {
        return push_exchange(text);
    }
    match i {
        0..=8 => push_participant(text, i as u8),
        9..=16 => push_port(text, (i - 8) as u8),
        _ => push_later(alloc, text, seed, i),
    }
}

/// The line of this number, from 0, that this seed gives, without its end: an exchange with eight participants and their ports,
/// and from line 17 on lines that are drawn from the seed. Memory is the only refusal.
pub fn line(alloc: Global, seed: u64, i: u64) -> Result<Vec<u8>, Memory>
    ensures { IfOk result (λ line. line.items ≡ generated seed i) }
{
    let mut text = String::new(alloc);
    push_line(alloc, &mut text, seed, i)?;
    Ok(text.into_bytes())
}
