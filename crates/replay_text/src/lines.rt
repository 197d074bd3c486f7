//! Reading a line.
ghost use Rattle.std.specs.Prelude.{◌≡◌, ◌∷◌, codes, nat_eq, not, IfOk, IfSome};
ghost use Rattle.std.specs.Option.{option_map};
ghost use Rattle.events.specs.declared.Event.TheVariants.{Arp, Export, Frame, Inbound, Outbound, Packet, Participant, Port, Take};
ghost use Rattle.events.specs.Forms.{IsWellFormed};
ghost use Rattle.events.specs.Lines.{address, arp_line, event_of, event_of_line, event_of_verb, event_of_word, event_of_words, export_line, frame_line, in_line, is_skipped, only_if, or_bad, out_line, packet_line, pieces, take_line, update_line};

use super::fields::{
    address, as_number, bytes, copied, hardware_address, is_text, name, number_within, port_number,
};
use super::pieces::{four_pieces, one_piece, split_once, three_pieces, two_pieces};
use events::Event;
use net_types::{Bytes, Ip, Mac, Memory, Name, PortNo, Text};
use std::alloc::Global;

fn exchange(text: &[u8]) -> Option<Event>
    ensures { or_bad result ≡ event_of_words (codes "exchange" ∷ pieces 32 text.now) }
{
    let (base, size, capacity) = three_pieces(text, b' ')?;
    let base = address(base)?;
    let size = number_within(1, 65536, size)?;
    let capacity = number_within(1, 1000000, capacity)?;
    // The pool ends at 223.255.255.255 or before.
    if base.0 < 16777215 || base.0 > 3758096383 - size {
        return None;
    }
    Some(Event::Exchange {
        base,
        size,
        capacity,
    })
}

/// A BGP identifier, which isn't zero (RFC 6286 2.1).
fn identifier(text: &[u8]) -> Option<Ip>
    ensures { result ≡ only_if (λ (id : Ip). not (nat_eq id.0 0)) (address text.now) }
{
    let id = address(text)?;
    if id.0 == 0 {
        return None;
    }
    Some(id)
}

fn participant_fields(text: &[u8]) -> Option<(&[u8], u32, Ip)>
    ensures { or_bad (option_map (λ f. Participant f.0.now f.1 f.2) result) ≡ event_of_words (codes "participant" ∷ pieces 32 text.now) }
{
    let (who, asn, id) = three_pieces(text, b' ')?;
    let who = name(who)?;
    let asn = as_number(asn)?;
    let id = identifier(id)?;
    Some((who, asn, id))
}

fn participant(alloc: Global, text: &[u8]) -> Result<Option<Event>, Memory>
    ensures { IfOk result (λ event. or_bad event ≡ event_of_words (codes "participant" ∷ pieces 32 text.now)) }
{
    let Some((name, asn, id)) = participant_fields(text) else {
        return Ok(None);
    };
    let name = copied(alloc, name)?;
    Ok(Some(Event::Participant { name, asn, id }))
}

fn port_fields(text: &[u8]) -> Option<(&[u8], PortNo, Ip, Mac)>
    ensures { or_bad (option_map (λ f. Port f.0.now f.1 f.2 f.3) result) ≡ event_of_words (codes "port" ∷ pieces 32 text.now) }
{
    let (who, number, ip, mac) = four_pieces(text, b' ')?;
    let who = name(who)?;
    let number = port_number(number)?;
    let ip = address(ip)?;
    let mac = hardware_address(mac)?;
    Some((who, number, ip, mac))
}

fn port(alloc: Global, text: &[u8]) -> Result<Option<Event>, Memory>
    ensures { IfOk result (λ event. or_bad event ≡ event_of_words (codes "port" ∷ pieces 32 text.now)) }
{
    let Some((name, number, ip, mac)) = port_fields(text) else {
        return Ok(None);
    };
    let name = copied(alloc, name)?;
    Ok(Some(Event::Port {
        name,
        number,
        ip,
        mac,
    }))
}

fn update_event(alloc: Global, who: &[u8], octets: &[u8]) -> Result<Option<Event>, Memory>
    ensures { IfOk result (λ event. event ≡ update_line who.now octets.now) }
{
    let Some(who) = name(who) else {
        return Ok(None);
    };
    let Some(bytes) = bytes(alloc, octets)? else {
        return Ok(None);
    };
    let name = copied(alloc, who)?;
    Ok(Some(Event::Update { name, bytes }))
}

fn update(alloc: Global, text: &[u8]) -> Result<Option<Event>, Memory>
    ensures { IfOk result (λ event. or_bad event ≡ event_of_words (codes "update" ∷ pieces 32 text.now)) }
{
    match two_pieces(text, b' ') {
        Some((who, octets)) => update_event(alloc, who, octets),
        None => Ok(None),
    }
}

fn drain(alloc: Global, text: &[u8]) -> Result<Option<Event>, Memory>
    ensures { IfOk result (λ event. or_bad event ≡ event_of_words (codes "drain" ∷ pieces 32 text.now)) }
{
    let Some(who) = one_piece(text, b' ') else {
        return Ok(None);
    };
    let Some(who) = name(who) else {
        return Ok(None);
    };
    let name = copied(alloc, who)?;
    Ok(Some(Event::Drain { name }))
}

fn down(alloc: Global, text: &[u8]) -> Result<Option<Event>, Memory>
    ensures { IfOk result (λ event. or_bad event ≡ event_of_words (codes "down" ∷ pieces 32 text.now)) }
{
    let Some(who) = one_piece(text, b' ') else {
        return Ok(None);
    };
    let Some(who) = name(who) else {
        return Ok(None);
    };
    let name = copied(alloc, who)?;
    Ok(Some(Event::Down { name }))
}

/// A name, and behind the space the rest of the line: the parts of `export`, `out` and `in`.
fn name_and_text(text: &[u8]) -> Option<(&[u8], &[u8])>
    ensures export { option_map (λ p. Export p.0.now p.1.now) result ≡ export_line text.now }
    ensures outbound { option_map (λ p. Outbound p.0.now p.1.now) result ≡ out_line text.now }
    ensures inbound { option_map (λ p. Inbound p.0.now p.1.now) result ≡ in_line text.now }
{
    let (who, rest) = split_once(text, b' ')?;
    let who = name(who)?;
    if is_text(rest) {
        Some((who, rest))
    } else {
        None
    }
}

/// Copies of a name and of the text behind it.
fn copied_name_and_text(alloc: Global, text: &[u8]) -> Result<Option<(Name, Text)>, Memory>
    ensures export { IfOk result (λ parts. option_map (λ p. Export p.0 p.1) parts ≡ export_line text.now) }
    ensures outbound { IfOk result (λ parts. option_map (λ p. Outbound p.0 p.1) parts ≡ out_line text.now) }
    ensures inbound { IfOk result (λ parts. option_map (λ p. Inbound p.0 p.1) parts ≡ in_line text.now) }
{
    let Some((name, text)) = name_and_text(text) else {
        return Ok(None);
    };
    let name = copied(alloc, name)?;
    let text = copied(alloc, text)?;
    Ok(Some((name, text)))
}

fn export(alloc: Global, text: &[u8]) -> Result<Option<Event>, Memory>
    ensures { IfOk result (λ event. event ≡ export_line text.now) }
{
    match copied_name_and_text(alloc, text)? {
        Some((name, text)) => Ok(Some(Event::Export { name, text })),
        None => Ok(None),
    }
}

fn outbound(alloc: Global, text: &[u8]) -> Result<Option<Event>, Memory>
    ensures { IfOk result (λ event. event ≡ out_line text.now) }
{
    match copied_name_and_text(alloc, text)? {
        Some((name, text)) => Ok(Some(Event::Outbound { name, text })),
        None => Ok(None),
    }
}

fn inbound(alloc: Global, text: &[u8]) -> Result<Option<Event>, Memory>
    ensures { IfOk result (λ event. event ≡ in_line text.now) }
{
    match copied_name_and_text(alloc, text)? {
        Some((name, text)) => Ok(Some(Event::Inbound { name, text })),
        None => Ok(None),
    }
}

fn take_event(alloc: Global, who: &[u8], count: &[u8]) -> Result<Option<Event>, Memory>
    ensures { IfOk result (λ event. event ≡ take_line who.now count.now) }
{
    let Some(who) = name(who) else {
        return Ok(None);
    };
    let Some(count) = number_within(1, 1000000, count) else {
        return Ok(None);
    };
    let name = copied(alloc, who)?;
    Ok(Some(Event::Take { name, count }))
}

fn take(alloc: Global, text: &[u8]) -> Result<Option<Event>, Memory>
    ensures { IfOk result (λ event. or_bad event ≡ event_of_words (codes "take" ∷ pieces 32 text.now)) }
{
    match two_pieces(text, b' ') {
        Some((who, count)) => take_event(alloc, who, count),
        None => Ok(None),
    }
}

fn resolve(text: &[u8]) -> Option<Event>
    ensures { or_bad result ≡ event_of_words (codes "resolve" ∷ pieces 32 text.now) }
{
    let port = one_piece(text, b' ')?;
    let port = port_number(port)?;
    Some(Event::Resolve { port })
}

fn work(text: &[u8]) -> Option<Event>
    ensures { or_bad result ≡ event_of_words (codes "work" ∷ pieces 32 text.now) }
{
    let units = one_piece(text, b' ')?;
    let units = number_within(1, 1000000000, units)?;
    Some(Event::Work {
        units: u64::from(units),
    })
}

fn octets_at(alloc: Global, port: &[u8], octets: &[u8]) -> Result<Option<(PortNo, Bytes)>, Memory>
    ensures arp { IfOk result (λ parts. option_map (λ p. Arp p.0 p.1) parts ≡ arp_line port.now octets.now) }
    ensures packet { IfOk result (λ parts. option_map (λ p. Packet p.0 p.1) parts ≡ packet_line port.now octets.now) }
    ensures frame { IfOk result (λ parts. option_map (λ p. Frame p.0 p.1) parts ≡ frame_line port.now octets.now) }
{
    let Some(port) = port_number(port) else {
        return Ok(None);
    };
    let Some(bytes) = bytes(alloc, octets)? else {
        return Ok(None);
    };
    Ok(Some((port, bytes)))
}

/// A port and octets: the parts of `arp`, `packet` and `frame`.
fn port_and_octets(alloc: Global, text: &[u8]) -> Result<Option<(PortNo, Bytes)>, Memory>
    ensures arp { IfOk result (λ parts. or_bad (option_map (λ p. Arp p.0 p.1) parts) ≡ event_of_words (codes "arp" ∷ pieces 32 text.now)) }
    ensures packet { IfOk result (λ parts. or_bad (option_map (λ p. Packet p.0 p.1) parts) ≡ event_of_words (codes "packet" ∷ pieces 32 text.now)) }
    ensures frame { IfOk result (λ parts. or_bad (option_map (λ p. Frame p.0 p.1) parts) ≡ event_of_words (codes "frame" ∷ pieces 32 text.now)) }
{
    match two_pieces(text, b' ') {
        Some((port, octets)) => octets_at(alloc, port, octets),
        None => Ok(None),
    }
}

fn arp(alloc: Global, text: &[u8]) -> Result<Option<Event>, Memory>
    ensures { IfOk result (λ event. or_bad event ≡ event_of_words (codes "arp" ∷ pieces 32 text.now)) }
{
    match port_and_octets(alloc, text)? {
        Some((port, bytes)) => Ok(Some(Event::Arp { port, bytes })),
        None => Ok(None),
    }
}

fn packet(alloc: Global, text: &[u8]) -> Result<Option<Event>, Memory>
    ensures { IfOk result (λ event. or_bad event ≡ event_of_words (codes "packet" ∷ pieces 32 text.now)) }
{
    match port_and_octets(alloc, text)? {
        Some((port, bytes)) => Ok(Some(Event::Packet { port, bytes })),
        None => Ok(None),
    }
}

fn frame(alloc: Global, text: &[u8]) -> Result<Option<Event>, Memory>
    ensures { IfOk result (λ event. or_bad event ≡ event_of_words (codes "frame" ∷ pieces 32 text.now)) }
{
    match port_and_octets(alloc, text)? {
        Some((port, bytes)) => Ok(Some(Event::Frame { port, bytes })),
        None => Ok(None),
    }
}

/// The event of a line of one word.
fn word_event(word: &[u8]) -> Event
    ensures { result ≡ event_of_word word.now }
{
    if word == b"table".as_slice() {
        Event::Table
    } else if word == b"recompile".as_slice() {
        Event::Recompile
    } else {
        Event::Bad
    }
}

/// The event of a line whose words are this one and the pieces of this text.
fn words_event(alloc: Global, word: &[u8], rest: &[u8]) -> Result<Option<Event>, Memory>
    ensures { IfOk result (λ event. or_bad event ≡ event_of_words (word.now ∷ pieces 32 rest.now)) }
{
    if word == b"update".as_slice() {
        update(alloc, rest)
    } else if word == b"take".as_slice() {
        take(alloc, rest)
    } else if word == b"drain".as_slice() {
        drain(alloc, rest)
    } else if word == b"down".as_slice() {
        down(alloc, rest)
    } else if word == b"packet".as_slice() {
        packet(alloc, rest)
    } else if word == b"frame".as_slice() {
        frame(alloc, rest)
    } else if word == b"arp".as_slice() {
        arp(alloc, rest)
    } else if word == b"resolve".as_slice() {
        Ok(resolve(rest))
    } else if word == b"work".as_slice() {
        Ok(work(rest))
    } else if word == b"exchange".as_slice() {
        Ok(exchange(rest))
    } else if word == b"participant".as_slice() {
        participant(alloc, rest)
    } else if word == b"port".as_slice() {
        port(alloc, rest)
    } else {
        Ok(None)
    }
}

/// The event of a line with this word before the first space and this text behind it.
fn verb_event(alloc: Global, word: &[u8], rest: &[u8]) -> Result<Option<Event>, Memory>
    ensures { IfOk result (λ event. or_bad event ≡ event_of_verb word.now rest.now) }
{
    if word == b"export".as_slice() {
        export(alloc, rest)
    } else if word == b"out".as_slice() {
        outbound(alloc, rest)
    } else if word == b"in".as_slice() {
        inbound(alloc, rest)
    } else {
        words_event(alloc, word, rest)
    }
}

/// An empty line and a comment.
fn is_skipped(line: &[u8]) -> bool
    ensures { result ≡ is_skipped line.now }
{
    matches!(line, [] | [b'#', ..])
}

fn line_event(alloc: Global, line: &[u8]) -> Result<Event, Memory>
    ensures { IfOk result (λ event. event ≡ event_of_line line.now) }
{
    let Some((word, rest)) = split_once(line, b' ') else {
        return Ok(word_event(line));
    };
    match verb_event(alloc, word, rest)? {
        Some(event) => Ok(event),
        None => Ok(Event::Bad),
    }
}

/// The event of a line; none where the line is skipped.
pub fn read_line(alloc: Global, line: &[u8]) -> Result<Option<Event>, Memory>
    ensures event { IfOk result (λ event. event ≡ event_of line.now) }
    ensures formed { IfOk result (λ event. IfSome event IsWellFormed) }
{
    if line.len() > 20000 {
        return Ok(Some(Event::Bad));
    }
    if is_skipped(line) {
        return Ok(None);
    }
    Ok(Some(line_event(alloc, line)?))
}
