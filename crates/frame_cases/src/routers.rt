//! A router that hears advertisements and ARP replies.

ghost use Rattle.net_types.specs.SoundUpdates.{IsSoundUpdate};
ghost use Rattle.std.specs.Prelude.{◌≡◌, [], None, IfOk, IfSome};

use crate::octets::{digits, octets};
use crate::words::{
    address, first_word, no_question, numbers, octet, prefix, push_address, push_prefixes,
};
use arp_frame::{ArpRequest, reply};
use bgp_update::{decode, encode, encoded_len};
use border_router::{News, Router, TagFault, news};
use net_types::{Ip, Mac, Memory, Prefix, Prefixes, Update};
use std::alloc::Global;

const ROUTER: Mac = Mac([2, 0, 0, 0, 0, 1]);

/// 172.16.1.1.
const ROUTER_IP: Ip = Ip(0xac10_0101);

/// A router that has heard nothing.
pub fn unheard(alloc: Global) -> Router {
    Router::new(alloc, ROUTER, ROUTER_IP)
}

/// The MAC of a tag below 256.
fn tag_mac(tag: u8) -> Mac {
    Mac([2, 0x53, 0x44, 0, 0, tag])
}

/// The news of an update, by the message that is written for it; none where it has no message.
fn news_of(alloc: Global, update: &Update) -> Result<Option<News>, Memory>
    requires { IsSoundUpdate update.now }
    ensures { IfOk result (λ found. IfSome found (λ n. n.next_hop ≡ None → n.announced ≡ [])) }
{
    if encoded_len(update) > 4096 {
        return Ok(None);
    }
    let message = encode(alloc, update)?;
    Ok(Some(news(alloc, message.as_slice())?))
}

/// The news in a message.
fn told(alloc: Global, text: &str) -> Result<Option<News>, Memory>
    ensures { IfOk result (λ found. IfSome found (λ n. n.next_hop ≡ None → n.announced ≡ [])) }
{
    match decode(alloc, octets(alloc, text)?.as_slice()) {
        Ok(update) => news_of(alloc, &update),
        Err(_) => Ok(None),
    }
}

/// What was withdrawn and announced, and by which next hop.
fn shown(alloc: Global, news: &News) -> Result<String, Memory> {
    let mut text = String::from_str(alloc, "withdrawn:")?;
    push_prefixes(&mut text, news.withdrawn.items())?;
    text.push_str("; announced:")?;
    push_prefixes(&mut text, news.announced.items())?;
    if let Some(next_hop) = news.next_hop {
        text.push_str(" by ")?;
        push_address(&mut text, next_hop)?;
    }
    Ok(text)
}

/// The router hears a message.
fn hear(alloc: Global, router: &mut Router, text: &str) -> Result<String, Memory> {
    let Some(news) = told(alloc, text)? else {
        return no_question(alloc);
    };
    router.reserve(news.announced.len(), 0)?;
    router.hear(&news);
    shown(alloc, &news)
}

/// One prefix.
fn alone(alloc: Global, prefix: Prefix) -> Result<Prefixes, Memory> {
    let mut prefixes = Prefixes::new(alloc);
    prefixes.push(prefix)?;
    Ok(prefixes)
}

fn announce(alloc: Global, router: &mut Router, prefix: Prefix, by: Ip) -> Result<(), Memory> {
    let announced = alone(alloc, prefix)?;
    router.reserve(announced.len(), 0)?;
    router.hear(&News {
        withdrawn: Prefixes::new(alloc),
        announced,
        next_hop: Some(by),
    });
    Ok(())
}

fn withdraw(alloc: Global, router: &mut Router, prefix: Prefix) -> Result<(), Memory> {
    router.hear(&News {
        withdrawn: alone(alloc, prefix)?,
        announced: Prefixes::new(alloc),
        next_hop: None,
    });
    Ok(())
}

/// `PREFIX LENGTH NEXT_HOP`: the router is told of a prefix; `PREFIX LENGTH`: the prefix goes.
fn hear_one(alloc: Global, router: &mut Router, text: &str) -> Result<String, Memory> {
    match numbers(alloc, text)?.as_slice() {
        [a, b, c, d, len, hop @ ..] => match (prefix([*a, *b, *c, *d], *len), hop) {
            (Some(prefix), [e, f, g, h]) => {
                announce(alloc, router, prefix, address([*e, *f, *g, *h]))?
            }
            (Some(prefix), _) => withdraw(alloc, router, prefix)?,
            _ => return no_question(alloc),
        },
        _ => return no_question(alloc),
    }
    Ok(String::from_str(alloc, "heard")?)
}

/// Tells who asked, by its MAC, where an address is.
fn resolve(router: &mut Router, asker: Mac, target: Ip, mac: Mac) -> Result<(), Memory> {
    router.reserve(0, 1)?;
    let request = ArpRequest {
        mac: asker,
        ip: ROUTER_IP,
        target,
    };
    router.hear_arp(&reply(&request, mac));
    Ok(())
}

/// `LAST TARGET TAG`: the router at the MAC that ends in this octet is told that the target has the MAC of the tag.
fn hear_reply(alloc: Global, router: &mut Router, text: &str) -> Result<String, Memory> {
    match numbers(alloc, text)?.as_slice() {
        [last, a, b, c, d, tag] => {
            let asker = Mac([2, 0, 0, 0, 0, octet(*last)]);
            let mac = tag_mac(octet(*tag));
            resolve(router, asker, address([*a, *b, *c, *d]), mac)?;
            Ok(String::from_str(alloc, "heard")?)
        }
        _ => no_question(alloc),
    }
}

/// The next hops that the router asks for.
fn asks(alloc: Global, router: &Router) -> Result<String, Memory> {
    let mut text = String::from_str(alloc, "asks for")?;
    for ip in router.asks()?.items() {
        text.push_str(" ")?;
        push_address(&mut text, *ip)?;
    }
    Ok(text)
}

/// Sends UDP from 192.0.2.1 port 1000 to port 80 of a destination.
fn sent(router: &Router, to: [u8; 4]) -> Result<Vec<u8>, TagFault> {
    let [a, b, c, d] = to;
    router.tag(&[
        0x45, 0, 0, 0x1c, 0, 0, 0, 0, 0x40, 0x11, 0xac, 0xcc, 0xc0, 0, 2, 1, a, b, c, d, 3, 0xe8,
        0, 0x50, 0, 8, 0, 0,
    ])
}

fn shown_frame(alloc: Global, sent: Result<Vec<u8>, TagFault>) -> Result<String, Memory> {
    match sent {
        Ok(frame) => digits(alloc, frame.as_slice()),
        Err(TagFault::Unrouted) => Ok(String::from_str(alloc, "unrouted")?),
        Err(TagFault::Unresolved(ip)) => {
            let mut text = String::from_str(alloc, "unresolved ")?;
            push_address(&mut text, ip)?;
            Ok(text)
        }
        Err(TagFault::Memory) => Err(Memory),
    }
}

/// The frame of a datagram to an address, as the router sends it.
fn send(alloc: Global, router: &Router, text: &str) -> Result<String, Memory> {
    match numbers(alloc, text)?.as_slice() {
        [a, b, c, d] => {
            let to = [octet(*a), octet(*b), octet(*c), octet(*d)];
            shown_frame(alloc, sent(router, to))
        }
        _ => no_question(alloc),
    }
}

/// What the router of a question answers.
pub fn answer(alloc: Global, router: &mut Router, question: &str) -> Result<String, Memory> {
    let (word, rest) = first_word(question);
    match word {
        "router" => {
            *router = unheard(alloc);
            Ok(String::from_str(alloc, "nothing is heard")?)
        }
        "hear" => hear(alloc, router, rest),
        "route" => hear_one(alloc, router, rest),
        "resolved" => hear_reply(alloc, router, rest),
        "asks" => asks(alloc, router),
        "send" => send(alloc, router, rest),
        _ => no_question(alloc),
    }
}
