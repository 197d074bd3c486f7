//! Details that are put into a reply.

use crate::rules::{flow, pair};
use crate::words::{first_word, octets, port, prefix, small};
use events::{
    Exchange, Exchanges, Flows, Frame, Frames, Head, Messages, Reply, TagChange, TagChanges,
};
use net_types::{Memory, Pairs, PortNo, Tag};
use std::alloc::Global;

/// A reply without details.
pub fn none(alloc: Global, head: Head) -> Reply {
    Reply {
        head,
        tags: TagChanges::new(alloc),
        drops: Pairs::new(alloc),
        adds: Flows::new(alloc),
        adverts: Messages::new(alloc),
        asks: Exchanges::new(alloc),
        frames: Frames::new(alloc),
    }
}

/// `PREFIX TAG`, or `PREFIX` alone.
fn change(alloc: Global, text: &str) -> Result<TagChange, Memory> {
    let (word, tag) = first_word(text);
    let prefix = prefix(alloc, word)?;
    let tag = match tag.parse() {
        Ok(number) => Some(Tag(small(number))),
        Err(_) => None,
    };
    Ok(TagChange { prefix, tag })
}

/// `REQUEST REPLY`.
fn asked(alloc: Global, text: &str) -> Result<Exchange, Memory> {
    let (request, reply) = first_word(text);
    Ok(Exchange {
        request: Some(octets(alloc, request)?),
        reply: octets(alloc, reply)?,
    })
}

/// `PORT FRAME`.
fn frame(alloc: Global, text: &str) -> Result<Frame, Memory> {
    let (number, bytes) = first_word(text);
    Ok(Frame {
        port: PortNo(port(number.parse().unwrap_or(0))),
        bytes: octets(alloc, bytes)?,
    })
}

/// Puts a detail of this word into a reply.
pub fn put(alloc: Global, reply: &mut Reply, word: &str, text: &str) -> Result<(), Memory> {
    match word {
        "tag" => reply.tags.push(change(alloc, text)?)?,
        "drop" => reply.drops.push(pair(text).0)?,
        "add" => reply.adds.push(flow(alloc, text)?)?,
        "advert" => reply.adverts.push(octets(alloc, text)?)?,
        "ask" => reply.asks.push(asked(alloc, text)?)?,
        "answer" => reply.asks.push(Exchange {
            request: None,
            reply: octets(alloc, text)?,
        })?,
        _ => reply.frames.push(frame(alloc, text)?)?,
    }
    Ok(())
}
