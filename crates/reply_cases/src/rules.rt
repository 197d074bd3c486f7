//! Rules of replies.

use crate::words::{first_word, port, prefix, small, some_address};
use events::Flow;
use net_types::{Action, Actions, Assign, Cube, Memory, Pair, PortNo, Rule, Tag};
use std::alloc::Global;

/// A port and a tag, and what stands behind them.
pub fn pair(text: &str) -> (Pair, &str) {
    let (number, rest) = first_word(text);
    let (tag, rest) = first_word(rest);
    let pair = Pair {
        port: PortNo(port(number.parse().unwrap_or(0))),
        tag: Tag(small(tag.parse().unwrap_or(0))),
    };
    (pair, rest)
}

/// `SRC/LEN DST/LEN PROTO SPORT DPORT`, where `-` tests nothing.
fn cube(alloc: Global, text: &str) -> Result<Cube, Memory> {
    let (src, rest) = first_word(text);
    let (dst, rest) = first_word(rest);
    let (proto, rest) = first_word(rest);
    let (sport, dport) = first_word(rest);
    Ok(Cube {
        inport: None,
        src: prefix(alloc, src)?,
        dst: prefix(alloc, dst)?,
        proto: proto.parse().ok(),
        sport: sport.parse().ok(),
        dport: dport.parse().ok(),
    })
}

/// `PORT SRC DST SPORT DPORT`, where `-` sets nothing.
fn action(alloc: Global, text: &str) -> Result<Action, Memory> {
    let (number, rest) = first_word(text);
    let (src, rest) = first_word(rest);
    let (dst, rest) = first_word(rest);
    let (sport, dport) = first_word(rest);
    Ok(Action {
        port: PortNo(port(number.parse().unwrap_or(0))),
        set: Assign {
            src: some_address(alloc, src)?,
            dst: some_address(alloc, dst)?,
            sport: sport.parse().ok(),
            dport: dport.parse().ok(),
        },
    })
}

/// Actions between semicolons; none in an empty text.
fn actions(alloc: Global, text: &str) -> Result<Actions, Memory> {
    let mut actions = Actions::new(alloc);
    if text.is_empty() {
        return Ok(actions);
    }
    for part in text.split("; ") {
        actions.push(action(alloc, part)?)?;
    }
    Ok(actions)
}

/// `PORT TAG CUBE; ACTION; ACTION`.
pub fn flow(alloc: Global, text: &str) -> Result<Flow, Memory> {
    let (pair, rest) = pair(text);
    let (tested, sent) = rest.split_once("; ").unwrap_or((rest, ""));
    let rule = Rule {
        cube: cube(alloc, tested)?,
        actions: actions(alloc, sent)?,
    };
    Ok(Flow { pair, rule })
}
