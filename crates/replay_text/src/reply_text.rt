//! The text of a reply, whole or in pieces.
ghost use Rattle.std.specs.Prelude.{◌≡◌, ◌++◌, ◌<◌, [], IfOk, MatchOption, length};
ghost use Rattle.events.specs.Text.{reply_text};
ghost use Rattle.replay_text.specs.ReplyTexts.{rules_from};

use crate::replies::{push_before_rules, push_behind_rules, push_rule_line};
use crate::rules::LastActions;
use events::{Event, Flow, Reply};
use net_types::{Bytes, Items, Memory};
use std::alloc::Global;
use std::marker::Model;

/// The room that a text starts with, in octets: most replies fit in it, so that their texts never move.
const ROOM: usize = 512;

/// A piece that has so many octets ends with the rule that it has come to.
const LONG: usize = 1 << 16;

/// What comes next of a text.
#[derive(Clone, Copy, Debug, PartialEq, Eq)]
pub(crate) enum Next {
    /// The head line.
    Start,
    /// The rule at this place.
    Rule(usize),
    /// Nothing more.
    End,
}

/// The text of a reply in pieces of some 64 KiB, so that one of many rules doesn't stand in memory whole. Contracts see what
/// is still to come.
#[derive(Drop)]
pub struct ReplyText<'a> {
    alloc: Global,
    number: u32,
    event: &'a Event,
    reply: &'a Reply,
    next: Next,
    last: Option<LastActions<'a>>,
}

impl<'a> Model for ReplyText<'a> {
    ghost use Rattle.std.specs.Prelude.{List, ℕ};
    ghost use Rattle.replay_text.specs.ReplyTexts.{IsIn, to_come};

    ghost Value = { List ℕ };

    ghost view = { λ t. to_come t.number t.event.now t.reply.now t.next };

    ghost invariant = { λ t. IsIn t.reply.now t.next };
}

/// Writes the rules from a place on, until the text is long or all are written; the place of the one behind them.
fn push_rules<'a>(
    text: &mut Vec<u8>,
    event: &Event,
    flows: &'a [Flow],
    from: usize,
    last: &mut Option<LastActions<'a>>,
) -> Result<usize, Memory>
    ensures written { IfOk result (λ next. text.new.items ++ rules_from event.now flows.now next ≡ text.old.items ++ rules_from event.now flows.now from) }
    ensures some { IfOk result (λ next. from < length flows.now → length (text.old.items) < length (text.new.items)) }
{
    let mut next = from;
    while next < flows.len() {
        push_rule_line(text, event, &flows[next], last)?;
        next += 1;
        if text.len() >= LONG {
            return Ok(next);
        }
    }
    Ok(next)
}

impl<'a> ReplyText<'a> {
    /// The text of the reply to the event of the line of this number: the head line, and the detail lines in their order.
    pub fn new(alloc: Global, number: u32, event: &'a Event, reply: &'a Reply) -> ReplyText<'a>
        ensures { result ≡ reply_text number event.now reply.now }
    {
        ReplyText {
            alloc,
            number,
            event,
            reply,
            next: Next::Start,
            last: None,
        }
    }

    /// The next piece, which has some octets; none where nothing is left. Memory is the only refusal.
    pub fn piece(&mut self) -> Result<Option<Bytes>, Memory>
        ensures { IfOk result (λ piece. MatchOption piece ((self.old ≡ []) × (self.new ≡ [])) (λ p. (self.old ≡ p ++ self.new) × (0 < length p))) }
    {
        let from = match self.next {
            Next::Start => 0,
            Next::Rule(place) => place,
            Next::End => return Ok(None),
        };
        let mut text = Vec::with_capacity(self.alloc, ROOM)?;
        if let Next::Start = self.next {
            push_before_rules(&mut text, self.number, self.reply)?;
        }
        let flows = self.reply.adds.items();
        let next = push_rules(&mut text, self.event, flows, from, &mut self.last)?;
        if next < flows.len() {
            self.next = Next::Rule(next);
        } else {
            push_behind_rules(&mut text, self.reply)?;
            self.next = Next::End;
        }
        Ok(Some(Bytes::from_vec(text)))
    }
}

/// The text of the reply to the event of the line of this number: the head line, and the detail lines in their order.
pub fn write_reply(
    alloc: Global,
    number: u32,
    event: &Event,
    reply: &Reply,
) -> Result<Bytes, Memory>
    ensures { IfOk result (λ text. text ≡ reply_text number event.now reply.now) }
{
    let mut left = ReplyText::new(alloc, number, event, reply);
    let mut text = Vec::new(alloc);
    while let Some(piece) = left.piece()? {
        text.extend_from_slice(piece.items())?;
    }
    Ok(Bytes::from_vec(text))
}
