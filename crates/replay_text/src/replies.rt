//! Writing what a reply says, line by line.
ghost use Rattle.std.specs.Prelude.{◌≡◌, ◌≤◌, ◌++◌, OnOk, length, codes, flat_map};
ghost use Rattle.std.specs.Fmt.{decimal};
ghost use Rattle.events.specs.Text.{head_text, kind_word, refusal_text, tag_text, drop_text, end_line, flow_text, add_text, rule_line, hex_text, advert_text, ask_text, exchange_text, frame_text};
ghost use Rattle.replay_text.specs.Fields.{pair_rule_text};
ghost use Rattle.replay_text.specs.ReplyTexts.{before_rules, behind_rules};

use super::front::Front;
use super::rules::{LastActions, push_address, push_number, push_rule};
use events::{Event, Exchange, Flow, Frame, Head, Refusal, Reply, TagChange};
use net_types::{Bytes, Kind, Memory, Pair};

/// So many octets are written as digits at once.
const PART: usize = 64;

/// How a policy breaks isolation.
fn kind_word(kind: Kind) -> &'static str
    ensures { result.now ≡ kind_word kind }
{
    match kind {
        Kind::UnknownName => "unknown-name",
        Kind::OwnName => "own-name",
        Kind::FwdKind => "fwd-kind",
        Kind::ForeignPort => "foreign-port",
        Kind::ModifyOutbound => "modify-outbound",
        Kind::InportInbound => "inport-inbound",
    }
}

/// Writes two numbers with a space between them.
fn push_two(text: &mut Vec<u8>, a: u64, b: u64) -> Result<(), Memory>
    ensures { OnOk result (text.new.items ≡ text.old.items ++ (decimal a ++ codes " " ++ decimal b)) }
{
    let mut front = Front::new();
    front.number(b);
    front.sign(b' ');
    front.number(a);
    text.extend_from_slice(front.text())?;
    Ok(())
}

fn push_refusal(text: &mut Vec<u8>, refusal: Refusal) -> Result<(), Memory>
    ensures { OnOk result (text.new.items ≡ text.old.items ++ refusal_text refusal) }
{
    match refusal {
        Refusal::BadLine => text.extend_from_slice(b"line")?,
        Refusal::Misplaced => text.extend_from_slice(b"misplaced")?,
        Refusal::Unknown => text.extend_from_slice(b"unknown")?,
        Refusal::Clash => text.extend_from_slice(b"clash")?,
        Refusal::Full => text.extend_from_slice(b"full")?,
        Refusal::BadUpdate(fault) => {
            text.extend_from_slice(b"update ")?;
            text.extend_from_slice(fault.row().word.as_bytes())?;
        }
        Refusal::FirstAs => text.extend_from_slice(b"first-as")?,
        Refusal::NextHop => text.extend_from_slice(b"next-hop")?,
        Refusal::Oversize => text.extend_from_slice(b"oversize")?,
        Refusal::TextLong => text.extend_from_slice(b"too-long")?,
        Refusal::Syntax { at } => {
            text.extend_from_slice(b"syntax ")?;
            push_number(text, u64::from(at))?;
        }
        Refusal::TooDeep { at } => {
            text.extend_from_slice(b"too-deep ")?;
            push_number(text, u64::from(at))?;
        }
        Refusal::Isolate { kind, start, end } => {
            text.extend_from_slice(b"policy ")?;
            text.extend_from_slice(kind_word(kind).as_bytes())?;
            text.push(b' ')?;
            push_two(text, u64::from(start), u64::from(end))?;
        }
        Refusal::TooWide => text.extend_from_slice(b"too-wide")?,
        Refusal::NoNextHop { need, free } => {
            text.extend_from_slice(b"no-next-hop ")?;
            push_two(text, need, u64::from(free))?;
        }
        Refusal::TableFull { rules, capacity } => {
            text.extend_from_slice(b"table-full ")?;
            push_two(text, rules as u64, capacity as u64)?;
        }
        Refusal::BadPacket => text.extend_from_slice(b"packet")?,
    }
    Ok(())
}

fn push_head(text: &mut Vec<u8>, head: Head) -> Result<(), Memory>
    ensures { OnOk result (text.new.items ≡ text.old.items ++ head_text head) }
{
    match head {
        Head::Fine => text.extend_from_slice(b"ok")?,
        Head::Working(units) => {
            text.extend_from_slice(b"working ")?;
            push_number(text, units)?;
        }
        Head::Finished => text.extend_from_slice(b"done")?,
        Head::Unrouted => text.extend_from_slice(b"unrouted")?,
        Head::Unresolved(ip) => {
            text.extend_from_slice(b"unresolved ")?;
            push_address(text, ip)?;
        }
        Head::Silent => text.extend_from_slice(b"silent")?,
        Head::Refused(refusal) => {
            text.extend_from_slice(b"refused ")?;
            push_refusal(text, refusal)?;
        }
    }
    Ok(())
}

fn push_tag(text: &mut Vec<u8>, change: TagChange) -> Result<(), Memory>
    ensures { OnOk result (text.new.items ≡ text.old.items ++ tag_text change) }
{
    match change.tag {
        Some(tag) => {
            let mut line = Front::new();
            line.sign(b'\n');
            line.number(u64::from(tag.0));
            line.sign(b' ');
            line.prefix(change.prefix);
            line.word(b"  tag ");
            text.extend_from_slice(line.text())?;
            Ok(())
        }
        None => {
            let mut line = Front::new();
            line.sign(b'\n');
            line.prefix(change.prefix);
            line.word(b"  untag ");
            text.extend_from_slice(line.text())?;
            Ok(())
        }
    }
}

fn push_tags(text: &mut Vec<u8>, changes: &[TagChange]) -> Result<(), Memory>
    ensures { OnOk result (text.new.items ≡ text.old.items ++ flat_map tag_text changes.now) }
{
    for change in changes {
        push_tag(text, *change)?;
    }
    Ok(())
}

fn push_drop(text: &mut Vec<u8>, pair: Pair) -> Result<(), Memory>
    ensures { OnOk result (text.new.items ≡ text.old.items ++ drop_text pair) }
{
    let mut line = Front::new();
    line.sign(b'\n');
    line.pair(pair);
    line.word(b"  drop ");
    text.extend_from_slice(line.text())?;
    Ok(())
}

/// Writes a few octets in hexadecimal digits.
fn push_hex_part(text: &mut Vec<u8>, part: &[u8]) -> Result<(), Memory>
    requires { length part.now ≤ 64 }
    ensures { OnOk result (text.new.items ≡ text.old.items ++ hex_text part.now) }
{
    let mut room = [0; 2 * PART];
    let digits = &mut room[..2 * part.len()];
    // It never fails: the digits have just the room that they take.
    let _ = hex::encode_to_slice(part, digits);
    text.extend_from_slice(digits)?;
    Ok(())
}

fn push_hex(text: &mut Vec<u8>, octets: &[u8]) -> Result<(), Memory>
    ensures { OnOk result (text.new.items ≡ text.old.items ++ hex_text octets.now) }
{
    let mut rest = octets;
    while rest.len() > PART {
        let (part, behind) = rest.split_at(PART);
        push_hex_part(text, part)?;
        rest = behind;
    }
    push_hex_part(text, rest)
}

fn push_advert(text: &mut Vec<u8>, octets: &[u8]) -> Result<(), Memory>
    ensures { OnOk result (text.new.items ≡ text.old.items ++ advert_text octets.now) }
{
    text.extend_from_slice(b"  advert ")?;
    push_hex(text, octets)?;
    text.push(b'\n')?;
    Ok(())
}

fn push_frame(text: &mut Vec<u8>, frame: &Frame) -> Result<(), Memory>
    ensures { OnOk result (text.new.items ≡ text.old.items ++ frame_text frame.now) }
{
    let mut front = Front::new();
    front.sign(b' ');
    front.number(u64::from(frame.port.0));
    front.word(b"  out ");
    text.extend_from_slice(front.text())?;
    push_hex(text, frame.bytes.items())?;
    text.push(b'\n')?;
    Ok(())
}

fn push_drops(text: &mut Vec<u8>, pairs: &[Pair]) -> Result<(), Memory>
    ensures { OnOk result (text.new.items ≡ text.old.items ++ flat_map drop_text pairs.now) }
{
    for pair in pairs {
        push_drop(text, *pair)?;
    }
    Ok(())
}

/// Writes the line of a pair and a rule behind this first word.
fn push_pair_rule<'a>(
    text: &mut Vec<u8>,
    word: &[u8],
    flow: &'a Flow,
    last: &mut Option<LastActions<'a>>,
) -> Result<(), Memory>
    requires { length word.now ≤ 100 }
    ensures { OnOk result (text.new.items ≡ text.old.items ++ (word.now ++ pair_rule_text flow.now)) }
{
    let mut front = Front::new();
    front.sign(b' ');
    front.pair(flow.pair);
    front.word(word);
    text.extend_from_slice(front.text())?;
    push_rule(text, &flow.rule, last)?;
    text.push(b'\n')?;
    Ok(())
}

fn push_flow<'a>(
    text: &mut Vec<u8>,
    flow: &'a Flow,
    last: &mut Option<LastActions<'a>>,
) -> Result<(), Memory>
    ensures { OnOk result (text.new.items ≡ text.old.items ++ flow_text flow.now) }
{
    push_pair_rule(text, b"  flow ", flow, last)
}

fn push_add<'a>(
    text: &mut Vec<u8>,
    flow: &'a Flow,
    last: &mut Option<LastActions<'a>>,
) -> Result<(), Memory>
    ensures { OnOk result (text.new.items ≡ text.old.items ++ add_text flow.now) }
{
    push_pair_rule(text, b"  add ", flow, last)
}

/// Writes a rule in the reply to an event, which says whether it is shown or put in.
pub fn push_rule_line<'a>(
    text: &mut Vec<u8>,
    event: &Event,
    flow: &'a Flow,
    last: &mut Option<LastActions<'a>>,
) -> Result<(), Memory>
    ensures { OnOk result (text.new.items ≡ text.old.items ++ rule_line event.now flow.now) }
{
    match event {
        Event::Table => push_flow(text, flow, last),
        _ => push_add(text, flow, last),
    }
}

fn push_adverts(text: &mut Vec<u8>, messages: &[Bytes]) -> Result<(), Memory>
    ensures { OnOk result (text.new.items ≡ text.old.items ++ flat_map advert_text messages.now) }
{
    for message in messages {
        push_advert(text, message.items())?;
    }
    Ok(())
}

fn push_ask(text: &mut Vec<u8>, request: &Option<Bytes>) -> Result<(), Memory>
    ensures { OnOk result (text.new.items ≡ text.old.items ++ ask_text request.now) }
{
    let Some(request) = request else {
        return Ok(());
    };
    text.extend_from_slice(b"  ask ")?;
    push_hex(text, request.items())?;
    text.push(b'\n')?;
    Ok(())
}

/// Writes the reply to an ARP request.
fn push_answer(text: &mut Vec<u8>, octets: &[u8]) -> Result<(), Memory>
    ensures { OnOk result (text.new.items ≡ text.old.items ++ (codes "  reply " ++ hex_text octets.now ++ end_line)) }
{
    text.extend_from_slice(b"  reply ")?;
    push_hex(text, octets)?;
    text.push(b'\n')?;
    Ok(())
}

fn push_exchange(text: &mut Vec<u8>, exchange: &Exchange) -> Result<(), Memory>
    ensures { OnOk result (text.new.items ≡ text.old.items ++ exchange_text exchange.now) }
{
    push_ask(text, &exchange.request)?;
    push_answer(text, exchange.reply.items())
}

fn push_exchanges(text: &mut Vec<u8>, exchanges: &[Exchange]) -> Result<(), Memory>
    ensures { OnOk result (text.new.items ≡ text.old.items ++ flat_map exchange_text exchanges.now) }
{
    for exchange in exchanges {
        push_exchange(text, exchange)?;
    }
    Ok(())
}

fn push_frames(text: &mut Vec<u8>, frames: &[Frame]) -> Result<(), Memory>
    ensures { OnOk result (text.new.items ≡ text.old.items ++ flat_map frame_text frames.now) }
{
    for frame in frames {
        push_frame(text, frame)?;
    }
    Ok(())
}

/// Writes what stands before the rules: the head line, and the lines of tags and of pairs that go.
pub fn push_before_rules(text: &mut Vec<u8>, number: u32, reply: &Reply) -> Result<(), Memory>
    ensures { OnOk result (text.new.items ≡ text.old.items ++ before_rules number reply.now) }
{
    let mut front = Front::new();
    front.sign(b' ');
    front.number(u64::from(number));
    text.extend_from_slice(front.text())?;
    push_head(text, reply.head)?;
    text.push(b'\n')?;
    push_tags(text, reply.tags.items())?;
    push_drops(text, reply.drops.items())
}

/// Writes what stands behind the rules: adverts, the exchanges with the responder, and frames.
pub fn push_behind_rules(text: &mut Vec<u8>, reply: &Reply) -> Result<(), Memory>
    ensures { OnOk result (text.new.items ≡ text.old.items ++ behind_rules reply.now) }
{
    push_adverts(text, reply.adverts.items())?;
    push_exchanges(text, reply.asks.items())?;
    push_frames(text, reply.frames.items())
}
