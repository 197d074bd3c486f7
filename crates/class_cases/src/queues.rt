//! What participants are told.

ghost use Rattle.std.specs.Prelude.{◌≡◌, ◌<◌, IfOk, IfSome, option_copied};
ghost use Rattle.advert_queue.specs.Advertised.{HasQueue};

use crate::words::{first_number, first_word, number, prefix, push_prefix};
use crate::wrong::Wrong;
use advert_queue::{Adverts, Entries};
use events::Entry;
use net_types::{
    Asns, Attrs, Ip, Memory, Numbers, Pid, Prefix, Segment, Segments, SharedAttrs, Tag, Unknowns,
};
use std::alloc::Global;

/// A participant more; told is how many there are.
pub fn push(alloc: Global, adverts: &mut Adverts) -> Result<String, Wrong> {
    adverts.push()?;
    let count = adverts.len();
    Ok(format!(in alloc; "{count} participants")?)
}

/// One of the participants, and what stands behind its number.
fn who<'t>(adverts: &Adverts, text: &'t str) -> Result<(Pid, &'t str), Wrong>
    ensures { IfOk result (λ found. HasQueue adverts.now found.0) }
{
    let (who, rest) = first_number(text)?;
    if (who as usize) < adverts.len() {
        Ok((Pid(who), rest))
    } else {
        Err(Wrong::Row)
    }
}

/// Room for so many offers to a participant, and for those of each tag below the same number.
pub fn reserve(alloc: Global, adverts: &mut Adverts, text: &str) -> Result<String, Wrong> {
    let (who, rest) = who(adverts, text)?;
    let offers = number(rest)? as usize;
    adverts.reserve(who, offers, offers)?;
    Ok(String::from_str(alloc, "ok")?)
}

/// The attributes of B's route: IGP, its own AS 65002 alone, and 172.16.1.2 or another port of that net.
fn attrs(alloc: Global, hop: u8) -> Result<Attrs, Memory> {
    let mut asns = Asns::new(alloc);
    asns.push(65002)?;
    let mut path = Segments::new(alloc);
    path.push(Segment::Sequence(asns))?;
    Ok(Attrs {
        origin: 0,
        path,
        next_hop: Ip(0xAC100100 + hop as u32),
        med: None,
        atomic: false,
        aggregator: None,
        communities: Numbers::new(alloc),
        communities_partial: false,
        unknown: Unknowns::new(alloc),
    })
}

/// A tag and the last octet of a next hop, or none for a withdrawal.
fn entry(alloc: Global, text: &str) -> Result<Option<Entry>, Wrong> {
    if text.is_empty() {
        return Ok(None);
    }
    let (tag, rest) = first_number(text)?;
    let Ok(hop) = rest.parse() else {
        return Err(Wrong::Row);
    };
    let attrs = SharedAttrs::new(alloc, attrs(alloc, hop)?)?;
    let tag = Tag(tag);
    Ok(Some(Entry { attrs, tag }))
}

/// A number above that of an entry's tag.
fn tags_for(entry: Option<&Entry>) -> usize
    ensures { IfSome (option_copied entry.entry) (λ e. e.tag.0 < result) }
{
    match entry {
        None => 0,
        Some(entry) => entry.tag.0 as usize + 1,
    }
}

/// Makes an entry present for a participant at a prefix, or none.
pub fn offer(alloc: Global, adverts: &mut Adverts, text: &str) -> Result<String, Wrong> {
    let (who, rest) = who(adverts, text)?;
    let (word, rest) = first_word(rest);
    let entry = entry(alloc, rest)?;
    let prefix = prefix(word)?;
    adverts.reserve(who, 1, tags_for(entry.as_ref()))?;
    adverts.offer(who, prefix, entry);
    Ok(String::from_str(alloc, "ok")?)
}

/// Puts what an entry says behind a text: its tag, its origin, its path and its next hop.
fn push_entry(text: &mut String, prefix: Prefix, entry: &Option<Entry>) -> Result<(), Memory> {
    text.push_str("; ")?;
    push_prefix(text, prefix)?;
    let Some(entry) = entry else {
        text.push_str(" withdrawn")?;
        return Ok(());
    };
    let attrs = entry.attrs.get();
    let (tag, origin) = (entry.tag.0, attrs.origin);
    let [a, b, c, d] = attrs.next_hop.0.to_be_bytes();
    write!(
        text,
        " tag {tag} origin {origin} next hop {a}.{b}.{c}.{d} path"
    )?;
    push_path(text, &attrs.path)
}

fn push_path(text: &mut String, path: &Segments) -> Result<(), Memory> {
    for segment in path.items() {
        for asn in segment.asns() {
            write!(text, " {asn}")?;
        }
    }
    Ok(())
}

fn push_entries(text: &mut String, entries: &Entries) -> Result<(), Memory> {
    let count = entries.len();
    write!(text, "{count} pending")?;
    for (prefix, entry) in entries.items() {
        push_entry(text, *prefix, entry)?;
    }
    Ok(())
}

/// The first of what is pending for a participant, so many at most.
pub fn peek(alloc: Global, adverts: &Adverts, text: &str) -> Result<String, Wrong> {
    let (who, rest) = who(adverts, text)?;
    let entries = adverts.peek(who, number(rest)? as usize)?;
    let mut told = String::new(alloc);
    push_entries(&mut told, &entries)?;
    Ok(told)
}

/// A participant takes the first of what is pending, so many at most.
pub fn take(alloc: Global, adverts: &mut Adverts, text: &str) -> Result<String, Wrong> {
    let (who, rest) = who(adverts, text)?;
    adverts.take(who, Some(number(rest)?));
    Ok(String::from_str(alloc, "ok")?)
}

/// Whether a participant was told a tag, and whether it was told it or it is present for it.
pub fn tells(alloc: Global, adverts: &Adverts, text: &str) -> Result<String, Wrong> {
    let (who, rest) = who(adverts, text)?;
    let tag = Tag(number(rest)?);
    let (tells, holds) = (adverts.tells(who, tag), adverts.holds(who, tag));
    Ok(format!(in alloc; "tells {tells}, holds {holds}")?)
}
