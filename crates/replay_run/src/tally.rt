//! What is counted of the replies to generated lines.
ghost use Rattle.std.specs.Prelude.{◌≡◌, ◌+◌, [], IfOk, string_bytes};
ghost use Rattle.replay_run.specs.Load.{counted_with, one_if, tally_of, tally_text, up_to_last};

use crate::progress::is_refused;
use events::Reply;
use net_types::Memory;
use std::alloc::Global;

/// How many replies there are that are no refusals, how many refusals, and how many adverts and frames are in them. Each count
/// stands still at its last value.
#[derive(Clone, Copy, Debug, PartialEq, Eq)]
pub struct Tally {
    pub ok: u64,
    pub refused: u64,
    pub adverts: u64,
    pub frames: u64,
}

/// One more where the test holds.
fn raised(count: u64, by_one: bool) -> u64
    ensures { result ≡ up_to_last (count + one_if by_one) }
{
    if by_one {
        count.saturating_add(1)
    } else {
        count
    }
}

impl Tally {
    /// Of no replies.
    pub fn new() -> Tally
        ensures { result ≡ tally_of [] }
    {
        Tally {
            ok: 0,
            refused: 0,
            adverts: 0,
            frames: 0,
        }
    }

    /// With one reply more.
    pub fn with(self, reply: &Reply) -> Tally
        ensures { result ≡ counted_with self reply.now }
    {
        let refused = is_refused(reply);
        Tally {
            ok: raised(self.ok, !refused),
            refused: raised(self.refused, refused),
            adverts: self.adverts.saturating_add(reply.adverts.len() as u64),
            frames: self.frames.saturating_add(reply.frames.len() as u64),
        }
    }
}

/// The summary: so many lines, what was counted of the replies, and how many tags are live and rules in the table at the end.
pub fn summary(
    alloc: Global,
    lines: u64,
    tally: Tally,
    tags: u32,
    rules: usize,
) -> Result<String, Memory>
    ensures { IfOk result (λ text. string_bytes text ≡ tally_text lines tally tags rules) }
{
    let ok = tally.ok;
    let refused = tally.refused;
    let adverts = tally.adverts;
    let frames = tally.frames;
    let mut text = String::new(alloc);
    write!(text, "lines {lines}\nok {ok}\nrefused {refused}\n")?;
    write!(text, "adverts {adverts}\nframes {frames}\n")?;
    write!(text, "tags {tags}\nrules {rules}\n")?;
    Ok(text)
}
