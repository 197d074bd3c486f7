//! The policies of participants, as texts.

ghost use Rattle.std.specs.Prelude.{◌≡◌, ◌<◌, length, map, slice_set, IfOk};
ghost use Rattle.plan_cases.specs.Policies.{dropping, inbound_texts, outbound_texts};

use net_types::{Items, Memory, Pid, Text, TryCopy};
use registry::Registry;
use std::alloc::Global;

/// The texts of a participant's two policies.
#[derive(Drop)]
pub struct Texts {
    pub outbound: Text,
    pub inbound: Text,
}

/// The texts of a participant whose policies drop.
fn both_dropping(alloc: Global) -> Result<Texts, Memory>
    ensures { IfOk result (λ texts. texts ≡ dropping) }
{
    let outbound = Items::from_vec(Vec::from_slice(alloc, "drop".as_bytes())?);
    let inbound = Items::from_vec(Vec::from_slice(alloc, "drop".as_bytes())?);
    Ok(Texts { outbound, inbound })
}

/// The policies of participants of whom each one's drop.
pub fn all_dropping(alloc: Global, names: &Registry) -> Result<Vec<Texts>, Memory>
    ensures { IfOk result (λ all. all.items ≡ map (λ m. dropping) names.now.participants) }
{
    let mut all = Vec::new(alloc);
    for _participant in names.participants() {
        all.push(both_dropping(alloc)?)?;
    }
    Ok(all)
}

/// The same texts of a participant.
fn copied(texts: &Texts) -> Result<Texts, Memory>
    ensures { IfOk result (λ twin. twin ≡ texts.now) }
{
    let outbound = texts.outbound.copy()?;
    let inbound = texts.inbound.copy()?;
    Ok(Texts { outbound, inbound })
}

/// The same policies.
pub fn same(alloc: Global, all: &[Texts]) -> Result<Vec<Texts>, Memory>
    ensures { IfOk result (λ twin. twin.items ≡ all.now) }
{
    let mut twin = Vec::new(alloc);
    for texts in all {
        twin.push(copied(texts)?)?;
    }
    Ok(twin)
}

/// The policies where the outbound one of a participant is another one.
pub fn with_outbound(
    alloc: Global,
    all: &[Texts],
    who: Pid,
    text: &str,
) -> Result<Vec<Texts>, Memory>
    requires { who.0 < length all.now }
    ensures outbound { IfOk result (λ others. outbound_texts others.items ≡ slice_set (outbound_texts all.now) who.0 text.now) }
    ensures inbound { IfOk result (λ others. inbound_texts others.items ≡ inbound_texts all.now) }
{
    let mut others = same(alloc, all)?;
    others[who.0 as usize].outbound = Items::from_vec(Vec::from_slice(alloc, text.as_bytes())?);
    Ok(others)
}

/// The policies where the inbound one of a participant is another one.
pub fn with_inbound(
    alloc: Global,
    all: &[Texts],
    who: Pid,
    text: &str,
) -> Result<Vec<Texts>, Memory>
    requires { who.0 < length all.now }
    ensures outbound { IfOk result (λ others. outbound_texts others.items ≡ outbound_texts all.now) }
    ensures inbound { IfOk result (λ others. inbound_texts others.items ≡ slice_set (inbound_texts all.now) who.0 text.now) }
{
    let mut others = same(alloc, all)?;
    others[who.0 as usize].inbound = Items::from_vec(Vec::from_slice(alloc, text.as_bytes())?);
    Ok(others)
}
