//! Writing a whole message.

ghost use Rattle.std.specs.Prelude.{◌≡◌, ◌≤◌, ◌+◌, length, IfOk};
ghost use Rattle.net_types.specs.Updates.{announcement, attrs_octets, canonical, prefix_octets, prefixes_octets, update_message, withdrawal};
ghost use Rattle.net_types.specs.Octets.{word};
ghost use Rattle.net_types.specs.SoundUpdates.{IsSoundUpdate};
ghost use Rattle.net_types.specs.UpdateSpelling.{Spells};

use crate::encoding::{push_attrs, push_optional_attrs, push_prefix, push_prefixes, word};
use crate::lengths::{attrs_len, prefix_len};
use crate::ranges::optional_fit;
use net_types::{Attrs, Bytes, Ip, Items, Memory, Prefix, Update};
use std::alloc::Global;

/// The head of a message without withdrawn prefixes, in which the lengths of the message and of its attributes are missing.
const HEAD: [u8; 23] = [
    255, 255, 255, 255, 255, 255, 255, 255, 255, 255, 255, 255, 255, 255, 255, 255, 0, 0, 2, 0, 0,
    0, 0,
];

/// The length of a message in two octets, from the lengths of its three blocks.
fn total(withdrawn: usize, attributes: usize, announced: usize) -> [u8; 2]
    ensures { result ≡ word (23 + withdrawn + attributes + announced) }
{
    word(23 + withdrawn % 65536 + attributes % 65536 + announced % 65536)
}

/// A message of its three blocks; a length that two octets don't hold loses its upper part.
#[tactic(auto, using(std::proofs::Common::append_assoc))]
fn message(
    alloc: Global,
    withdrawn: &[u8],
    attributes: &[u8],
    announced: &[u8],
) -> Result<Vec<u8>, Memory>
    ensures { IfOk result (λ m. m.items ≡ update_message withdrawn.now attributes.now announced.now) }
{
    let len = total(withdrawn.len(), attributes.len(), announced.len());
    let mut out = Vec::from_slice(alloc, [255; 16].as_slice())?;
    out.extend_from_slice(len.as_slice())?;
    out.push(2)?;
    out.extend_from_slice(word(withdrawn.len()).as_slice())?;
    out.extend_from_slice(withdrawn)?;
    out.extend_from_slice(word(attributes.len()).as_slice())?;
    out.extend_from_slice(attributes)?;
    out.extend_from_slice(announced)?;
    Ok(out)
}

/// The canonical message of an update, where it has 4096 octets at most.
pub fn encode(alloc: Global, update: &Update) -> Result<Vec<u8>, Memory>
    requires short { length (canonical update.now) ≤ 4096 }
    ensures canonical { IfOk result (λ m. m.items ≡ canonical update.now) }
    // A sound update is what the message spells, so it is what decoding the message answers.
    ensures reads_back { IsSoundUpdate update.now → IfOk result (λ m. Spells m.items update.now) }
{
    optional_fit(&update.attrs);
    let mut withdrawn = Vec::new(alloc);
    push_prefixes(&mut withdrawn, update.withdrawn.items())?;
    let mut attributes = Vec::new(alloc);
    push_optional_attrs(alloc, &mut attributes, &update.attrs)?;
    let mut announced = Vec::new(alloc);
    push_prefixes(&mut announced, update.announced.items())?;
    let message = message(
        alloc,
        withdrawn.as_slice(),
        attributes.as_slice(),
        announced.as_slice(),
    )?;
    Ok(message)
}

/// The canonical message that announces one prefix with these attributes and another NEXT_HOP. The attributes are not copied.
pub fn announcement(
    alloc: Global,
    prefix: Prefix,
    attrs: &Attrs,
    next_hop: Ip,
) -> Result<Bytes, Memory>
    ensures { IfOk result (λ m. m ≡ announcement prefix attrs.now next_hop) }
{
    let mut out = Vec::with_capacity(alloc, 23 + attrs_len(attrs) + prefix_len(prefix))?;
    out.extend_from_slice(HEAD.as_slice())?;
    push_attrs(alloc, &mut out, attrs, next_hop)?;
    let attributes = out.len() - 23;
    push_prefix(&mut out, prefix)?;
    let [total_high, total_low] = total(0, attributes, prefix_len(prefix));
    let [high, low] = word(attributes);
    out[16] = total_high;
    out[17] = total_low;
    out[21] = high;
    out[22] = low;
    Ok(Items::from_vec(out))
}

/// The canonical message that withdraws one prefix.
pub fn withdrawal(alloc: Global, prefix: Prefix) -> Result<Bytes, Memory>
    ensures { IfOk result (λ m. m ≡ withdrawal prefix) }
{
    let withdrawn = prefix_len(prefix);
    let [total_high, total_low] = total(withdrawn, 0, 0);
    let [high, low] = word(withdrawn);
    let mut out = Vec::with_capacity(alloc, 23 + withdrawn)?;
    out.extend_from_slice([255; 16].as_slice())?;
    out.extend_from_slice([total_high, total_low, 2, high, low].as_slice())?;
    push_prefix(&mut out, prefix)?;
    out.extend_from_slice([0, 0].as_slice())?;
    Ok(Items::from_vec(out))
}
