//! Reading a whole message.

ghost use Rattle.std.specs.Prelude.{◌≡◌, ◌≤◌, ◌==◌, ◌⊎◌, length, false, Ok, Err, IfOk, IfSome, MatchResult};
ghost use Rattle.std.specs.List.{list_all};
ghost use Rattle.net_types.specs.Paths.{has_wide, hops};
ghost use Rattle.net_types.specs.UpdateFormat.{no_types};
ghost use Rattle.net_types.specs.SoundUpdates.{IsSoundUpdate};
ghost use Rattle.net_types.specs.UpdateSpelling.{IsFault, Spells};
ghost use Rattle.net_types.specs.Updates.{canonical};
ghost use Rattle.net_types.specs.declared.update.Update.{Update as Value};
ghost use Rattle.net_types.specs.declared.update.Fault.{Fault as Cause};
ghost use Rattle.bgp_update.specs.Answers.{AreNew, Gives, IsDecoded, head_of};
ghost use Rattle.bgp_update.specs.Heads.{read_lengths, read_opening};
ghost use Rattle.net_types.specs.UpdateReading.{decoded, read_head};

use crate::attributes::attributes;
use crate::fault::UpdateFault;
use crate::octets::{ensure, octet, octets, two_octets};
use crate::prefixes::prefixes;
use crate::said::update;
use net_types::{Attribute, Fault, Prefix, Update};
use std::alloc::Global;

fn all_ones(octets: &[u8]) -> bool
    ensures { result ≡ list_all (λ c. c == 255) octets.now }
{
    octets.iter().all(|octet| *octet == 255)
}

/// The length of a message, from its marker, length and type.
#[tactic(auto, unfolding(crate::specs::Heads::read_opening))]
fn opening(bytes: &[u8]) -> Result<(usize, &[u8]), UpdateFault>
    ensures { Gives (λ x. (x.0, x.1.now)) result (read_opening (length bytes.now) bytes.now) }
{
    let (marker, rest) = octets(16, bytes, Fault::BadHeader)?;
    ensure(all_ones(marker), Fault::BadHeader)?;
    let (len, rest) = two_octets(rest, Fault::BadHeader)?;
    ensure(
        19 <= len && len <= 4096 && len == bytes.len(),
        Fault::BadHeader,
    )?;
    let (kind, rest) = octet(rest, Fault::BadHeader)?;
    ensure(kind == 2, Fault::NotUpdate)?;
    ensure(23 <= len, Fault::BadHeader)?;
    Ok((len, rest))
}

/// The octets of the withdrawn prefixes, and how many octets the attributes take.
#[tactic(auto, unfolding(crate::specs::Heads::read_lengths))]
fn lengths(len: usize, rest: &[u8]) -> Result<(&[u8], usize, &[u8]), UpdateFault>
    ensures { Gives (λ x. ((x.0.now, x.1), x.2.now)) result (read_lengths len rest.now) }
{
    let (withdrawn_len, rest) = two_octets(rest, Fault::Malformed)?;
    ensure(withdrawn_len + 23 <= len, Fault::Malformed)?;
    let (withdrawn, rest) = octets(withdrawn_len, rest, Fault::Malformed)?;
    let (attributes_len, rest) = two_octets(rest, Fault::Malformed)?;
    ensure(withdrawn_len + attributes_len + 23 <= len, Fault::Malformed)?;
    Ok((withdrawn, attributes_len, rest))
}

/// What stands in front of the announced prefixes: withdrawn prefixes and attributes.
#[tactic(auto, unfolding(crate::specs::Heads::read_parts))]
fn head(alloc: Global, bytes: &[u8]) -> Result<(Vec<Prefix>, Vec<Attribute>, &[u8]), UpdateFault>
    ensures reads { Gives (λ x. (head_of x.0.items x.1.items, x.2.now)) result (read_head (length bytes.now) bytes.now) }
    ensures new { IfOk result (λ x. AreNew no_types x.1.items) }
{
    let (len, rest) = opening(bytes)?;
    let (withdrawn, attributes_len, rest) = lengths(len, rest)?;
    let withdrawn = prefixes(alloc, withdrawn)?;
    let (inner, rest) = octets(attributes_len, rest, Fault::Malformed)?;
    let all = attributes(alloc, inner)?;
    Ok((withdrawn, all, rest))
}

#[tactic(auto, unfolding(net_types::specs::UpdateReading::read_message, net_types::specs::UpdateReading::read_prefixes, grammar::specs::FormatReading::read_to_end))]
fn read(alloc: Global, bytes: &[u8]) -> Result<Update, UpdateFault>
    ensures { IsDecoded bytes.now result }
{
    let (withdrawn, attributes, rest) = head(alloc, bytes)?;
    let announced = prefixes(alloc, rest)?;
    update(alloc, withdrawn, attributes, announced)
}

/// The update that a message spells, or the first check that it fails.
pub fn decode(alloc: Global, bytes: &[u8]) -> Result<Update, UpdateFault>
    // What reading the octets from left to right gives.
    ensures value { IfOk result (λ u. decoded bytes.now ≡ Ok u) }
    ensures cause { (f : Cause) → result ≡ Err (UpdateFault.Bad f) → decoded bytes.now ≡ Err f }
    // The octets spell this update.
    ensures spells { IfOk result (Spells bytes.now) }
    // They spell no other one.
    ensures only { IfOk result (λ u. (v : Value) → Spells bytes.now v → v ≡ u) }
    // It has the form of what messages say, as writing asks for.
    ensures form { IfOk result IsSoundUpdate }
    // Its canonical message is no longer than a message may be, where no AS number is wide: a path with such a number is
    // written twice.
    ensures short { IfOk result (λ u. IfSome u.attrs (λ a. has_wide a.path ≡ false) → length (canonical u) ≤ 4096) }
    // Its path counts no more AS numbers than a message has octets.
    ensures hops { IfOk result (λ u. IfSome u.attrs (λ a. hops a.path ≤ 4096)) }
    // No check fails.
    ensures sound { IfOk result (λ u. (f : Cause) → IsFault bytes.now f → ⊥) }
    // A fault is that of the first check that fails, and of no other.
    ensures fault { (f : Cause) → result ≡ Err (UpdateFault.Bad f) → IsFault bytes.now f }
    // A message that fails a check is refused by its fault, unless memory runs out.
    ensures refused { (f : Cause) → IsFault bytes.now f → MatchResult result (λ u. ⊥) (λ e. (e ≡ UpdateFault.Bad f) ⊎ (e ≡ UpdateFault.Memory)) }
    // An update that the octets spell is answered, unless memory runs out.
    ensures found { (u : Value) → Spells bytes.now u → MatchResult result (λ v. v ≡ u) (λ e. e ≡ UpdateFault.Memory) }
{
    read(alloc, bytes)
}
