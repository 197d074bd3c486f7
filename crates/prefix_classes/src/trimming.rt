//! Offers that don't count any more, taken out of the kept signatures.

ghost use Rattle.std.specs.Prelude.{◌≡◌, nat_eq};
ghost use Rattle.std.specs.List.{list_any};
ghost use Rattle.net_types.specs.declared.address.Pid.{Pid as AnyPid};
ghost use Rattle.net_types.specs.Signatures.{counts, trimmed, trimmed_part};

use net_types::{Items, Part, Pid, Sig};
use std::alloc::Global;
use std::mem;

fn is_named(named: &[Pid], who: Pid) -> bool
    ensures { result ≡ list_any (λ (other : AnyPid). nat_eq other.0 who.0) named.now }
{
    named.iter().any(|other| other.0 == who.0)
}

/// Whether an exporter counts: it is the best one, or it is named.
fn counts(named: &[Pid], best: Pid, who: Pid) -> bool
    ensures { result ≡ counts named.now best who }
{
    who.0 == best.0 || is_named(named, who)
}

/// Takes those offers out of a part of the sender's that don't count.
fn trim_part(part: &mut Part, who: Pid, named: &[Pid])
    ensures { part.new ≡ trimmed_part who named.now part.old }
{
    if part.sender.0 == who.0 {
        let best = part.best;
        part.offers
            .retain(|offer| counts(named, best, offer.exporter));
    }
}

fn trim_parts(parts: &mut [Part], who: Pid, named: &[Pid])
    ensures { parts.new ≡ trimmed who named.now parts.old }
{
    for part in parts.iter_mut() {
        trim_part(part, who, named);
    }
}

/// Takes those offers out of the sender's parts of a signature that don't count.
pub(crate) fn trim_sig(alloc: Global, sig: &mut Sig, who: Pid, named: &[Pid])
    ensures { sig.new ≡ trimmed who named.now sig.old }
{
    let mut parts = mem::replace(sig, Items::new(alloc)).into_vec();
    trim_parts(&mut parts, who, named);
    *sig = Items::from_vec(parts);
}
