//! Signatures as words: `B2` where A sends by B at port 2, `B2+C4` where C offers it too at port 4, and `-` without a part.

use crate::wrong::Wrong;
use net_types::{Memory, Offer, Offers, Part, Pid, PortNo, Sig};
use std::alloc::Global;

/// The offer of a letter and a port.
fn offer(word: &str) -> Result<Offer, Wrong> {
    let (exporter, digits) = match word.split_at_checked(1) {
        Some(("B", digits)) => (Pid(1), digits),
        Some(("C", digits)) => (Pid(2), digits),
        _ => return Err(Wrong::Row),
    };
    match digits.parse() {
        Ok(port) => Ok(Offer {
            exporter,
            port: PortNo(port),
            hole: false,
        }),
        Err(_) => Err(Wrong::Row),
    }
}

/// A's part. The first who offers is the best.
fn part(alloc: Global, word: &str) -> Result<Part, Wrong> {
    let mut offers = Offers::new(alloc);
    for word in word.split('+') {
        offers.push(offer(word)?)?;
    }
    match offers.items().first() {
        Some(first) => {
            let best = first.exporter;
            let sender = Pid(0);
            Ok(Part {
                sender,
                best,
                offers,
            })
        }
        None => Err(Wrong::Row),
    }
}

/// The signature that a word is.
pub fn signature(alloc: Global, word: &str) -> Result<Sig, Wrong> {
    let mut signature = Sig::new(alloc);
    if word != "-" {
        signature.push(part(alloc, word)?)?;
    }
    Ok(signature)
}

fn letter(who: Pid) -> &'static str {
    match who.0 {
        0 => "A",
        1 => "B",
        2 => "C",
        _ => "?",
    }
}

/// Puts a signature behind a text.
pub fn push_signature(text: &mut String, signature: &Sig) -> Result<(), Memory> {
    if signature.is_empty() {
        text.push_str("-")?;
    }
    for part in signature.items() {
        let (sender, best) = (letter(part.sender), letter(part.best));
        write!(text, "{sender} by {best} of")?;
        for offer in part.offers.items() {
            let (who, port) = (letter(offer.exporter), offer.port.0);
            write!(text, " {who}{port}")?;
        }
    }
    Ok(())
}
