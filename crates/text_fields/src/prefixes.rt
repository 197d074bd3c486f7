//! Addresses and prefixes in a text.

ghost use Rattle.std.specs.Prelude.{◌≡◌, ◌<◌, ◌≤◌, ◌^◌, length, IfOk};
ghost use Rattle.grammar.specs.TokenReading.{read_address};
ghost use Rattle.net_types.specs.PolicyGrammar.{prefix_of};
ghost use Rattle.net_types.specs.PrefixReading.{read_prefix_len, read_prefix};
ghost use Rattle.text_fields.specs.Answers.{Gives};

use crate::fault::WrongOctet;
use crate::tokens::{number, word};
use net_types::{Ip, Prefix};

/// An address as the number that its four octets spell, and what is left.
#[tactic(auto, unfolding(grammar::specs::TokenReading::read_address))]
pub fn address(size: usize, rest: &[u8]) -> Result<(u32, &[u8]), WrongOctet>
    requires { size < 2 ^ 32 }
    ensures reads { Gives (λ x. (x.0, x.1.now)) result (read_address size rest.now) }
    ensures left { IfOk result (λ x. length x.1.now < length rest.now) }
{
    let (a, rest) = number(size, 0, 255, rest)?;
    let rest = word(size, b".", rest)?;
    let (b, rest) = number(size, 0, 255, rest)?;
    let rest = word(size, b".", rest)?;
    let (c, rest) = number(size, 0, 255, rest)?;
    let rest = word(size, b".", rest)?;
    let (d, rest) = number(size, 0, 255, rest)?;
    Ok((((a * 256 + b) * 256 + c) * 256 + d, rest))
}

// The bits of the address past the first are cleared.
fn first_bits(ip: u32, len: u8) -> Prefix
    requires { len ≤ 32 }
    ensures { result ≡ prefix_of ip len }
{
    match Prefix::new(Ip(ip), len) {
        Ok(prefix) => prefix,
        Err(_) => unreachable!(),
    }
}

#[tactic(auto, unfolding(net_types::specs::PrefixReading::read_prefix_len))]
fn prefix_len(size: usize, rest: &[u8]) -> Result<(u32, &[u8]), WrongOctet>
    requires { size < 2 ^ 32 }
    ensures reads { Gives (λ x. (x.0, x.1.now)) result (read_prefix_len size rest.now) }
    ensures within { IfOk result (λ x. x.0 ≤ 32) }
    ensures left { IfOk result (λ x. length x.1.now ≤ length rest.now) }
{
    match rest {
        [b'/', ..] => number(size, 0, 32, word(size, b"/", rest)?),
        _ => Ok((32, rest)),
    }
}

/// A prefix, of 32 bits where no length is written, and what is left.
#[tactic(auto, unfolding(net_types::specs::PrefixReading::read_prefix))]
pub fn prefix(size: usize, rest: &[u8]) -> Result<(Prefix, &[u8]), WrongOctet>
    requires { size < 2 ^ 32 }
    ensures reads { Gives (λ x. (x.0, x.1.now)) result (read_prefix size rest.now) }
    ensures left { IfOk result (λ x. length x.1.now < length rest.now) }
{
    let (ip, rest) = address(size, rest)?;
    let (len, rest) = prefix_len(size, rest)?;
    Ok((first_bits(ip, len as u8), rest))
}
