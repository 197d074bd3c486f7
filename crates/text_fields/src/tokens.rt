//! The tokens of a text. Each function is given the length of the whole text and what is left of it.

ghost use Rattle.std.specs.Prelude.{◌≡◌, ◌+◌, ◌-◌, ◌<◌, ◌≤◌, ◌^◌, length, ◌==◌, IfOk};
ghost use Rattle.std.specs.List.{list_any};
ghost use Rattle.grammar.specs.Octets.{among, next_is};
ghost use Rattle.grammar.specs.Tokens.{is_letter, is_digit, is_name_octet, is_space};
ghost use Rattle.grammar.specs.TextReading.{after_run, read_word};
ghost use Rattle.grammar.specs.TokenReading.{read_sign, name_len, read_name, read_number, read_gap};
ghost use Rattle.text_fields.specs.Answers.{Gives};

use crate::fault::WrongOctet;
use std::str;

/// The place at which the rest of a text stands.
pub fn place(size: usize, rest: &[u8]) -> u32
    requires { size < 2 ^ 32 }
    ensures { result ≡ size - length rest.now }
{
    size.saturating_sub(rest.len()) as u32
}

/// No text goes on with the next octet, or ends here.
pub fn wrong(size: usize, rest: &[u8]) -> WrongOctet
    requires { size < 2 ^ 32 }
    ensures { result ≡ record { at = size - length rest.now } }
{
    WrongOctet {
        at: place(size, rest),
    }
}

/// What is left behind a word.
pub fn word<'a>(size: usize, word: &[u8], rest: &'a [u8]) -> Result<&'a [u8], WrongOctet>
    requires { size < 2 ^ 32 }
    ensures reads { Gives (λ r. (tt, r.now)) result (read_word word.now size rest.now) }
    ensures left { IfOk result (λ r. length r.now + length word.now ≡ length rest.now) }
{
    let mut left = rest;
    for octet in word {
        match left {
            [] => return Err(wrong(size, left)),
            [first, others @ ..] => {
                if *octet != *first {
                    return Err(wrong(size, left));
                }
                left = others;
            }
        }
    }
    Ok(left)
}

fn is_among(octet: u8, octets: &[u8]) -> bool
    ensures { result ≡ list_any (λ x. octet == x) octets.now }
{
    octets.iter().any(|x| octet == *x)
}

/// Whether the next octet is one of these.
pub fn next_is(octets: &[u8], rest: &[u8]) -> bool
    ensures { result ≡ next_is (among octets.now) rest.now }
{
    match rest {
        [] => false,
        [next, ..] => is_among(*next, octets),
    }
}

/// What is left behind the spaces, of which there may be none.
pub fn spaces(rest: &[u8]) -> &[u8]
    ensures reads { result.now ≡ after_run is_space rest.now }
    ensures left { length result.now ≤ length rest.now }
{
    let mut left = rest;
    while let [b' ', others @ ..] = left {
        left = others;
    }
    left
}

/// What is left behind at least one space.
pub fn gap(size: usize, rest: &[u8]) -> Result<&[u8], WrongOctet>
    requires { size < 2 ^ 32 }
    ensures reads { Gives (λ r. (tt, r.now)) result (read_gap size rest.now) }
    ensures left { IfOk result (λ r. length r.now < length rest.now) }
{
    match rest {
        [b' ', others @ ..] => Ok(spaces(others)),
        _ => Err(wrong(size, rest)),
    }
}

/// What is left behind a word or a sign and the spaces behind it.
pub fn sign<'a>(size: usize, sign: &[u8], rest: &'a [u8]) -> Result<&'a [u8], WrongOctet>
    requires { size < 2 ^ 32 }
    ensures reads { Gives (λ r. (tt, r.now)) result (read_sign sign.now size rest.now) }
    ensures left { IfOk result (λ r. length r.now + length sign.now ≤ length rest.now) }
{
    Ok(spaces(word(size, sign, rest)?))
}

/// Whether an octet is a letter of either case.
pub fn is_letter(octet: u8) -> bool
    ensures { result ≡ is_letter octet }
{
    octet.is_ascii_alphabetic()
}

/// Whether an octet may stand in a name behind its first: a letter, a digit, a dash or a low line.
pub fn is_name_octet(octet: u8) -> bool
    ensures { result ≡ is_name_octet octet }
{
    is_letter(octet) || octet.is_ascii_digit() || octet == b'-' || octet == b'_'
}

// How many octets of a name stand behind its first.
fn name_len(rest: &[u8]) -> usize
    ensures len { result ≡ name_len rest.now }
    ensures within { result ≤ length rest.now }
{
    rest.iter()
        .take(15)
        .take_while(|octet| is_name_octet(**octet))
        .count()
}

/// A name, of which as many octets are read as may be, and what is left.
pub fn name(size: usize, rest: &[u8]) -> Result<(&str, &[u8]), WrongOctet>
    requires { size < 2 ^ 32 }
    ensures reads { Gives (λ x. (x.0.now, x.1.now)) result (read_name size rest.now) }
    ensures left { IfOk result (λ x. length x.1.now < length rest.now) }
{
    match rest {
        [first, others @ ..] if is_letter(*first) => {
            let (name, after) = rest.split_at(name_len(others) + 1);
            match str::from_utf8(name) {
                Ok(name) => Ok((name, after)),
                Err(_) => unreachable!(),
            }
        }
        _ => Err(wrong(size, rest)),
    }
}

/// A number from low to high, of which more digits are read as long as it stays up to high, and what is left.
pub fn number(size: usize, low: u32, high: u32, rest: &[u8]) -> Result<(u32, &[u8]), WrongOctet>
    requires size { size < 2 ^ 32 }
    requires nine { 9 ≤ high }
    requires high { high < 2 ^ 16 }
    ensures reads { Gives (λ x. (x.0, x.1.now)) result (read_number low high size rest.now) }
    ensures within { IfOk result (λ x. x.0 ≤ high) }
    ensures left { IfOk result (λ x. length x.1.now < length rest.now) }
{
    let (mut value, mut left) = match rest {
        [digit @ b'0'..=b'9', others @ ..] if low <= (*digit - b'0') as u32 => {
            ((*digit - b'0') as u32, others)
        }
        _ => return Err(wrong(size, rest)),
    };
    while let [digit @ b'0'..=b'9', others @ ..] = left {
        let next = value * 10 + (*digit - b'0') as u32;
        if value == 0 || next > high {
            break;
        }
        value = next;
        left = others;
    }
    Ok((value, left))
}
