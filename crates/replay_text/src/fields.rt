//! The fields of a line: numbers, addresses, names and octets.
ghost use Rattle.std.specs.Prelude.{◌≡◌, ◌≤◌, nat_le, IfOk, IfSome, option_copied};
ghost use Rattle.std.specs.List.{list_all};
ghost use Rattle.grammar.specs.Tokens.{is_letter, is_name_octet};
ghost use Rattle.events.specs.Lines.{is_name, is_text, is_utf8, name, only_if, number_from, number_within, port_number, as_number, address, one_octet, hardware_address, bytes};

use super::pieces::{four_pieces, split_once};
use hex::FromHexError;
use net_types::{Bytes, Ip, Mac, Memory, PortNo};
use std::alloc::Global;
use text_fields::{is_letter, is_name_octet};

fn are_name_octets(text: &[u8]) -> bool
    ensures { result ≡ list_all is_name_octet text.now }
{
    text.iter().all(|c| is_name_octet(*c))
}

fn is_name(text: &[u8]) -> bool
    ensures { result ≡ is_name text.now }
{
    match text.split_first() {
        None => false,
        Some((first, others)) => {
            is_letter(*first) && others.len() <= 15 && are_name_octets(others)
        }
    }
}

/// A letter, and then at most 15 letters, digits, `_` or `-`.
pub fn name(text: &[u8]) -> Option<&[u8]>
    ensures { option_copied result ≡ name text.now }
{
    if is_name(text) { Some(text) } else { None }
}

/// The number of these digits, where it is at most `high`.
fn number_up_to(high: u32, digits: &[u8]) -> Option<u32>
    ensures { result ≡ only_if (λ n. nat_le n high) (number_from 0 digits.now) }
{
    let mut value: u64 = 0;
    for digit in digits {
        if !digit.is_ascii_digit() {
            return None;
        }
        value = 10 * value + u64::from(*digit - b'0');
        if value > u64::from(high) {
            return None;
        }
    }
    Some(value as u32)
}

/// A decimal number without leading zeros, from `low` to `high`.
pub fn number_within(low: u32, high: u32, text: &[u8]) -> Option<u32>
    ensures value { result ≡ number_within low high text.now }
    ensures within { IfSome result (λ n. n ≤ high) }
{
    match text {
        [] | [b'0', _, ..] => None,
        digits => {
            let value = number_up_to(high, digits)?;
            if low <= value { Some(value) } else { None }
        }
    }
}

/// The number of a port, from 1 to 65279.
pub fn port_number(text: &[u8]) -> Option<PortNo>
    ensures { result ≡ port_number text.now }
{
    let number = number_within(1, 65279, text)?;
    Some(PortNo(number as u16))
}

/// The number of an AS, from 1 to 4294967295 without 23456 (RFC 6793 9).
pub fn as_number(text: &[u8]) -> Option<u32>
    ensures { result ≡ as_number text.now }
{
    let number = number_within(1, 4294967295, text)?;
    if number == 23456 {
        return None;
    }
    Some(number)
}

/// Four numbers from 0 to 255 with dots between them.
pub fn address(text: &[u8]) -> Option<Ip>
    ensures { result ≡ address text.now }
{
    let (a, b, c, d) = four_pieces(text, b'.')?;
    let a = number_within(0, 255, a)?;
    let b = number_within(0, 255, b)?;
    let c = number_within(0, 255, c)?;
    let d = number_within(0, 255, d)?;
    Some(Ip(16777216 * a + 65536 * b + 256 * c + d))
}

/// Two hexadecimal digits.
fn one_octet(text: &[u8]) -> Option<u8>
    ensures { result ≡ one_octet text.now }
{
    let mut octet = [0];
    match hex::decode_to_slice(text, &mut octet) {
        Ok(()) => Some(octet[0]),
        Err(_) => None,
    }
}

/// Six groups of two hexadecimal digits with colons between them.
pub fn hardware_address(text: &[u8]) -> Option<Mac>
    ensures { result ≡ hardware_address text.now }
{
    let (a, rest) = split_once(text, b':')?;
    let (b, rest) = split_once(rest, b':')?;
    let (c, d, e, f) = four_pieces(rest, b':')?;
    Some(Mac([
        one_octet(a)?,
        one_octet(b)?,
        one_octet(c)?,
        one_octet(d)?,
        one_octet(e)?,
        one_octet(f)?,
    ]))
}

/// Pairs of hexadecimal digits of either case, at least one.
pub fn bytes(alloc: Global, text: &[u8]) -> Result<Option<Bytes>, Memory>
    ensures { IfOk result (λ octets. octets ≡ bytes text.now) }
{
    match hex::decode(alloc, text) {
        Ok(octets) if octets.is_empty() => Ok(None),
        Ok(octets) => Ok(Some(Bytes::from_vec(octets))),
        Err(FromHexError::OutOfMemory) => Err(Memory),
        Err(_) => Ok(None),
    }
}

fn is_utf8(text: &[u8]) -> bool
    ensures { result ≡ is_utf8 text.now }
{
    std::str::from_utf8(text).is_ok()
}

/// UTF-8 (RFC 3629) of at least one octet.
pub fn is_text(text: &[u8]) -> bool
    ensures { result ≡ is_text text.now }
{
    !text.is_empty() && is_utf8(text)
}

/// A list of these octets.
pub fn copied(alloc: Global, octets: &[u8]) -> Result<Bytes, Memory>
    ensures { IfOk result (λ list. list ≡ octets.now) }
{
    Ok(Bytes::from_vec(octets.to_vec(alloc)?))
}
