//! The words of a command line.
ghost use Rattle.std.specs.Prelude.{◌≡◌, ◌≤◌, ◌∷◌, [], nat_le, IfSome};
ghost use Rattle.events.specs.Lines.{number_from, number_within, only_if};
ghost use Rattle.replay_run.specs.Command.{HasFewLines, command_of, load_of};

use net_types::Words;

/// So many lines are drawn at most.
const MOST: u64 = 1_000_000;

/// What is to be run.
#[derive(Clone, Copy, Debug, PartialEq, Eq)]
pub enum Command {
    /// The lines of the source.
    Replay,
    /// The declarations and so many lines that are drawn from the seed.
    Load { seed: u64, count: u64 },
}

/// The number of these digits, where it is at most `high`.
fn number_up_to(high: u64, digits: &[u8]) -> Option<u64>
    ensures { result ≡ only_if (λ n. nat_le n high) (number_from 0 digits.now) }
{
    let mut value: u128 = 0;
    for digit in digits {
        if !digit.is_ascii_digit() {
            return None;
        }
        value = 10 * value + u128::from(*digit - b'0');
        if value > u128::from(high) {
            return None;
        }
    }
    Some(value as u64)
}

/// A decimal number without leading zeros, up to `high`.
fn number_within(high: u64, text: &[u8]) -> Option<u64>
    ensures value { result ≡ number_within 0 high text.now }
    ensures within { IfSome result (λ n. n ≤ high) }
{
    match text {
        [] | [b'0', _, ..] => None,
        digits => number_up_to(high, digits),
    }
}

fn one_word(word: &[u8]) -> Option<Command>
    ensures value { result ≡ command_of (word.now ∷ []) }
    ensures few { IfSome result HasFewLines }
{
    if word == b"replay".as_slice() {
        Some(Command::Replay)
    } else {
        None
    }
}

fn load(seed: &[u8], count: &[u8]) -> Option<Command>
    ensures value { result ≡ load_of seed.now count.now }
    ensures few { IfSome result HasFewLines }
{
    let seed = number_within(u64::MAX, seed)?;
    let count = number_within(MOST, count)?;
    Some(Command::Load { seed, count })
}

fn three_words(word: &[u8], seed: &[u8], count: &[u8]) -> Option<Command>
    ensures value { result ≡ command_of (word.now ∷ seed.now ∷ count.now ∷ []) }
    ensures few { IfSome result HasFewLines }
{
    if word == b"load".as_slice() {
        load(seed, count)
    } else {
        None
    }
}

/// The command of the words: `replay`, or `load` with a seed of 64 bits and a number of lines up to 1000000; none of others.
pub fn command_of(words: &Words) -> Option<Command>
    ensures value { result ≡ command_of words.now }
    ensures few { IfSome result HasFewLines }
{
    match words.items() {
        [word] => one_word(word.items()),
        [word, seed, count] => three_words(word.items(), seed.items(), count.items()),
        _ => None,
    }
}
