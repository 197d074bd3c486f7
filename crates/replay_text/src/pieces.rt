//! The pieces of a text, between separators.
ghost use Rattle.std.specs.Prelude.{◌≡◌, ◌≢◌, ◌+◌, ◌∷◌, [], length, take, drop, nat_eq, IfSome, MatchOption};
ghost use Rattle.std.specs.List.{position_from};
ghost use Rattle.events.specs.Lines.{pieces};

use memchr::memchr;

/// What stands before the first separator and what stands behind it.
pub fn split_once(text: &[u8], separator: u8) -> Option<(&[u8], &[u8])>
    ensures pieces { MatchOption result (pieces separator text.now ≡ text.now ∷ []) (λ p. pieces separator text.now ≡ p.0.now ∷ pieces separator p.1.now) }
    ensures place { MatchOption result (position_from (λ c. nat_eq c separator) 0 text.now ≡ None) (λ p. position_from (λ c. nat_eq c separator) 0 text.now ≡ Some (length p.0.now)) }
    ensures before { IfSome result (λ p. p.0.now ≡ take (length p.0.now) text.now) }
    ensures behind { IfSome result (λ p. p.1.now ≡ drop (length p.0.now + 1) text.now) }
{
    match memchr(separator, text) {
        Some(at) => Some((&text[..at], &text[at + 1..])),
        None => None,
    }
}

/// A text without a separator.
pub fn one_piece(text: &[u8], separator: u8) -> Option<&[u8]>
    ensures { MatchOption result (length (pieces separator text.now) ≢ 1) (λ p. pieces separator text.now ≡ p.now ∷ []) }
{
    match split_once(text, separator) {
        Some(_) => None,
        None => Some(text),
    }
}

/// The pieces of a text that has two.
pub fn two_pieces(text: &[u8], separator: u8) -> Option<(&[u8], &[u8])>
    ensures { MatchOption result (length (pieces separator text.now) ≢ 2) (λ p. pieces separator text.now ≡ p.0.now ∷ p.1.now ∷ []) }
{
    let (a, rest) = split_once(text, separator)?;
    let b = one_piece(rest, separator)?;
    Some((a, b))
}

/// The pieces of a text that has three.
pub fn three_pieces(text: &[u8], separator: u8) -> Option<(&[u8], &[u8], &[u8])>
    ensures { MatchOption result (length (pieces separator text.now) ≢ 3) (λ p. pieces separator text.now ≡ p.0.now ∷ p.1.now ∷ p.2.now ∷ []) }
{
    let (a, rest) = split_once(text, separator)?;
    let (b, c) = two_pieces(rest, separator)?;
    Some((a, b, c))
}

/// The pieces of a text that has four.
pub fn four_pieces(text: &[u8], separator: u8) -> Option<(&[u8], &[u8], &[u8], &[u8])>
    ensures { MatchOption result (length (pieces separator text.now) ≢ 4) (λ p. pieces separator text.now ≡ p.0.now ∷ p.1.now ∷ p.2.now ∷ p.3.now ∷ []) }
{
    let (a, rest) = split_once(text, separator)?;
    let (b, c, d) = three_pieces(rest, separator)?;
    Some((a, b, c, d))
}
