//! Updates as words of a row.

use crate::said::{Communities, Path, Route, Said, Who};

/// The first word, and what stands behind it.
pub fn first_word(text: &str) -> (&str, &str) {
    text.split_once(' ').unwrap_or((text, ""))
}

/// A participant by its name.
pub fn who(word: &str) -> Who {
    match word {
        "A" => Who::A,
        "B" => Who::B,
        _ => Who::C,
    }
}

/// AS numbers behind colons; 0 for each that is wanting.
fn three_numbers(text: &str) -> (u16, u16, u16) {
    let (first, rest) = text.split_once(':').unwrap_or((text, ""));
    let (second, third) = rest.split_once(':').unwrap_or((rest, ""));
    (
        first.parse().unwrap_or(0),
        second.parse().unwrap_or(0),
        third.parse().unwrap_or(0),
    )
}

/// A kind of path, and its numbers behind colons.
fn path(word: &str) -> Path {
    let (kind, numbers) = word.split_once(':').unwrap_or((word, ""));
    let (first, second, third) = three_numbers(numbers);
    match kind {
        "own" => Path::Own(first),
        "long" => Path::Long(first, second),
        "set" => Path::Set(first, second, third),
        "alone" => Path::SetAlone(first),
        _ => Path::Empty,
    }
}

fn communities(word: &str) -> Communities {
    match word {
        "another" => Communities::Another,
        "hole" => Communities::Hole,
        "among" => Communities::Among,
        "twice" => Communities::Twice,
        _ => Communities::None,
    }
}

/// A path, the last octet of a next hop, and where they are there a discriminator and communities.
fn route(text: &str) -> Route {
    let (way, rest) = first_word(text);
    let (hop, rest) = first_word(rest);
    let (med, word) = first_word(rest);
    Route {
        path: path(way),
        hop: hop.parse().unwrap_or(0),
        med: med.parse().ok(),
        communities: communities(word),
    }
}

/// What a participant says: `gone` and a prefix, `here`, a prefix and a route, or `two` or `moved`, two prefixes and a route.
pub fn said(text: &str) -> (Who, Said) {
    let (name, rest) = first_word(text);
    let (kind, rest) = first_word(rest);
    let (first, rest) = first_word(rest);
    let (second, behind) = first_word(rest);
    let here = first.parse().unwrap_or(0);
    let other = second.parse().unwrap_or(0);
    let said = match kind {
        "here" => Said::Here(route(rest), here),
        "two" => Said::Two(route(behind), here, other),
        "moved" => Said::Moved(route(behind), here, other),
        _ => Said::Gone(here),
    };
    (who(name), said)
}
