//! Cubes that hold others.

ghost use Rattle.std.specs.Prelude.{◌≡◌};
ghost use Rattle.classifier.specs.Hulls.{common_value, common_prefix, hull_cube, hull_with};

use crate::line::Line;
use net_types::{Cube, Prefix};

/// The value that both fields want; any value where they differ.
fn common_field<T: Copy + PartialEq + Drop>(a: Option<T>, b: Option<T>) -> Option<T>
    ensures { result ≡ common_value T.eq a b }
{
    match (a, b) {
        (Some(x), Some(y)) => { if x == y { Some(x) } else { None } }
        _ => None,
    }
}

/// The wider of two prefixes of which one lies within the other; else all addresses.
fn common_addresses(a: Prefix, b: Prefix) -> Prefix
    ensures { result ≡ common_prefix a b }
{
    if a.within(b) {
        b
    } else if b.within(a) {
        a
    } else {
        Prefix::any()
    }
}

/// A cube that holds both.
fn hull(a: &Cube, b: &Cube) -> Cube
    ensures { result ≡ hull_cube a.now b.now }
{
    Cube {
        inport: common_field(a.inport, b.inport),
        src: common_addresses(a.src, b.src),
        dst: common_addresses(a.dst, b.dst),
        proto: common_field(a.proto, b.proto),
        sport: common_field(a.sport, b.sport),
        dport: common_field(a.dport, b.dport),
    }
}

/// A cube that holds one cube and those of some rules.
pub fn hull_of(first: Cube, lines: &[Line]) -> Cube
    ensures { result ≡ hull_with first lines.now }
{
    let mut all = first;
    for line in lines {
        all = hull(&all, &line.cube);
    }
    all
}
