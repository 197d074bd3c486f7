//! Tests and operations on cubes, as sets of headers.

ghost use Rattle.std.specs.Prelude.{◌≡◌, ◌&&◌, ◌↔◌, IsTrue, IfSome, MatchOption};
ghost use Rattle.net_types.specs.declared.headers.Headers.{Headers as AnyHeaders};
ghost use Rattle.net_types.specs.Headers.{IsValid, apply};
ghost use Rattle.net_types.specs.Cubes.{has, meet_cubes, pull_cube, lies_within_cube};

use crate::fields;
use net_types::{Assign, Cube, Headers};

/// Whether headers lie in a cube.
#[tactic(auto, unfolding(net_types::specs::Cubes::has))]
pub fn has(cube: &Cube, h: &Headers) -> bool
    ensures { result ≡ has cube.now h.now }
{
    fields::fits(cube.inport, h.inport)
        && cube.src.covers(h.src)
        && cube.dst.covers(h.dst)
        && fields::fits(cube.proto, h.proto)
        && fields::fits_port(cube.sport, h.sport)
        && fields::fits_port(cube.dport, h.dport)
}

/// Whether all headers of the first cube lie in the second.
pub fn within(a: &Cube, b: &Cube) -> bool
    ensures value { result ≡ lies_within_cube a.now b.now }
    ensures subset { IsTrue result
        ↔ ((h : AnyHeaders) → IsValid h → IsTrue (has a.now h) → IsTrue (has b.now h)) }
{
    a.known();
    fields::is_within(a, b)
}

/// The cube of the headers that lie in both; none where no headers do.
pub fn meet(a: &Cube, b: &Cube) -> Option<Cube>
    ensures value { result ≡ meet_cubes a.now b.now }
    ensures none { MatchOption result
        ((h : AnyHeaders) → IsTrue (has a.now h && has b.now h) → ⊥)
        (λ c. (h : AnyHeaders) × IsValid h × IsTrue (has c h)) }
    ensures both { IfSome result (λ c. (h : AnyHeaders) → has c h ≡ (has a.now h && has b.now h)) }
{
    fields::checked_meet(a, b)
}

/// The cube of the headers that an assignment takes into a cube; none where there are none.
pub fn pull(cube: &Cube, set: &Assign) -> Option<Cube>
    ensures value { result ≡ pull_cube cube.now set.now }
    ensures none { MatchOption result
        ((h : AnyHeaders) → IsTrue (has cube.now (apply set.now h)) → ⊥)
        (λ c. (h : AnyHeaders) × IsValid h × IsTrue (has c h)) }
    ensures taken { IfSome result (λ c. (h : AnyHeaders) → has c h ≡ has cube.now (apply set.now h)) }
{
    fields::checked_pull(cube, set)
}
