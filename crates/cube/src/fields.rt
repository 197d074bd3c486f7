//! Cubes field by field.

ghost use Rattle.std.specs.Prelude.{◌≡◌, nat_eq, IfSome};
ghost use Rattle.net_types.specs.Cubes.{agrees, same_port, port_is, meet_values, pull_value, pull_prefix, within_values, meet_cubes, pull_cube, lies_within_cube, IsInRange};

use net_types::{Assign, Cube, Ip, Prefix};

/// Whether a field wants any value or this one.
pub fn fits<T: Copy + PartialEq + Drop>(wanted: Option<T>, value: T) -> bool
    ensures { result ≡ agrees T.eq wanted value }
{
    match wanted {
        None => true,
        Some(wanted) => wanted == value,
    }
}

/// Whether a field wants any value, or this port, which is there.
pub fn fits_port(wanted: Option<u16>, port: Option<u16>) -> bool
    ensures { result ≡ agrees port_is wanted port }
{
    match (wanted, port) {
        (None, _) => true,
        (Some(_), None) => false,
        (Some(wanted), Some(port)) => wanted == port,
    }
}

/// The field of the values that two fields want.
pub fn meet_fields<T: Copy + PartialEq + Drop>(a: Option<T>, b: Option<T>) -> Option<Option<T>>
    ensures { result ≡ meet_values T.eq a b }
{
    match (a, b) {
        (None, _) => Some(b),
        (Some(_), None) => Some(a),
        (Some(x), Some(y)) => { if x == y { Some(a) } else { None } }
    }
}

/// Whether every value that the first field wants is wanted by the second.
pub fn is_field_within<T: Copy + PartialEq + Drop>(a: Option<T>, b: Option<T>) -> bool
    ensures { result ≡ within_values T.eq a b }
{
    match (a, b) {
        (_, None) => true,
        (None, Some(_)) => false,
        (Some(x), Some(y)) => x == y,
    }
}

/// The field before a port is assigned.
pub fn pull_port(set: Option<u16>, wanted: Option<u16>) -> Option<Option<u16>>
    ensures { result ≡ pull_value set wanted }
{
    match set {
        None => Some(wanted),
        Some(port) => { if fits(wanted, port) { Some(None) } else { None } }
    }
}

/// The prefix before an address is assigned.
pub fn pull_address(set: Option<Ip>, wanted: Prefix) -> Option<Prefix>
    ensures { result ≡ pull_prefix set wanted }
{
    match set {
        None => Some(wanted),
        Some(ip) => {
            if wanted.covers(ip) {
                Some(Prefix::any())
            } else {
                None
            }
        }
    }
}

/// Whether each field of the first cube lies within that of the second.
#[tactic(auto, unfolding(net_types::specs::Cubes::lies_within_cube))]
pub fn is_within(a: &Cube, b: &Cube) -> bool
    ensures { result ≡ lies_within_cube a.now b.now }
{
    is_field_within(a.inport, b.inport)
        && a.src.within(b.src)
        && a.dst.within(b.dst)
        && is_field_within(a.proto, b.proto)
        && is_field_within(a.sport, b.sport)
        && is_field_within(a.dport, b.dport)
}

/// The cube of the meets of the fields.
#[tactic(auto, unfolding(net_types::specs::Cubes::meet_cubes))]
fn meet_of(a: &Cube, b: &Cube) -> Option<Cube>
    ensures { result ≡ meet_cubes a.now b.now }
{
    Some(Cube {
        inport: meet_fields(a.inport, b.inport)?,
        src: a.src.meet(b.src)?,
        dst: a.dst.meet(b.dst)?,
        proto: meet_fields(a.proto, b.proto)?,
        sport: meet_fields(a.sport, b.sport)?,
        dport: meet_fields(a.dport, b.dport)?,
    })
}

/// The cube of the fields before an assignment.
#[tactic(auto, unfolding(net_types::specs::Cubes::pull_cube))]
fn pull_of(cube: &Cube, set: &Assign) -> Option<Cube>
    ensures { result ≡ pull_cube cube.now set.now }
{
    Some(Cube {
        inport: cube.inport,
        src: pull_address(set.src, cube.src)?,
        dst: pull_address(set.dst, cube.dst)?,
        proto: cube.proto,
        sport: pull_port(set.sport, cube.sport)?,
        dport: pull_port(set.dport, cube.dport)?,
    })
}

/// The values of a cube that was found are in their ranges.
fn checked(found: Option<Cube>) -> Option<Cube>
    ensures same { result ≡ found }
    ensures in_range { IfSome result IsInRange }
{
    if let Some(cube) = found {
        cube.known();
    }
    found
}

/// The meet, with values in their ranges.
pub fn checked_meet(a: &Cube, b: &Cube) -> Option<Cube>
    ensures value { result ≡ meet_cubes a.now b.now }
    ensures in_range { IfSome result IsInRange }
{
    checked(meet_of(a, b))
}

/// The cube before an assignment, with values in their ranges.
pub fn checked_pull(cube: &Cube, set: &Assign) -> Option<Cube>
    ensures value { result ≡ pull_cube cube.now set.now }
    ensures in_range { IfSome result IsInRange }
{
    checked(pull_of(cube, set))
}
