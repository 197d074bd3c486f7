//! The ports by which results leave.

ghost use Rattle.std.specs.Prelude.{◌≡◌, IsTrue, OnOk, false, true};
ghost use Rattle.net_types.specs.declared.headers.Loc.TheVariants.{Out};
ghost use Rattle.block_build.specs.Ports.{AllFree, AllTaken, AreFree, AreTaken, KeepPorts, is_taken};
ghost use Rattle.block_build.specs.Receivers.{received_items, received_lines};

use classifier::Line;
use net_types::{Assign, Loc, Memory, PortNo};
use place_sets::PlaceSet;

/// Whether a location is one of the ports. What is no port counts as one.
fn is_taken(ports: &PlaceSet, loc: Loc) -> bool
    ensures { result ≡ is_taken ports.now loc }
{
    match loc {
        Loc::Out(port) => ports.has(port.0 as usize),
        Loc::Stay | Loc::To(_) | Loc::Nowhere => true,
    }
}

/// Adds a location, if it is a port.
fn take(ports: &mut PlaceSet, loc: Loc) -> Result<(), Memory>
    ensures taken { OnOk result (is_taken ports.new loc ≡ true) }
    ensures kept { OnOk result (KeepPorts ports.old ports.new) }
{
    if let Loc::Out(port) = loc {
        ports.put(port.0 as usize)?;
    }
    Ok(())
}

/// Adds the ports by which items leave.
pub(crate) fn take_items(ports: &mut PlaceSet, items: &[(Assign, Loc)]) -> Result<(), Memory>
    ensures taken { OnOk result (AreTaken ports.new items.now) }
    ensures kept { OnOk result (KeepPorts ports.old ports.new) }
{
    for pair in items {
        take(ports, pair.1)?;
    }
    Ok(())
}

/// Adds the ports by which rules leave.
pub(crate) fn take_lines(ports: &mut PlaceSet, lines: &[Line]) -> Result<(), Memory>
    ensures taken { OnOk result (AllTaken ports.new lines.now) }
    ensures kept { OnOk result (KeepPorts ports.old ports.new) }
{
    for line in lines {
        take_items(ports, line.results.items())?;
    }
    Ok(())
}

/// Adds the ports by which a receiver's rules leave, with the port of a NEXT_HOP.
pub(crate) fn take_received(ports: &mut PlaceSet, hop: PortNo, lines: &[Line]) -> Result<(), Memory>
    ensures taken { OnOk result (AllTaken ports.new (received_lines hop lines.now)) }
    ensures kept { OnOk result (KeepPorts ports.old ports.new) }
{
    take(ports, Loc::Out(hop))?;
    take_lines(ports, lines)?;
    Ok(())
}

/// Whether none of the items leaves by one of the ports.
pub(crate) fn are_free(ports: &PlaceSet, items: &[(Assign, Loc)]) -> bool
    ensures { IsTrue result → AreFree ports.now items.now }
{
    for pair in items {
        if is_taken(ports, pair.1) {
            return false;
        }
    }
    true
}

/// Whether none of a receiver's results leaves by one of the ports, with the port of a NEXT_HOP.
fn are_received_free(ports: &PlaceSet, hop: PortNo, items: &[(Assign, Loc)]) -> bool
    ensures { IsTrue result → is_taken ports.now (Out hop) ≡ false → AreFree ports.now (received_items hop items.now) }
{
    for pair in items {
        if let Loc::Out(port) = pair.1 {
            if ports.has(port.0 as usize) {
                return false;
            }
        }
    }
    true
}

/// Whether nothing that a receiver's rules give leaves by one of the ports, with the port of a NEXT_HOP.
pub(crate) fn are_lines_free(ports: &PlaceSet, hop: PortNo, lines: &[Line]) -> bool
    ensures { IsTrue result → AllFree ports.now (received_lines hop lines.now) }
{
    if is_taken(ports, Loc::Out(hop)) {
        return false;
    }
    for line in lines {
        if !are_received_free(ports, hop, line.results.items()) {
            return false;
        }
    }
    true
}
