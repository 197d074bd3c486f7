//! What the table makes of frames.

use match_switch::Switch;
use net_types::{Memory, PortNo};
use registry::Registry;
use std::alloc::Global;

/// The port, and the octets of the digits behind it; none where they aren't digits.
fn frame(alloc: Global, text: &str) -> (PortNo, Option<Vec<u8>>) {
    let (port, digits) = text.split_once(' ').unwrap_or((text, ""));
    let octets = hex::decode(alloc, digits.as_bytes()).ok();
    (PortNo(port.parse().unwrap_or(0)), octets)
}

/// The ports of the actions for a frame that comes in at the port.
fn push_decided(
    text: &mut String,
    switch: &Switch,
    port: PortNo,
    frame: &[u8],
) -> Result<(), Memory> {
    text.push_str("to")?;
    for action in switch.decide(port, frame) {
        let port = action.port.0;
        write!(text, " {port}")?;
    }
    Ok(())
}

/// The frames that leave.
fn push_forwarded(
    alloc: Global,
    text: &mut String,
    names: &Registry,
    switch: &Switch,
    port: PortNo,
    frame: &[u8],
) -> Result<(), Memory> {
    for frame in switch.forward(alloc, names, port, frame)?.items() {
        let port = frame.port.0;
        write!(text, "\n  out {port} ")?;
        for octet in frame.bytes.items() {
            write!(text, "{octet:02x}")?;
        }
    }
    Ok(())
}

/// The ports of the actions.
pub fn decided(alloc: Global, switch: &Switch, text: &str) -> Result<String, Memory> {
    let mut told = String::new(alloc);
    match frame(alloc, text) {
        (port, Some(octets)) => push_decided(&mut told, switch, port, octets.as_slice())?,
        _ => told.push_str("no frame")?,
    }
    Ok(told)
}

/// The ports of the actions, and the frames that leave.
pub fn forwarded(
    alloc: Global,
    names: &Registry,
    switch: &Switch,
    text: &str,
) -> Result<String, Memory> {
    let mut told = decided(alloc, switch, text)?;
    if let (port, Some(octets)) = frame(alloc, text) {
        push_forwarded(alloc, &mut told, names, switch, port, octets.as_slice())?;
    }
    Ok(told)
}
