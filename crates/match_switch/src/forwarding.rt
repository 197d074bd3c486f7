//! What the table makes of a frame.

ghost use Rattle.std.specs.Prelude.{◌≡◌, ◌≤◌, ◌++◌, length, map, Some, IfOk, IfSome, OnOk};
ghost use Rattle.events.specs.Table.{done_by, first_match, frame_of, mac_of, out, tag_at};
ghost use Rattle.net_types.specs.Frames.{headers_of};
ghost use Rattle.net_types.specs.declared.headers.Headers.{Headers as AnyHeaders};
ghost use Rattle.match_switch.specs.Deciding.{actions_for, decided, decided_on};

use crate::leaving::ascending;
use crate::switch::Switch;
use cube::has;
use events::{Frame, Frames};
use ip_frame::{headers, rewrite};
use net_types::{Action, Headers, Items, Mac, Memory, Pair, PortNo, Rule, Tag};
use registry::Registry;
use std::alloc::Global;

impl Switch {
    /// What is done with a frame that comes in at a port: the actions of the first rule that has its headers, of the rules
    /// of the port and the tag to whose MAC it goes. None where there is no such rule, or the frame has no headers or no
    /// tag. It takes no memory.
    pub fn decide(&self, port: PortNo, frame: &[u8]) -> &[Action]
        ensures actions { result.now ≡ decided self.now.table port frame.now }
        ensures first { IfSome (headers_of port frame.now) (λ (h : AnyHeaders). map (done_by h) result.now ≡ first_match self.now.table port frame.now) }
    {
        match headers(port, frame) {
            Some(fields) => self.decide_on(port, frame, &fields),
            None => &[],
        }
    }

    /// The frames that leave where a frame comes in at a port, by port and then octets, each once: for each action of the
    /// first rule that has its headers, the frame with the headers after that action, to the MAC of the router at the
    /// action's port (all zeros where no such port is declared). Memory is the only refusal.
    pub fn forward(
        &self,
        alloc: Global,
        names: &Registry,
        port: PortNo,
        frame: &[u8],
    ) -> Result<Frames, Memory>
        ensures { IfOk result (λ frames. frames ≡ out names.now.ports frame.now (first_match self.now.table port frame.now)) }
    {
        match headers(port, frame) {
            Some(fields) => self.forward_read(alloc, names, &fields, frame),
            None => Ok(Items::new(alloc)),
        }
    }

    /// The frames that leave where a frame comes in whose headers were read: those of `forward` at the port of the headers.
    /// Memory is the only refusal.
    pub fn forward_read(
        &self,
        alloc: Global,
        names: &Registry,
        fields: &Headers,
        frame: &[u8],
    ) -> Result<Frames, Memory>
        requires { headers_of fields.now.inport frame.now ≡ Some fields.now }
        ensures { IfOk result (λ frames. frames ≡ out names.now.ports frame.now (first_match self.now.table fields.now.inport frame.now)) }
    {
        let actions = self.decide_on(fields.inport, frame, fields);
        let mut frames = Vec::new(alloc);
        push_frames(alloc, names, frame, fields, actions, &mut frames)?;
        Ok(Items::from_vec(ascending(frames)))
    }

    /// What is done with a frame that has these headers.
    fn decide_on(&self, port: PortNo, frame: &[u8], fields: &Headers) -> &[Action]
        requires { 6 ≤ length frame.now }
        ensures { result.now ≡ decided_on self.now.table port frame.now fields.now }
    {
        let Some(tag) = tag_at(frame) else {
            return &[];
        };
        match self.rules_of(Pair { port, tag }) {
            Some(rules) => actions_for(rules, fields),
            None => &[],
        }
    }
}

/// The actions of the first rule that has the headers; none where no rule has them.
fn actions_for<'a>(rules: &'a [Rule], fields: &Headers) -> &'a [Action]
    ensures { result.now ≡ actions_for rules.now fields.now }
{
    for rule in rules {
        if has(&rule.cube, fields) {
            return rule.actions.items();
        }
    }
    &[]
}

/// Puts the frame as each of the actions sends it last.
fn push_frames(
    alloc: Global,
    names: &Registry,
    frame: &[u8],
    fields: &Headers,
    actions: &[Action],
    frames: &mut Vec<Frame>,
) -> Result<(), Memory>
    requires { headers_of fields.now.inport frame.now ≡ Some fields.now }
    ensures { OnOk result (frames.new.items ≡ frames.old.items ++ map (frame_of names.now.ports frame.now) (map (done_by fields.now) actions.now)) }
{
    for action in actions {
        frames.push(frame_by(alloc, names, frame, fields, action)?)?;
    }
    Ok(())
}

/// The frame as an action sends it.
fn frame_by(
    alloc: Global,
    names: &Registry,
    frame: &[u8],
    fields: &Headers,
    action: &Action,
) -> Result<Frame, Memory>
    requires { headers_of fields.now.inport frame.now ≡ Some fields.now }
    ensures { IfOk result (λ sent. sent ≡ frame_of names.now.ports frame.now (done_by fields.now action.now)) }
{
    let to = action.set.apply(fields);
    let mut bytes = Vec::from_slice(alloc, frame)?;
    rewrite(bytes.as_mut_slice(), &to, mac_of(names, action.port));
    Ok(Frame {
        port: action.port,
        bytes: Items::from_vec(bytes),
    })
}

/// The hardware address of the router at a port; all zeros where there is no such port.
fn mac_of(names: &Registry, number: PortNo) -> Mac
    ensures { result ≡ mac_of names.now.ports number }
{
    match names.port(number) {
        Some(port) => port.mac,
        None => Mac([0; 6]),
    }
}

/// The tag to whose MAC a frame goes.
fn tag_at(frame: &[u8]) -> Option<Tag>
    requires { 6 ≤ length frame.now }
    ensures { result ≡ tag_at frame.now }
{
    if &frame[..3] != [2u8, 83, 68].as_slice() {
        return None;
    }
    Some(Tag(65536 * u32::from(frame[3]) + 256 * u32::from(frame[4]) + u32::from(frame[5])))
}
