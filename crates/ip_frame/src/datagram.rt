//! Puts datagrams into frames.

ghost use Rattle.std.specs.Prelude.{◌≡◌, ◌++◌, ◌∷◌, IfOk};

use net_types::{Mac, Memory};
use std::alloc::Global;

/// The frame from one MAC to another that carries an IPv4 datagram. Memory is the only refusal.
pub fn wrap(alloc: Global, datagram: &[u8], src: Mac, dst: Mac) -> Result<Vec<u8>, Memory>
    ensures { IfOk result (λ frame. frame.items ≡ dst.0 ++ src.0 ++ 8 ∷ 0 ∷ datagram.now) }
{
    let mut frame = Vec::with_capacity(alloc, 14 + datagram.len())?;
    frame.extend_from_slice(&dst.0)?;
    frame.extend_from_slice(&src.0)?;
    frame.extend_from_slice(&[8, 0])?;
    frame.extend_from_slice(datagram)?;
    Ok(frame)
}
