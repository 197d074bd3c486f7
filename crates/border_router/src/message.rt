//! Reads what a router keeps of an UPDATE message.

ghost use Rattle.std.specs.Prelude.{◌≡◌, [], None, IfOk};
ghost use Rattle.net_types.specs.declared.update.Update.{Update as Value};
ghost use Rattle.border_router.specs.Hearing.{IsMessage, IsMessageOf, news_of};

use crate::heard::News;
use bgp_update::{UpdateFault, decode, messages_read_back};
use net_types::{Memory, Update};
use std::alloc::Global;

fn of_update(update: Update) -> News
    ensures { result ≡ news_of update }
{
    News {
        withdrawn: update.withdrawn,
        announced: update.announced,
        next_hop: update.attrs.as_ref().map(|attrs| attrs.next_hop),
    }
}

/// The news in a canonical UPDATE message. Memory is the only refusal.
pub fn news(alloc: Global, message: &[u8]) -> Result<News, Memory>
    requires { IsMessage message.now }
    // The news are those of the update that the message was written for.
    ensures news { (u : Value) → IsMessageOf message.now u → IfOk result (λ n. n ≡ news_of u) }
    // There is a next hop where something is announced.
    ensures next_hop { IfOk result (λ n. n.next_hop ≡ None → n.announced ≡ []) }
{
    messages_read_back();
    match decode(alloc, message) {
        Ok(update) => Ok(of_update(update)),
        Err(UpdateFault::Memory) => Err(Memory),
        Err(UpdateFault::Bad(_)) => unreachable!(),
    }
}
