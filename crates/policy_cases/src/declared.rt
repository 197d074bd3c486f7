//! Who is declared: A with port 1, B with the ports 2 and 3, C with port 4.

ghost use Rattle.policy_isolate.specs.SmallExchange.{letter_pid, declared_pid, declared_owner};
ghost use Rattle.std.specs.Prelude.{◌≡◌};

use net_types::{Pid, PortNo};
use policy_isolate::Names;

/// The three participants.
pub struct Declared;

fn letter_pid(letter: u8) -> Option<Pid>
    ensures { result ≡ letter_pid letter }
{
    if letter == b'A' {
        Some(Pid(0))
    } else if letter == b'B' {
        Some(Pid(1))
    } else if letter == b'C' {
        Some(Pid(2))
    } else {
        None
    }
}

impl Names for Declared {
    ghost pid_of = { λ _ name. declared_pid name };

    ghost owner_of = { λ _ port. declared_owner port.0 };

    fn find(&self, name: &str) -> Option<Pid> {
        match name.as_bytes() {
            [letter] => letter_pid(*letter),
            _ => None,
        }
    }

    fn owner(&self, port: PortNo) -> Option<Pid> {
        if port.0 == 1 {
            Some(Pid(0))
        } else if port.0 == 2 || port.0 == 3 {
            Some(Pid(1))
        } else if port.0 == 4 {
            Some(Pid(2))
        } else {
            None
        }
    }
}
