//! Who is declared, as far as isolation asks.

ghost use Rattle.std.specs.Prelude.{◌≡◌, ℕ, List, Option};
ghost use Rattle.net_types.specs.declared.address.Pid.{Pid};
ghost use Rattle.net_types.specs.declared.address.PortNo.{PortNo};

use net_types::{Pid, PortNo};
use registry::Registry;

/// Participants by their names, and ports by their owners.
pub trait Names {
    /// The participant of a name.
    ghost pid_of: { Self → List ℕ → Option Pid };

    /// The participant who declared a port.
    ghost owner_of: { Self → PortNo → Option Pid };

    fn find(&self, name: &str) -> Option<Pid>
        ensures { result ≡ pid_of self.now name.now };

    fn owner(&self, port: PortNo) -> Option<Pid>
        ensures { result ≡ owner_of self.now port };
}

/// Those that are declared.
impl Names for Registry {
    ghost use Rattle.std.specs.Option.{option_map};
    ghost use Rattle.net_types.specs.declared.route.PortInfo.{PortInfo};
    ghost use Rattle.registry.specs.Registered.{named, port_of};

    ghost pid_of = { λ r name. named r name };

    ghost owner_of = { λ r number. option_map (λ (port : PortInfo). port.owner) (port_of r number) };

    fn find(&self, name: &str) -> Option<Pid> {
        self.find_octets(name.as_bytes())
    }

    fn owner(&self, port: PortNo) -> Option<Pid> {
        match self.port(port) {
            None => None,
            Some(port) => Some(port.owner),
        }
    }
}
