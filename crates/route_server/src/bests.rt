//! The best routes of a participant.

ghost use Rattle.std.specs.Prelude.{◌≡◌, map, IfOk};
ghost use Rattle.net_types.specs.declared.prefix.Prefix.{Prefix};
ghost use Rattle.net_types.specs.declared.route.Attrs.{Attrs};
ghost use Rattle.route_server.specs.Served.{routing, AreDeclared, AreBests};

use crate::server::RouteServer;
use net_types::{Attrs, Memory, Pid, Prefix};
use registry::Registry;

impl RouteServer {
    /// The prefixes for which a participant has a best route, in ascending order, each with the route's attributes.
    pub fn bests(&self, names: &Registry, who: Pid) -> Result<Vec<(Prefix, &Attrs)>, Memory>
        requires { AreDeclared names.now self.now.routes }
        ensures { IfOk result (λ bests. AreBests (routing names.now self.now) who (map (λ e. (e.0, e.1.now)) bests.items)) }
    {
        let mut bests = Vec::new(self.allocator());
        let all = self.prefixes()?;
        for prefix in all.as_slice() {
            match self.best_for(names, who, *prefix) {
                Some(attrs) => bests.push((*prefix, attrs))?,
                None => {}
            }
        }
        Ok(bests)
    }
}
