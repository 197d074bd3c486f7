//! Who is declared: the participants A, B, C and D, with the ports 1, 2, 3 and 4.

use net_types::{Ip, Mac, Pid, PortNo};
use registry::{RegFault, Registry};
use std::alloc::Global;

/// The four participants. The address and the MAC of each port end in its number.
pub fn four(alloc: Global) -> Result<Registry, RegFault> {
    let mut names = Registry::new(alloc);
    for (name, number) in [("A", 1), ("B", 2), ("C", 3), ("D", 4)] {
        let who = names.add_participant(name, 65000 + number as u32, Ip(number as u32))?;
        if (who.0 as usize) < names.participants().len() {
            let mac = Mac([2, 0, 0, 0, 0, number]);
            names.add_port(who, PortNo(number as u16), Ip(number as u32), mac)?;
        }
    }
    Ok(names)
}
