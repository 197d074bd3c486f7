//! The row that a prefix gets.

ghost use Rattle.route_server.specs.Rows.{Rising, Rising-prop};

use crate::held::Held;
use net_types::{Items, Prefix};

/// The routes of a prefix afterwards.
#[derive(Drop)]
pub struct Change {
    pub prefix: Prefix,
    pub row: Items<Held>,
    ghost rising: { Rising 0 256 row } by { Rising-prop 0 256 row },
}
