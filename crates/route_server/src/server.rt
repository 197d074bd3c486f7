//! What a route server holds.

ghost use Rattle.std.specs.Prelude.{◌≡◌, ◌-◌, take, ℕ, is_some, true, ◌<◌, ◌≤◌, ◌+◌, ◌++◌, ◌∷◌, [], length, Option, IfOk, OnOk, OnErr};
ghost use Rattle.std.specs.FinMap.{FinMap, empty, get, keys};
ghost use Rattle.std.specs.Option.{option_and_then, option_copied, option_map_or};
ghost use Rattle.net_types.specs.Changes.{best_attrs};
ghost use Rattle.net_types.specs.Keys.{RouteKey, route_cmp};
ghost use Rattle.net_types.specs.Sets.{Member};
ghost use Rattle.net_types.specs.Signatures.{signature};
ghost use Rattle.net_types.specs.declared.route.Attrs.{Attrs};
ghost use Rattle.route_server.specs.Listed.{AreListed, Lists, StandAmong, StayListed};
ghost use Rattle.route_server.specs.Proposed.{named_with};
ghost use Rattle.route_server.specs.Rows.{look, Rising};
ghost use Rattle.route_server.specs.Served.{Served, routing, AreRows, AreDeclared, route_in, one_after, route_after, Reaches, AreAll, Carries};

use crate::announced::{Announced, put_participants};
use crate::change::Change;
use crate::choices::chosen_in;
use crate::held::Held;
use crate::rows::{MOST, best_attrs_in};
use crate::signature::signature_in;
use crate::terms::Terms;
use net_types::{Attrs, ExportRules, Items, Memory, Pid, Pids, Prefix, Sig, ascending};
use prefix_map::PrefixMap;
use registry::Registry;
use std::alloc::Global;
use std::marker::Model;

/// The routes, by prefix and then by participant, each participant's export rules, and whom each participant's outbound
/// policy names in a forward. The prefixes of each participant's routes are listed too.
#[derive(Drop)]
pub struct RouteServer {
    rows: PrefixMap<Items<Held>>,
    announced: Announced,
    rules: Vec<ExportRules>,
    named: Vec<Pids>,
}

impl Model for RouteServer {
    ghost use Rattle.std.specs.Coded.{codes};
    ghost use Rattle.std.specs.FinMap as map;
    ghost use Rattle.route_server.specs.Listed.{AreListed};
    ghost use Rattle.route_server.specs.Served.{Served, routes_of, AreRows};

    ghost Value = { Served };

    ghost coded = { Prim.hlevel (codes, map.code) };

    ghost view = { λ a. record { routes = routes_of a.rows.map; rules = a.rules.items; named = a.named.items; room = a.rows.room } };

    ghost invariant = { λ a. AreRows a.rows.map × AreListed a.rows.map a.announced };
}

/// Takes down in the lists that a prefix has a row of these participants in place of the one before.
fn note_row(announced: &mut Announced, prefix: Prefix, old: Option<Items<Held>>, new: &[Pid])
    requires { (n : ℕ) → is_some (option_and_then (λ row. look row n) old) ≡ true → Lists announced.old n prefix }
    ensures kept { StayListed announced.old announced.new }
    ensures listed { (from : Pid) → Member from new.now → Lists announced.new from.0 prefix }
{
    match &old {
        Some(row) => announced.note(prefix, row.items(), new),
        None => announced.note(prefix, &[], new),
    }
}

/// Gives a prefix another row, or none where it is empty; the row before. It takes no memory, since there is room.
fn swap_row(rows: &mut PrefixMap<Items<Held>>, change: Change) -> Option<Items<Held>>
    requires room { 0 < rows.old.room }
    requires rows { AreRows rows.old.map }
    ensures before { result ≡ get rows.old.map change.prefix }
    ensures routes { (q : RouteKey) → route_in rows.new.map q ≡ one_after change (route_in rows.old.map) q }
    ensures rows { AreRows rows.new.map }
    ensures room { rows.old.room ≤ rows.new.room + 1 }
{
    if change.row.is_empty() {
        rows.remove(change.prefix)
    } else {
        rows.put(change.prefix, change.row)
    }
}

/// Gives a prefix another row, and lists it for those whose routes are new. It takes no memory, since there is room.
fn put_row(rows: &mut PrefixMap<Items<Held>>, announced: &mut Announced, change: Change)
    requires room { 0 < rows.old.room }
    requires rows { AreRows rows.old.map }
    requires listed { AreListed rows.old.map announced.old }
    ensures routes { (q : RouteKey) → route_in rows.new.map q ≡ one_after change (route_in rows.old.map) q }
    ensures rows { AreRows rows.new.map }
    ensures listed { AreListed rows.new.map announced.new }
    ensures room { rows.old.room ≤ rows.new.room + 1 }
{
    let prefix = change.prefix;
    let count = change.row.len();
    let mut pids = [Pid(0); MOST];
    put_participants(&mut pids, change.row.items());
    let old = swap_row(rows, change);
    note_row(announced, prefix, old, &pids[..count]);
}

/// Gives prefixes other rows. It takes no memory, since there is room.
fn put_rows(rows: &mut PrefixMap<Items<Held>>, announced: &mut Announced, changes: Vec<Change>)
    requires room { length changes.items ≤ rows.old.room }
    requires rows { AreRows rows.old.map }
    requires listed { AreListed rows.old.map announced.old }
    ensures routes { (q : RouteKey) → route_in rows.new.map q ≡ route_after changes.items (route_in rows.old.map) q }
    ensures rows { AreRows rows.new.map }
    ensures listed { AreListed rows.new.map announced.new }
{
    for change in changes {
        put_row(rows, announced, change);
    }
}

/// Gives a participant other names, where there are any.
fn put_names(lists: &mut Vec<Pids>, named: Option<(Pid, Pids)>)
    ensures { lists.new.items ≡ named_with named lists.old.items }
{
    if let Some((who, own)) = named {
        if let Some(place) = lists.get_mut(who.0 as usize) {
            *place = own;
        }
    }
}

/// The prefixes of a map.
fn keys_of(alloc: Global, rows: &PrefixMap<Items<Held>>) -> Result<Vec<Prefix>, Memory>
    ensures { IfOk result (λ prefixes. prefixes.items ≡ keys rows.now.map) }
{
    let mut prefixes = Vec::new(alloc);
    let mut left = rows.iter();
    while let Some((prefix, _)) = left.next() {
        prefixes.push(prefix)?;
    }
    Ok(prefixes)
}

impl RouteServer {
    /// No participants, and no routes.
    pub fn new(alloc: Global) -> RouteServer
        ensures routes { result.routes ≡ empty }
        ensures rules { result.rules ≡ [] }
        ensures named { result.named ≡ [] }
    {
        let rows = PrefixMap::new(alloc);
        RouteServer {
            rows,
            announced: Announced::new(alloc),
            rules: Vec::new(alloc),
            named: Vec::new(alloc),
        }
    }

    /// A further participant, without rules, whose policy names nobody. After want of memory nothing is another.
    pub fn add_participant(&mut self) -> Result<(), Memory>
        ensures rules { OnOk result (self.new.rules ≡ self.old.rules ++ [] ∷ []) }
        ensures named { OnOk result (self.new.named ≡ self.old.named ++ [] ∷ []) }
        ensures routes { self.new.routes ≡ self.old.routes }
        ensures unchanged { OnErr result (self.new ≡ self.old) }
    {
        let alloc = self.allocator();
        self.declare_list()?;
        self.rules.reserve(1)?;
        self.named.push(Items::new(alloc))?;
        match self.rules.push(Items::new(alloc)) {
            Ok(()) => Ok(()),
            Err(_) => unreachable!(),
        }
    }

    /// The last participant goes, with its rules and whom its policy names; its routes stay.
    pub fn drop_last(&mut self)
        ensures rules { self.new.rules ≡ take (length self.old.rules - 1) self.old.rules }
        ensures named { self.new.named ≡ take (length self.old.named - 1) self.old.named }
        ensures routes { self.new.routes ≡ self.old.routes }
    {
        self.rules.pop();
        self.named.pop();
    }

    /// Makes room for so many changes of rows.
    pub(crate) fn reserve_rows(&mut self, changes: usize) -> Result<(), Memory>
        ensures room { OnOk result (changes ≤ self.new.room) }
        ensures routes { self.new.routes ≡ self.old.routes }
        ensures rules { self.new.rules ≡ self.old.rules }
        ensures named { self.new.named ≡ self.old.named }
    {
        self.rows.reserve(changes)
    }

    /// Makes a list for a further participant, where there is none yet.
    fn declare_list(&mut self) -> Result<(), Memory>
        ensures { self.new ≡ self.old }
    {
        let alloc = self.allocator();
        self.announced.declare(alloc, self.rules.len() + 1)
    }

    /// Makes room for so many more prefixes in a participant's list.
    pub(crate) fn reserve_list(&mut self, from: Pid, prefixes: usize) -> Result<(), Memory>
        ensures { self.new ≡ self.old }
    {
        self.announced.reserve(from, prefixes)
    }

    /// Whether more than half of a participant's list is out of date. No promise rests on it.
    pub(crate) fn is_stale(&self, from: Pid) -> bool {
        self.announced.is_stale(from)
    }

    /// Gives a participant a list that is up to date.
    pub(crate) fn relist(&mut self, from: Pid, prefixes: Vec<Prefix>)
        requires { Carries self.old.routes from prefixes.items }
        ensures { self.new ≡ self.old }
    {
        self.announced.replace(from, prefixes);
    }

    /// Gives prefixes other rows, participants other rules where there are any, and a participant other names where there
    /// are any. It takes no memory.
    pub(crate) fn set(
        &mut self,
        changes: Vec<Change>,
        rules: Option<Vec<ExportRules>>,
        named: Option<(Pid, Pids)>,
    )
        requires room { length changes.items ≤ self.old.room }
        ensures routes { (m : FinMap route_cmp Attrs) → Reaches changes.items self.old.routes m → self.new.routes ≡ m }
        ensures rules { self.new.rules ≡ option_map_or (λ r. r.items) rules self.old.rules }
        ensures named { self.new.named ≡ named_with named self.old.named }
    {
        put_rows(&mut self.rows, &mut self.announced, changes);
        put_names(&mut self.named, named);
        if let Some(rules) = rules {
            self.rules = rules;
        }
    }

    /// The routes for a prefix, in order of declaration.
    pub(crate) fn row(&self, prefix: Prefix) -> &[Held]
        ensures routes { (from : Pid) → get self.now.routes (record { from = from; prefix = prefix }) ≡ look result.now from.0 }
        ensures rising { Rising 0 256 result.now }
    {
        match self.rows.get(prefix) {
            Some(row) => row.items(),
            None => &[],
        }
    }

    /// The routes for the prefix that was listed last of a participant. No promise rests on it.
    pub(crate) fn last_row(&self, from: Pid) -> &[Held] {
        match self.announced.last(from) {
            Some(prefix) => self.row(prefix),
            None => &[],
        }
    }

    /// All prefixes for which there is a route, in ascending order.
    pub(crate) fn prefixes(&self) -> Result<Vec<Prefix>, Memory>
        ensures { IfOk result (λ prefixes. AreAll self.now.routes prefixes.items) }
    {
        let prefixes = keys_of(self.allocator(), &self.rows)?;
        Ok(prefixes)
    }

    /// The prefixes that are listed of a participant, ascending, each once; all prefixes where a route may be missing in the
    /// lists.
    pub(crate) fn listed(&self, from: Pid) -> Result<Vec<Prefix>, Memory>
        ensures { IfOk result (λ prefixes. StandAmong self.now.routes from prefixes.items) }
    {
        match self.announced.listed(from) {
            Some(prefixes) => {
                let own = Vec::from_slice(self.allocator(), prefixes)?;
                Ok(ascending(own))
            }
            None => {
                let all = self.prefixes()?;
                Ok(all)
            }
        }
    }

    /// The participants' export rules, in order of declaration.
    pub(crate) fn rules(&self) -> &[ExportRules]
        ensures { result.now ≡ self.now.rules }
    {
        self.rules.as_slice()
    }

    /// Whom each participant's outbound policy names in a forward, in order of declaration.
    pub(crate) fn named(&self) -> &[Pids]
        ensures { result.now ≡ self.now.named }
    {
        self.named.as_slice()
    }

    /// What decides on the routes, with what is declared.
    pub(crate) fn terms<'a>(&'a self, names: &'a Registry) -> Terms<'a>
        ensures names { result.names.now ≡ names.now }
        ensures rules { result.rules.now ≡ self.now.rules }
        ensures named { result.named.now ≡ self.now.named }
    {
        Terms {
            names,
            rules: self.rules(),
            named: self.named(),
        }
    }

    /// The allocator that the server takes its memory from.
    pub(crate) fn allocator(&self) -> Global {
        *self.rules.allocator()
    }

    /// The attributes of a participant's best route for a prefix; none where it has none. It takes no memory.
    pub fn best_for(&self, names: &Registry, who: Pid, prefix: Prefix) -> Option<&Attrs>
        requires { AreDeclared names.now self.now.routes }
        ensures { option_copied result ≡ best_attrs (routing names.now self.now) who prefix }
    {
        let row = self.row(prefix);
        best_attrs_in(self.terms(names), row, who, prefix)
    }

    /// The signature of a prefix: a part for each participant that has a best route, in order of declaration.
    pub fn signature(&self, names: &Registry, prefix: Prefix) -> Result<Sig, Memory>
        requires { AreDeclared names.now self.now.routes }
        ensures { IfOk result (λ sig. sig ≡ signature (routing names.now self.now) prefix) }
    {
        let alloc = self.allocator();
        let terms = self.terms(names);
        let row = self.row(prefix);
        let places = chosen_in(alloc, terms, row, prefix)?;
        let sig = signature_in(alloc, terms, row, prefix, places.as_slice())?;
        Ok(sig)
    }
}
