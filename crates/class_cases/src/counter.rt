//! A counter of steps whose value can be printed.

ghost use Rattle.std.specs.Prelude.{◌≡◌, ◌<◌, ◌+◌, IsTrue, OnErr, OnOk, is_some, min};
ghost use Rattle.std.specs.FinMap as map;
ghost use Rattle.block_build.specs.Offers.{each_once};
ghost use Rattle.block_build.specs.Views.{has_all};
ghost use Rattle.net_types.specs.Answers.{is_offered};
ghost use Rattle.net_types.specs.Maps.{put_option};
ghost use Rattle.prefix_classes.specs.Classes.{members};

use block_build::{Block, BuildFault, View, build, build_tight};
use net_types::{Memory, Part, PortNo, Rule, Steps, Tag};
use prefix_classes::{ClassMap, Grouping};
use std::alloc::Global;
use std::marker::Model;
use std::sync::ledger::{Blank, Ledger};

/// A counter of steps, which takes nothing when the program runs, beside a number that is its value. The number stands still
/// at its type's end.
#[derive(Drop)]
pub struct Counter<L: Ledger> {
    steps: Steps<L>,
    count: u64,
}

impl<L: Ledger> Model for Counter<L> {
    ghost use Rattle.std.specs.Prelude.{ℕ, ◌≡◌, min};

    ghost Value = { ℕ };

    ghost view = { λ c. c.steps };

    ghost invariant = { λ c. c.count ≡ min c.steps 18446744073709551615 };
}

impl<L: Ledger> Counter<L> {
    /// A counter at 0.
    pub fn new(rt: &HostRuntime, blank: Blank) -> Counter<L>
        requires name { blank.name ≡ L.name }
        requires parts { blank.parts ≡ L.parts }
        requires whole { blank.parts ≡ 1 }
        ensures { result ≡ 0 }
    {
        let steps = Steps::new(rt, blank);
        Counter { steps, count: 0 }
    }

    /// How many steps were counted.
    pub fn count(&self) -> u64
        ensures { result ≡ min self.now 18446744073709551615 }
    {
        self.count
    }

    /// Places a tag with members.
    pub fn place(
        &mut self,
        grouping: &mut Grouping,
        classes: &ClassMap,
        tag: Tag,
    ) -> Result<(), Memory>
        requires { 0 < members classes.now.tag tag }
        ensures kept { IsTrue (is_some (map.get classes.now.kept tag)) }
        ensures placed { OnOk result (grouping.new ≡ put_option tag (map.get classes.now.kept tag) grouping.old) }
        ensures unchanged { OnErr result (grouping.new ≡ grouping.old) }
        ensures step { self.new ≡ self.old + 1 }
    {
        let placed = grouping.place(classes, tag, &mut self.steps);
        self.count = self.count.saturating_add(1);
        placed
    }

    /// Builds the rules of a pair.
    pub fn build(
        &mut self,
        alloc: Global,
        view: &View<'_>,
        port: PortNo,
        part: &Part,
        room: usize,
    ) -> Result<Block, BuildFault>
        requires best { IsTrue (is_offered part.now.offers part.now.best) }
        requires once { IsTrue (each_once part.now.offers) }
        requires all { IsTrue (has_all view.now part.now.offers) }
        ensures step { self.new ≡ self.old + 1 }
    {
        let built = build(alloc, view, port, part, room, &mut self.steps);
        self.count = self.count.saturating_add(1);
        built
    }

    /// Makes rules tight.
    pub fn tighten(&mut self, alloc: Global, old: &[Rule]) -> Result<Block, Memory>
        ensures step { self.new ≡ self.old + 1 }
    {
        let made = build_tight(alloc, old, &mut self.steps);
        self.count = self.count.saturating_add(1);
        made
    }
}
