//! What a line that builds rules does.

ghost use Rattle.std.specs.Prelude.{◌≡◌, ◌<◌, Some, length, slice_get};
ghost use Rattle.std.specs.Option.{option_map};
ghost use Rattle.fast_path.specs.declared.planned.FastFault.TheVariants as fault;

use block_build::Block;
use events::{Entry, Flows, TagChange, TagChanges};
use net_types::{Memory, Pair, Pairs, Pid, Pids, Prefix, Prefixes, Sig, Tag};

/// What a line that builds rules does to tags and rules. Only `plan` makes one, and it changes nothing until it is committed.
#[derive(Drop)]
pub struct Plan {
    /// The prefixes whose tag becomes another, with that tag.
    pub(crate) tags: TagChanges,
    /// The pairs whose rules are taken out.
    pub(crate) drops: Pairs,
    /// The rules that are put in.
    pub(crate) adds: Flows,
    /// The pairs whose rules are put in, in order.
    pub(crate) added: Pairs,
    /// The same rules, by pair.
    pub(crate) blocks: Vec<(Pair, Block)>,
    /// The fresh tags, with their signatures and the prefixes that get them.
    pub(crate) fresh: Vec<Class>,
    /// The tags that lose their last prefix, ascending.
    pub(crate) emptied: Vec<Tag>,
    /// Those of them that are live no more.
    pub(crate) dead: Vec<Tag>,
    /// How many prefixes the line makes carried: they get a tag and had none.
    pub(crate) newly: u64,
    /// What becomes present for the participants of the prefixes that the line touches.
    pub(crate) offers: Vec<Advert>,
    /// Whom the policy of a participant names from now on, where the line is one that says so: the signatures that are
    /// kept are trimmed by it first.
    pub(crate) named: Option<(Pid, Pids)>,
}

impl Plan {
    /// How many prefixes the line makes carried: they get a tag and had none.
    pub fn newly(&self) -> u64
        ensures { result ≡ self.now.newly }
    {
        self.newly
    }

    /// The fresh tags, with their signatures and the prefixes that get them.
    pub fn fresh(&self) -> &[Class]
        ensures { result.now ≡ self.now.fresh.items }
    {
        &self.fresh
    }

    /// The tags that lose their last prefix, ascending.
    pub fn emptied(&self) -> &[Tag]
        ensures { result.now ≡ self.now.emptied.items }
    {
        &self.emptied
    }

    /// The pairs whose rules are put in, in order, each once.
    pub fn added(&self) -> &[Pair]
        ensures { result.now ≡ self.now.added }
    {
        self.added.items()
    }

    /// The pairs whose rules are taken out: those that go, and those that are built anew.
    pub fn dropped(&self) -> &[Pair]
        ensures { result.now ≡ self.now.drops }
    {
        self.drops.items()
    }

    /// The prefixes whose tag becomes another, with that tag.
    pub fn tags(&self) -> &[TagChange]
        ensures { result.now ≡ self.now.tags }
    {
        self.tags.items()
    }

    /// How many pairs get rules: for so many there must be room in the table.
    pub fn pair_count(&self) -> usize
        ensures { result ≡ length self.now.blocks.items }
    {
        self.blocks.len()
    }

    /// The rules that are put in for the pair at a place of `added`.
    pub fn block(&self, at: usize) -> &Block
        requires { at < length self.now.blocks.items }
        ensures { option_map (λ block. block.1) (slice_get self.now.blocks.items at) ≡ Some result.now }
    {
        &self.blocks[at].1
    }
}

/// What is present of a prefix for a participant once a plan is committed; no entry where nothing is.
#[derive(Drop)]
pub struct Advert {
    pub who: Pid,
    pub prefix: Prefix,
    pub entry: Option<Entry>,
}

/// A fresh tag, with its signature and the prefixes that get it.
#[derive(Drop)]
pub struct Class {
    pub tag: Tag,
    pub sig: Sig,
    pub members: Prefixes,
}

/// What a reply says of a plan that was committed.
#[derive(Drop)]
pub struct Changes {
    pub tags: TagChanges,
    pub drops: Pairs,
    pub adds: Flows,
}

/// Why there is no plan.
#[derive(Clone, Copy, Debug, PartialEq, Eq)]
pub enum FastFault {
    /// More fresh tags are needed than are free.
    NoNextHop { need: u64, free: u32 },
    /// The table would have more rules than it has room for.
    TableFull { rules: usize, capacity: usize },
    Memory,
}

impl From<Memory> for FastFault {
    ghost from_gives = { λ _ e. e ≡ fault.Memory };

    fn from(_: Memory) -> FastFault
        ensures { result ≡ fault.Memory }
    {
        FastFault::Memory
    }
}
