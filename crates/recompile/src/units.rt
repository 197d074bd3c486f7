//! How many units a job owes.

ghost use Rattle.std.specs.Prelude.{◌≡◌, ◌+◌, ◌*◌};
ghost use Rattle.events.specs.Tags.{capped};

/// The most that a job owes: more than all tags and pairs can need.
const MOST: u64 = 1 << 50;

/// No more than a job owes at most.
fn capped(units: u64) -> u64
    ensures { result ≡ capped units }
{
    units.min(MOST)
}

/// What a job owes at its start: one unit for each prefix that has a tag and each pair.
pub(crate) fn all_units(prefixes: usize, pairs: usize) -> u64
    ensures { result ≡ capped (prefixes + pairs) }
{
    capped((prefixes as u64).saturating_add(pairs as u64))
}

/// What a job owes after a line that makes so many prefixes carried and gives so many fresh tags, each of which may have a pair
/// at each port.
pub(crate) fn more_units(owed: u64, newly: u64, fresh: u64, ports: u64) -> u64
    ensures { result ≡ capped (owed + (newly + fresh * (ports + 1))) }
{
    let each = ports.saturating_add(1);
    let more = newly.saturating_add(fresh.saturating_mul(each));
    capped(owed.saturating_add(more))
}
