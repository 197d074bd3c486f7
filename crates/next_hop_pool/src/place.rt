//! The search for a free place.

ghost use Rattle.std.specs.Prelude.{◌≡◌, ◌≤◌, ◌<◌, ◌+◌, ◌*◌, ◌/◌, ℕ, true, false, length, slice_index_or};
ghost use Rattle.next_hop_pool.specs.Runs.{AreMarked};

/// How many places a run has. Of each run it is marked whether all its places are taken.
pub(crate) const RUN: usize = 256;

/// The first place at `from` or above that isn't taken, or else the length or more. It passes a marked run in one step.
pub(crate) fn first_free(taken: &[bool], full: &[bool], from: usize) -> usize
    requires marked { AreMarked taken.now full.now }
    requires small { length taken.now ≤ 65536 }
    ensures from { from ≤ result }
    ensures skipped { (k : ℕ) → from ≤ k → k < result → slice_index_or taken.now k true ≡ true }
    ensures free { result < length taken.now → slice_index_or taken.now result true ≡ false }
{
    let mut at = from;
    while at < taken.len() && taken[at] {
        at += passed(full, at);
    }
    at
}

/// How many places to pass at a taken one: its run, where it begins one that is marked, and else the place alone.
fn passed(full: &[bool], at: usize) -> usize
    requires { at < 256 * length full.now }
    ensures some { 0 < result }
    ensures few { result ≤ 256 }
    ensures marked { (k : ℕ) → at < k → k < at + result → slice_index_or full.now (k / 256) false ≡ true }
{
    if at % RUN > 0 {
        return 1;
    }
    if full[at / RUN] { RUN } else { 1 }
}
