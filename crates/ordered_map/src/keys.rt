//! Keys that rise.

ghost use Rattle.std.specs.Prelude.{◌≡◌, IsTrue};
ghost use Rattle.std.specs.FinMap.Entries.{is_sorted};
ghost use Rattle.ordered_map.specs.Parted.{IsParted, keyed};

/// Whether each key is less than the next one.
pub(crate) fn rise<K: Ord>(keys: &[K]) -> bool
    ensures { result ≡ is_sorted K.cmp (keyed keys.now) }
{
    let mut rest = keys;
    while let [first, others @ ..] = rest {
        if let Some(second) = others.first() {
            if !first.cmp(second).is_lt() {
                return false;
            }
        }
        rest = others;
    }
    true
}

/// Keys that rise, parted at another key.
#[derive(Drop)]
pub(crate) struct Parted<'a, K> {
    /// Those that are less.
    pub(crate) lesser: &'a [K],
    /// Whether the key is one of them.
    pub(crate) among: bool,
    /// Those that are greater.
    pub(crate) greater: &'a [K],
}

/// Parts keys at another key.
pub(crate) fn part<'a, K: Ord>(keys: &'a [K], key: &K) -> Parted<'a, K>
    requires { IsTrue (is_sorted K.cmp (keyed keys.now)) }
    ensures { IsParted K.cmp key.now keys.now result.lesser.now result.among result.greater.now }
{
    match keys.binary_search(key) {
        Ok(place) => Parted {
            lesser: &keys[..place],
            among: true,
            greater: &keys[place + 1..],
        },
        Err(place) => Parted {
            lesser: &keys[..place],
            among: false,
            greater: &keys[place..],
        },
    }
}
