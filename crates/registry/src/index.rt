//! Sets in which a key's place is that of what it is the key of.

ghost use Rattle.std.specs.Prelude.{◌≡◌, ◌<◌, ◌++◌, ◌∷◌, [], false, slice_get};
ghost use Rattle.std.specs.Option.{option_and_then, option_copied};
ghost use Rattle.indexmap.specs.IndexSet.{contains, spare, IsUnique};

use indexmap::IndexSet;
use std::hash::Hash;

/// Puts a new key last. It takes no memory.
pub fn put<K: Eq + Hash + Drop>(keys: &mut IndexSet<K>, key: K)
    requires room { 0 < spare keys.old }
    requires absent { contains K.eq keys.old key ≡ false }
    ensures last { keys.new.keys ≡ keys.old.keys ++ key ∷ [] }
    ensures unique { IsUnique K.eq keys.new }
{
    match keys.insert(key) {
        Ok(_) => {}
        Err(_) => unreachable!(),
    }
}

/// What stands at a place, where there is a place.
pub fn at<T>(list: &[T], place: Option<usize>) -> Option<&T>
    ensures { option_copied result ≡ option_and_then (slice_get list.now) place }
{
    match place {
        Some(place) => list.get(place),
        None => None,
    }
}
