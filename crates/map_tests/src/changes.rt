//! Values that change where they stand, and walks from a key.

use ordered_map::{Change, Lapse, OrderedMap};
use std::test::Fail;

/// Adds to a value.
#[derive(Clone, Copy)]
struct Add(u8);

impl Change<u8> for Add {
    ghost use Rattle.std.specs.Prelude.{◌+◌, ◌%◌};

    ghost changed = { λ a v. (v + a.0) % 256 };

    fn change(&self, value: &mut u8) {
        *value = value.wrapping_add(self.0);
    }
}

/// How often it may be spent.
#[derive(Clone, Copy)]
struct Left {
    times: u8,
}

impl Lapse for Left {
    ghost use Rattle.std.specs.Prelude.{nat_eq};

    ghost lapsed = { λ a. nat_eq a.times 0 };

    fn has_lapsed(&self) -> bool {
        self.times == 0
    }
}

/// Spends a value once.
#[derive(Clone, Copy)]
struct Spend;

impl Change<Left> for Spend {
    ghost use Rattle.std.specs.Prelude.{◌-◌};

    ghost changed = { λ a v. record v { times = v.times - 1 } };

    fn change(&self, value: &mut Left) {
        value.times = value.times.saturating_sub(1);
    }
}

#[test]
fn values_change_in_their_place(rt: HostRuntime) -> Result<(), Fail> {
    let mut map: OrderedMap<u32, u8> = OrderedMap::new(rt.alloc());
    for key in [50, 20, 40, 10, 30] {
        map.insert(key, 1)?;
    }
    map.change(&40, &Add(5));
    map.change(&45, &Add(7));
    map.change_all(&Add(1));
    let values = [(10, 2), (20, 2), (30, 2), (40, 7), (50, 2)];
    assert!(rt; map.iter().map(|entry| (*entry.0, *entry.1)).eq(values));
    assert!(rt; map.iter_after(&20).map(|entry| *entry.0).eq([30, 40, 50]));
    assert!(rt; map.iter_after(&25).map(|entry| *entry.0).eq([30, 40, 50]));
    assert!(rt; map.iter_after(&50).next().is_none());
    Ok(())
}

#[test]
fn a_value_is_changed_or_given(rt: HostRuntime) -> Result<(), Fail> {
    let mut map: OrderedMap<u32, u8> = OrderedMap::new(rt.alloc());
    for key in [30, 20, 10, 20, 40, 10, 20] {
        map.reserve(1)?;
        map.change_or_put(key, &Add(5), 1);
    }
    assert!(rt;
        map.iter()
            .map(|entry| (*entry.0, *entry.1))
            .eq([(10, 6), (20, 11), (30, 1), (40, 1)])
    );
    assert_eq!(rt; map.len(), 4);
    Ok(())
}

#[test]
fn a_value_lapses(rt: HostRuntime) -> Result<(), Fail> {
    let mut map: OrderedMap<u32, Left> = OrderedMap::new(rt.alloc());
    for (key, times) in [(50, 1), (20, 2), (40, 1), (10, 3), (30, 1)] {
        map.insert(key, Left { times })?;
    }
    for key in [40, 20, 25, 10, 40, 50] {
        map.change_or_remove(&key, &Spend);
    }
    assert!(rt;
        map.iter()
            .map(|entry| (*entry.0, entry.1.times))
            .eq([(10, 2), (20, 1), (30, 1)])
    );
    assert_eq!(rt; map.len(), 3);
    Ok(())
}

#[test]
fn the_first_entries_are_taken(rt: HostRuntime) -> Result<(), Fail> {
    let mut map: OrderedMap<u32, u8> = OrderedMap::new(rt.alloc());
    for key in [50, 20, 40, 10, 30] {
        map.insert(key, 1)?;
    }
    assert_eq!(rt; map.take_first(), Some((10, 1)));
    assert_eq!(rt; map.take_first(), Some((20, 1)));
    assert!(rt; map.iter().map(|entry| *entry.0).eq([30, 40, 50]));
    assert_eq!(rt; map.len(), 3);
    Ok(())
}
