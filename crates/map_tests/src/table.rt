//! Tables of tags beside maps.

use net_types::Tag;
use ordered_map::{Change, Lapse, OrderedMap};
use std::test::Fail;
use tag_table::TagTable;

/// Adds to a value.
#[derive(Clone, Copy)]
struct Add(u32);

impl Change<u32> for Add {
    ghost use Rattle.std.specs.Prelude.{◌+◌, ◌%◌, ◌^◌};

    ghost changed = { λ a v. (v + a.0) % 2 ^ 32 };

    fn change(&self, value: &mut u32) {
        *value = value.wrapping_add(self.0);
    }
}

/// How often it may be spent.
#[derive(Clone, Copy)]
struct Left {
    times: u8,
}

impl Lapse for Left {
    ghost use Rattle.std.specs.Prelude.{nat_eq};

    ghost lapsed = { λ a. nat_eq a.times 0 };

    fn has_lapsed(&self) -> bool {
        self.times == 0
    }
}

/// Spends a value once.
#[derive(Clone, Copy)]
struct Spend;

impl Change<Left> for Spend {
    ghost use Rattle.std.specs.Prelude.{◌-◌};

    ghost changed = { λ a v. record v { times = v.times - 1 } };

    fn change(&self, value: &mut Left) {
        value.times = value.times.saturating_sub(1);
    }
}

// The next number of a linear congruential generator.
fn next(seed: u32) -> u32 {
    seed.wrapping_mul(1664525).wrapping_add(1013904223)
}

// Whether a table has a map's entries, from the first one on and from a tag.
fn are_same(table: &TagTable<u32>, map: &OrderedMap<Tag, u32>, tag: Tag) -> bool {
    let all = table
        .iter()
        .map(|entry| (entry.0, *entry.1))
        .eq(map.iter().map(|entry| (*entry.0, *entry.1)));
    let after = table
        .iter_after(tag)
        .map(|entry| (entry.0, *entry.1))
        .eq(map.iter_after(&tag).map(|entry| (*entry.0, *entry.1)));
    all && after && table.len() == map.len()
}

#[test]
fn a_table_answers_as_a_map(rt: HostRuntime) -> Result<(), Fail> {
    let mut table: TagTable<u32> = TagTable::new(rt.alloc());
    let mut map: OrderedMap<Tag, u32> = OrderedMap::new(rt.alloc());
    let mut seed = 20201;
    for round in 0..3000u32 {
        seed = next(seed);
        let tag = Tag((seed >> 16) % 200);
        match (seed >> 8) % 5 {
            0 => assert!(rt; table.remove(tag) == map.remove(&tag), "round {round}"),
            1 => {
                map.reserve(1)?;
                table.reserve(200)?;
                table.change_or_put(tag, &Add(3), round);
                map.change_or_put(tag, &Add(3), round);
            }
            2 => {
                table.change(tag, &Add(7));
                map.change(&tag, &Add(7));
            }
            _ => {
                table.reserve(200)?;
                let before = table.put(tag, round);
                assert!(rt; before == map.insert(tag, round)?, "round {round}");
            }
        }
        assert!(rt;
            table.get(tag).copied() == map.get(&tag).copied(),
            "round {round}"
        );
        if round % 100 == 0 {
            table.change_all(&Add(1));
            map.change_all(&Add(1));
            assert!(rt; are_same(&table, &map, tag), "round {round}");
        }
    }
    let tags = [Tag(150), Tag(3), Tag(900), Tag(77), Tag(3)];
    table.remove_each(&tags);
    map.remove_each(&tags);
    assert!(rt; are_same(&table, &map, Tag(900)));
    Ok(())
}

#[test]
fn the_values_of_tags_lapse(rt: HostRuntime) -> Result<(), Fail> {
    let mut table: TagTable<Left> = TagTable::new(rt.alloc());
    for (number, times) in [(50, 1), (20, 2), (40, 1), (10, 3), (30, 1)] {
        table.reserve(number as usize + 1)?;
        table.put(Tag(number), Left { times });
    }
    for number in [40, 20, 25, 10, 40, 50, 99] {
        table.change_or_remove(Tag(number), &Spend);
    }
    assert_eq!(rt; table.len(), 3);
    let mut entries = table.iter().map(|entry| (entry.0.0, entry.1.times));
    assert!(rt; entries.eq([(10, 2), (20, 1), (30, 1)]));
    Ok(())
}

#[test]
fn a_loop_walks_over_a_table(rt: HostRuntime) -> Result<(), Fail> {
    let mut table: TagTable<u32> = TagTable::new(rt.alloc());
    for number in [5, 0, 2] {
        table.reserve(number as usize + 1)?;
        table.put(Tag(number), 1);
    }
    let mut seen = Vec::new(rt.alloc());
    for (tag, value) in table.iter() {
        seen.push((tag.0, *value))?;
    }
    assert!(rt; seen.iter().copied().eq([(0, 1), (2, 1), (5, 1)]));
    assert!(rt; table.iter_after(Tag(5)).next().is_none());
    Ok(())
}
