//! The map of prefixes beside a plain list of entries.

use net_types::{Ip, Memory, Prefix};
use prefix_map::PrefixMap;
use std::alloc::Global;
use std::mem;
use std::test::Fail;

/// Entries in no order.
#[derive(Drop)]
struct SlowMap {
    entries: Vec<(Prefix, u32)>,
}

impl SlowMap {
    fn get(&self, key: Prefix) -> Option<u32> {
        for entry in &self.entries {
            if entry.0 == key {
                return Some(entry.1);
            }
        }
        None
    }

    fn insert(&mut self, key: Prefix, value: u32) -> Result<Option<u32>, Memory> {
        for entry in &mut self.entries {
            if entry.0 == key {
                return Ok(Some(mem::replace(&mut entry.1, value)));
            }
        }
        self.entries.push((key, value))?;
        Ok(None)
    }

    fn remove(&mut self, key: Prefix) -> Option<u32> {
        let mut at = 0usize;
        for entry in &self.entries {
            if entry.0 == key {
                break;
            }
            at = at.saturating_add(1);
        }
        if at < self.entries.len() {
            return Some(self.entries.swap_remove(at).1);
        }
        None
    }

    fn longest(&self, ip: Ip) -> Option<(Prefix, u32)> {
        let mut best: Option<(Prefix, u32)> = None;
        for entry in &self.entries {
            if entry.0.covers(ip) {
                best = longer(best, *entry);
            }
        }
        best
    }

    fn next_after(&self, key: Prefix) -> Option<(Prefix, u32)> {
        let mut best: Option<(Prefix, u32)> = None;
        for entry in &self.entries {
            if entry.0 > key {
                best = least(best, *entry);
            }
        }
        best
    }
}

fn longer(best: Option<(Prefix, u32)>, entry: (Prefix, u32)) -> Option<(Prefix, u32)> {
    match best {
        Some(known) if known.0.len >= entry.0.len => Some(known),
        _ => Some(entry),
    }
}

fn least(best: Option<(Prefix, u32)>, entry: (Prefix, u32)) -> Option<(Prefix, u32)> {
    match best {
        Some(known) if known.0 <= entry.0 => Some(known),
        _ => Some(entry),
    }
}

// The next number of a linear congruential generator.
fn next(seed: u32) -> u32 {
    seed.wrapping_mul(1664525).wrapping_add(1013904223)
}

// Addresses that share their first bits, and lengths of every kind.
fn some_prefix(seed: u32) -> Prefix {
    let near = (seed >> 8) % 4 * 0x4000_0000 + (seed >> 10) % 8;
    let ip = if seed >> 31 == 0 {
        Ip(near)
    } else {
        Ip(0xffff_fff8 | (seed >> 10) % 8)
    };
    let len = if (seed >> 20) % 2 == 0 {
        (seed >> 13) % 33
    } else {
        28 + (seed >> 13) % 5
    };
    match u8::try_from(len) {
        Ok(len) => match Prefix::new(ip, len) {
            Ok(prefix) => prefix,
            Err(_) => Prefix::any(),
        },
        Err(_) => Prefix::any(),
    }
}

fn same_entries(map: &PrefixMap<u32>, slow: &SlowMap) -> bool {
    let mut count = 0usize;
    let mut last: Option<Prefix> = None;
    for (key, value) in map.iter() {
        if slow.get(key) != Some(*value) {
            return false;
        }
        if let Some(before) = last {
            if slow.next_after(before) != Some((key, *value)) {
                return false;
            }
        }
        last = Some(key);
        count = count.saturating_add(1);
    }
    count == slow.entries.len()
}

// The first bits of an address, as many as there are.
fn first_bits(address: u32, len: u8) -> Prefix {
    match Prefix::new(Ip(address), len) {
        Ok(prefix) => prefix,
        Err(_) => Prefix::any(),
    }
}

#[test]
fn every_length_along_one_path(rt: HostRuntime) -> Result<(), Fail> {
    let mut map: PrefixMap<u8> = PrefixMap::new(rt.alloc());
    let address = 0xffff_ffff;
    for turn in 0..2u8 {
        for step in 0..33u8 {
            // short and long ones in turn
            let len = if step % 2 == 0 { step } else { 32 - step };
            assert!(rt;
                map.insert(first_bits(address, len), len) == Ok(None),
                "turn {turn}, length {len}"
            );
        }
        assert!(rt; map.len() == 33, "turn {turn}");
        assert!(rt; map.iter().map(|entry| *entry.1).eq(0..33u8), "turn {turn}");
        assert!(rt;
            map.longest(Ip(0x7fff_ffff)).map(|entry| *entry.1) == Some(0),
            "turn {turn}"
        );
        for gone in 0..33u8 {
            let len = 32 - gone;
            assert!(rt;
                map.longest(Ip(address)).map(|entry| *entry.1) == Some(len),
                "turn {turn}, length {len}"
            );
            assert!(rt;
                map.remove(first_bits(address, len)) == Some(len),
                "turn {turn}, length {len}"
            );
            assert!(rt;
                map.get(first_bits(address, len)).is_none(),
                "turn {turn}, length {len}"
            );
        }
        assert!(rt; map.len() == 0, "turn {turn}");
        assert!(rt; map.longest(Ip(address)).is_none(), "turn {turn}");
    }
    Ok(())
}

#[test]
fn a_fork_without_a_value_goes(rt: HostRuntime) -> Result<(), Fail> {
    let mut map: PrefixMap<u8> = PrefixMap::new(rt.alloc());
    assert!(rt; map.insert(first_bits(6, 32), 1) == Ok(None));
    assert!(rt; map.insert(first_bits(7, 32), 2) == Ok(None));
    assert!(rt; map.insert(first_bits(0, 8), 3) == Ok(None));
    assert!(rt; map.get(first_bits(6, 31)).is_none());
    assert!(rt; map.remove(first_bits(6, 31)).is_none());
    assert!(rt; map.insert(first_bits(6, 31), 4) == Ok(None));
    assert!(rt; map.remove(first_bits(6, 31)) == Some(4));
    assert!(rt; map.remove(first_bits(7, 32)) == Some(2));
    assert!(rt; map.longest(Ip(7)).map(|entry| *entry.1) == Some(3));
    assert!(rt; map.longest(Ip(6)).map(|entry| *entry.1) == Some(1));
    assert!(rt; map.remove(first_bits(0, 8)) == Some(3));
    assert!(rt; map.longest(Ip(7)).is_none());
    assert!(rt; map.iter().map(|entry| *entry.1).eq(1..2u8));
    Ok(())
}

// A change and look-ups beside a list: whether all answers are alike.
fn are_alike(
    map: &mut PrefixMap<u32>,
    slow: &mut SlowMap,
    round: u32,
    seed: u32,
) -> Result<bool, Memory> {
    let key = some_prefix(seed);
    let removing = if round / 1000 % 2 == 0 { 3 } else { 7 };
    let changed = if (next(seed) >> 8) % 10 < removing {
        map.remove(key) == slow.remove(key)
    } else {
        map.insert(key, round)? == slow.insert(key, round)?
    };
    let ip = some_prefix(next(next(seed))).address;
    let longest = map.longest(ip).map(|entry| (entry.0, *entry.1));
    Ok(
        changed
            && map.get(key).copied() == slow.get(key)
            && map.len() == slow.entries.len()
            && longest == slow.longest(ip),
    )
}

// Whether the walks over both are alike, and the list that the map makes of its entries.
fn are_alike_whole(map: &PrefixMap<u32>, slow: &SlowMap) -> Result<bool, Memory> {
    let entries = map.entries()?;
    let walked = map.iter().map(|entry| (entry.0, *entry.1));
    Ok(same_entries(map, slow) && entries.iter().map(|entry| (entry.0, *entry.1)).eq(walked))
}

// The first round, if any, in which a map and a list differ. In one of them room is made for so many prefixes that they stand in a
// table from then on.
fn first_difference(alloc: Global, table_round: u32) -> Result<Option<u32>, Memory> {
    let mut map: PrefixMap<u32> = PrefixMap::new(alloc);
    let mut slow = SlowMap {
        entries: Vec::new(alloc),
    };
    let mut seed = 20201;
    for round in 0..6000u32 {
        if round == table_round {
            map.reserve(40000)?;
        }
        seed = next(next(next(seed)));
        if !are_alike(&mut map, &mut slow, round, seed)? {
            return Ok(Some(round));
        }
        if round % 100 == 0 && !are_alike_whole(&map, &slow)? {
            return Ok(Some(round));
        }
    }
    Ok(None)
}

#[test]
fn prefixes_answer_as_a_list(rt: HostRuntime) -> Result<(), Fail> {
    assert!(rt; first_difference(rt.alloc(), u32::MAX)? == None);
    Ok(())
}

#[test]
fn many_prefixes_answer_as_a_list(rt: HostRuntime) -> Result<(), Fail> {
    assert!(rt; first_difference(rt.alloc(), 0)? == None);
    Ok(())
}

#[test]
fn prefixes_that_become_many_answer_as_a_list(rt: HostRuntime) -> Result<(), Fail> {
    assert!(rt; first_difference(rt.alloc(), 3500)? == None);
    Ok(())
}
