//! Operations from a fixed generator, on the map and on a list that is searched from its start.

use ordered_map::OrderedMap;
use std::alloc::AllocError;
use std::mem;
use std::test::Fail;

/// Entries in the order of their keys.
#[derive(Drop)]
struct SlowMap {
    entries: Vec<(u32, u32)>,
}

impl SlowMap {
    fn place(&self, key: u32) -> usize {
        let mut at = 0;
        for entry in &self.entries {
            if key <= entry.0 {
                return at;
            }
            at = at.saturating_add(1);
        }
        at
    }

    fn get(&self, key: u32) -> Option<u32> {
        match self.entries.get(self.place(key)) {
            Some(entry) if entry.0 == key => Some(entry.1),
            _ => None,
        }
    }

    fn insert(&mut self, key: u32, value: u32) -> Result<Option<u32>, AllocError> {
        let at = self.place(key);
        match self.entries.get_mut(at) {
            Some(entry) if entry.0 == key => return Ok(Some(mem::replace(&mut entry.1, value))),
            _ => {}
        }
        if at <= self.entries.len() {
            self.entries.insert(at, (key, value))?;
        }
        Ok(None)
    }

    fn remove(&mut self, key: u32) -> Option<u32> {
        let at = self.place(key);
        match self.entries.get(at) {
            Some(entry) if entry.0 == key => {}
            _ => return None,
        }
        if at < self.entries.len() {
            return Some(self.entries.remove(at).1);
        }
        None
    }
}

// The next number of a linear congruential generator.
fn next(seed: u32) -> u32 {
    seed.wrapping_mul(1664525).wrapping_add(1013904223)
}

#[test]
fn the_map_answers_as_a_list(rt: HostRuntime) -> Result<(), Fail> {
    let mut map: OrderedMap<u32, u32> = OrderedMap::new(rt.alloc());
    let mut slow = SlowMap {
        entries: Vec::new(rt.alloc()),
    };
    let mut seed = 20201;
    for round in 0..4000u32 {
        seed = next(seed);
        let key = (seed >> 16) % 256;
        if (seed >> 8) % 3 == 0 {
            assert!(rt; map.remove(&key) == slow.remove(key), "round {round}");
        } else {
            assert!(rt;
                map.insert(key, round)? == slow.insert(key, round)?,
                "round {round}"
            );
        }
        assert!(rt; map.get(&key).copied() == slow.get(key), "round {round}");
        assert!(rt; map.len() == slow.entries.len(), "round {round}");
        let after = slow.entries.get(slow.place(key.saturating_add(1))).copied();
        assert!(rt;
            map.next_after(&key).map(|entry| (*entry.0, *entry.1)) == after,
            "round {round}"
        );
        if round % 100 == 0 {
            assert!(rt;
                map.iter()
                    .map(|entry| (*entry.0, *entry.1))
                    .eq(slow.entries.iter().copied()),
                "round {round}"
            );
        }
    }
    Ok(())
}
