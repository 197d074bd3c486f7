//! Many keys that leave a map at once.

use ordered_map::OrderedMap;
use std::alloc::{AllocError, Global};
use std::test::Fail;

/// A map of so many keys.
fn filled(alloc: Global, keys: u32) -> Result<OrderedMap<u32, u32>, AllocError> {
    let mut map = OrderedMap::new(alloc);
    for key in 0..keys {
        map.insert(key, key)?;
    }
    Ok(map)
}

#[test]
fn keys_leave_at_once(rt: HostRuntime) -> Result<(), Fail> {
    for step in 1..9usize {
        let mut keys = Vec::new(rt.alloc());
        for key in (0..5000u32).step_by(step) {
            keys.push(key)?;
        }
        for turn in 0..3u8 {
            let mut map = filled(rt.alloc(), 4096)?;
            let mut slow = filled(rt.alloc(), 4096)?;
            if turn == 1 {
                keys.reverse();
            }
            if turn == 2 {
                keys.push(3)?;
            }
            map.remove_each(&keys);
            for key in keys.iter() {
                slow.remove(key);
            }
            assert!(rt; map.len() == slow.len(), "step {step}, turn {turn}");
            assert!(rt;
                map.iter()
                    .map(|entry| (*entry.0, *entry.1))
                    .eq(slow.iter().map(|entry| (*entry.0, *entry.1))),
                "step {step}, turn {turn}"
            );
            for key in 0..64u32 {
                map.insert(key, key)?;
                assert!(rt; map.get(&key) == Some(&key), "step {step}, turn {turn}");
            }
        }
    }
    Ok(())
}
