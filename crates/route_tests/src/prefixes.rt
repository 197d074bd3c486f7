//! Rows of the map's calls.

use net_types::{Ip, Memory, Prefix};
use prefix_map::PrefixMap;
use std::alloc::Global;
use std::test::Fail;

fn prefix(octets: [u8; 4], len: u8) -> Result<Prefix, Memory> {
    Prefix::new(Ip(u32::from_be_bytes(octets)), len).map_err(|_| Memory)
}

fn halves(alloc: Global) -> Result<PrefixMap<u32>, Memory> {
    let mut map = PrefixMap::new(alloc);
    map.insert(prefix([255, 255, 255, 255], 32)?, 3)?;
    map.insert(prefix([0, 0, 0, 0], 0)?, 1)?;
    map.insert(prefix([128, 0, 0, 0], 1)?, 2)?;
    Ok(map)
}

#[test]
fn the_longest_prefix_that_covers(rt: HostRuntime) -> Result<(), Fail> {
    let mut map = halves(rt.alloc())?;
    let low = Ip(u32::from_be_bytes([127, 255, 255, 255]));
    let rows = [
        (low, [0, 0, 0, 0], 0, 1),
        (Ip(u32::MAX - 1), [128, 0, 0, 0], 1, 2),
        (Ip(u32::MAX), [255, 255, 255, 255], 32, 3),
    ];
    for (ip, octets, len, value) in rows {
        assert!(rt;
            map.longest(ip) == Some((prefix(octets, len)?, &value)),
            "length {len}"
        );
    }
    assert!(rt; map.remove(Prefix::any()) == Some(1));
    assert!(rt; map.longest(low) == None);
    Ok(())
}

#[test]
fn a_prefix_is_given_a_value_twice(rt: HostRuntime) -> Result<(), Fail> {
    let ten = prefix([10, 0, 0, 0], 8)?;
    let mut map = PrefixMap::new(rt.alloc());
    map.reserve(1)?;
    assert!(rt; map.insert(ten, 1)? == None);
    assert!(rt; map.insert(ten, 1)? == Some(1));
    map.reserve(1)?;
    assert!(rt; map.put(Prefix::any(), 2) == None);
    assert!(rt; map.insert(Prefix::any(), 3)? == Some(2));
    assert!(rt; map.get(Prefix::any()) == Some(&3));
    Ok(())
}

#[test]
fn prefixes_ascend(rt: HostRuntime) -> Result<(), Fail> {
    let map = halves(rt.alloc())?;
    assert!(rt; map.len() == 3);
    let mut values = Vec::new(rt.alloc());
    for (_, value) in map.iter() {
        values.push(*value)?;
    }
    assert!(rt; values.as_slice() == [1, 2, 3].as_slice());
    Ok(())
}
