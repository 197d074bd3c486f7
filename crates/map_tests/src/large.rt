//! Many keys in ascending order, and their removal, and many prefixes: were paths long, these tests wouldn't end in their time.

use net_types::{Ip, Prefix};
use ordered_map::OrderedMap;
use prefix_map::PrefixMap;
use std::test::Fail;

#[test]
fn ascending_keys_come_and_go(rt: HostRuntime) -> Result<(), Fail> {
    let mut map: OrderedMap<u32, u32> = OrderedMap::new(rt.alloc());
    for key in 0..65536u32 {
        map.insert(key, key)?;
    }
    assert!(rt; map.len() == 65536);
    let mut next = 0;
    for (key, _) in map.iter() {
        assert!(rt; *key == next, "key {next}");
        next = key.saturating_add(1);
    }
    assert!(rt; next == 65536);
    for key in 0..65535u32 {
        assert!(rt; map.remove(&key) == Some(key), "key {key}");
    }
    assert!(rt; map.len() == 1);
    Ok(())
}

#[test]
fn the_first_key_goes_and_a_last_one_comes(rt: HostRuntime) -> Result<(), Fail> {
    let mut map: OrderedMap<u32, u32> = OrderedMap::new(rt.alloc());
    for key in 0..4096u32 {
        map.insert(key, key)?;
    }
    for key in 0..131072u32 {
        assert!(rt; map.take_first() == Some((key, key)), "key {key}");
        let last = key.saturating_add(4096);
        map.insert(last, last)?;
    }
    assert!(rt; map.len() == 4096);
    Ok(())
}

// The first bits of an address, as many as there are.
fn first_bits(address: u32, len: u8) -> Prefix {
    match Prefix::new(Ip(address), len) {
        Ok(prefix) => prefix,
        Err(_) => Prefix::any(),
    }
}

// The prefix of 18 bits with a number.
fn numbered(number: u32) -> Prefix {
    first_bits(number.wrapping_mul(16384), 18)
}

#[test]
fn many_prefixes_come_and_go(rt: HostRuntime) -> Result<(), Fail> {
    let mut map: PrefixMap<u32> = PrefixMap::new(rt.alloc());
    let short = first_bits(0x3000_0000, 4);
    let shorter = first_bits(0, 1);
    map.insert(short, 90000)?;
    for number in 0..50000u32 {
        map.insert(numbered(number), number)?;
    }
    map.insert(shorter, 90001)?;
    assert!(rt; map.len() == 50002);
    let mut count = 0usize;
    let mut last = None;
    for (key, _) in map.iter() {
        assert!(rt; last < Some(key), "entry {count}");
        last = Some(key);
        count = count.saturating_add(1);
    }
    assert!(rt; count == 50002);
    assert!(rt; map.entries()?.len() == 50002);
    for number in 0..50000u32 {
        let key = numbered(number);
        let found = map.longest(Ip(key.address.0 | 99));
        assert!(rt;
            found.map(|entry| (entry.0, *entry.1)) == Some((key, number)),
            "prefix {number}"
        );
        assert!(rt; map.remove(key) == Some(number), "prefix {number}");
    }
    assert!(rt; map.longest(Ip(0x3456_789a)).map(|entry| entry.0) == Some(short));
    assert!(rt; map.longest(Ip(0x2fff_ffff)).map(|entry| entry.0) == Some(shorter));
    assert!(rt; map.longest(Ip(0x4000_0000)).map(|entry| entry.0) == Some(shorter));
    assert!(rt; map.longest(Ip(0x8000_0000)).is_none());
    assert!(rt; map.len() == 2);
    Ok(())
}
