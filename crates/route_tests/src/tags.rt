//! Rows of the pool's calls.

use net_types::{Ip, Mac, Tag};
use next_hop_pool::{Pool, vmac};
use std::test::Fail;

// The tag with this address is given back, where it is taken.
fn give_back(pool: &mut Pool, ip: Ip) -> bool {
    let Some(tag) = pool.tag_at(ip) else {
        return false;
    };
    if !pool.is_taken(tag) {
        return false;
    }
    pool.give_back(tag);
    true
}

#[test]
fn tags_are_taken_and_given_back(rt: HostRuntime) -> Result<(), Fail> {
    let mut pool = Pool::new(rt.alloc(), Ip(100), 3)?;
    for (tag, free) in [(1, 2), (2, 1), (3, 0)] {
        assert!(rt; pool.take_least() == Some(Tag(tag)), "tag {tag}");
        assert!(rt; pool.free() == free, "tag {tag}");
    }
    assert!(rt; pool.take_least() == None);
    assert!(rt; pool.next_free(None) == None);
    assert!(rt; give_back(&mut pool, Ip(103)));
    assert!(rt; give_back(&mut pool, Ip(101)));
    assert!(rt; !give_back(&mut pool, Ip(101)));
    let rows = [
        (None, Some(Tag(1))),
        (Some(Tag(1)), Some(Tag(3))),
        (Some(Tag(3)), None),
    ];
    for (after, next) in rows {
        assert!(rt; pool.next_free(after) == next, "behind {after:?}");
    }
    assert!(rt; pool.take_least() == Some(Tag(1)));
    assert!(rt; pool.free() == 1);
    Ok(())
}

#[test]
fn a_pool_may_have_one_tag(rt: HostRuntime) -> Result<(), Fail> {
    let mut pool = Pool::new(rt.alloc(), Ip(0xac10_0000), 1)?;
    assert!(rt; pool.free() == 1);
    assert!(rt; pool.take_least() == Some(Tag(1)));
    assert!(rt; pool.take_least() == None);
    Ok(())
}

#[test]
fn runs_of_taken_tags_are_passed(rt: HostRuntime) -> Result<(), Fail> {
    let mut pool = Pool::new(rt.alloc(), Ip(100), 1000)?;
    for tag in 1..=1000u32 {
        assert!(rt; pool.take_least() == Some(Tag(tag)), "tag {tag}");
    }
    for tag in [700u32, 256, 257] {
        assert!(rt;
            give_back(&mut pool, Ip(tag.saturating_add(100))),
            "tag {tag}"
        );
    }
    assert!(rt; pool.next_free(Some(Tag(257))) == Some(Tag(700)));
    for tag in [256, 257, 700] {
        assert!(rt; pool.take_least() == Some(Tag(tag)), "tag {tag}");
    }
    assert!(rt; pool.take_least() == None);
    Ok(())
}

#[test]
fn tags_have_addresses(rt: HostRuntime) -> Result<(), Fail> {
    let pool = Pool::new(rt.alloc(), Ip(100), 3)?;
    assert!(rt; pool.address(Tag(3)) == Ip(103));
    let rows = [
        (99, None),
        (100, None),
        (101, Some(Tag(1))),
        (103, Some(Tag(3))),
        (104, None),
    ];
    for (ip, tag) in rows {
        assert!(rt; pool.tag_at(Ip(ip)) == tag, "address {ip}");
    }
    Ok(())
}

#[test]
fn tags_have_virtual_macs(rt: HostRuntime) -> Result<(), Fail> {
    let rows = [
        (1, [2, 83, 68, 0, 0, 1]),
        (258, [2, 83, 68, 0, 1, 2]),
        (65536, [2, 83, 68, 1, 0, 0]),
    ];
    for (tag, octets) in rows {
        assert!(rt; vmac(Tag(tag)) == Mac(octets), "tag {tag}");
    }
    Ok(())
}
