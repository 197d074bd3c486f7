//! The pool of tags.

use crate::words::{first_word, number, push_tag};
use crate::wrong::Wrong;
use net_types::{Ip, Memory, Tag};
use next_hop_pool::Pool;
use std::alloc::Global;

fn told(alloc: Global, tag: Option<Tag>) -> Result<String, Memory> {
    let mut told = String::new(alloc);
    push_tag(&mut told, tag)?;
    Ok(told)
}

/// The number of the address that four numbers between dots are.
fn address(text: &str) -> Result<u32, Wrong> {
    let mut value = 0u32;
    for word in text.split('.') {
        let Ok(octet) = word.parse::<u8>() else {
            return Err(Wrong::Row);
        };
        value = value.wrapping_mul(256).wrapping_add(octet as u32);
    }
    Ok(value)
}

/// Another pool: the address before its first one, and its size.
pub fn start(alloc: Global, pool: &mut Pool, text: &str) -> Result<String, Wrong> {
    let (base, size) = first_word(text);
    let (base, size) = (address(base)?, number(size)?);
    if size == 0 || size > 65536 || base.checked_add(size).is_none() {
        return Err(Wrong::Row);
    }
    *pool = Pool::new(alloc, Ip(base), size)?;
    free(alloc, pool)
}

/// How many tags are free.
pub fn free(alloc: Global, pool: &Pool) -> Result<String, Wrong> {
    let free = pool.free();
    Ok(format!(in alloc; "{free} free")?)
}

/// Takes the least free tag.
pub fn take_least(alloc: Global, pool: &mut Pool) -> Result<String, Wrong> {
    Ok(told(alloc, pool.take_least())?)
}

/// The least free tag behind another one, or of all.
pub fn next(alloc: Global, pool: &Pool, text: &str) -> Result<String, Wrong> {
    let after = if text.is_empty() {
        None
    } else {
        Some(Tag(number(text)?))
    };
    Ok(told(alloc, pool.next_free(after))?)
}

/// The tag of an address is given back, where it is taken.
pub fn give_back(alloc: Global, pool: &mut Pool, text: &str) -> Result<String, Wrong> {
    let Some(tag) = pool.tag_at(Ip(address(text)?)) else {
        return Err(Wrong::Row);
    };
    if !pool.is_taken(tag) {
        return Err(Wrong::Row);
    }
    pool.give_back(tag);
    free(alloc, pool)
}
