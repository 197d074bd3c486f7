//! How wide policies are.

use crate::words::{first_word, no_policy};
use bumpalo::Bump;
use net_types::Memory;
use policy_compile::{count_meets, too_wide};
use policy_syntax::parse;
use std::alloc::Global;

/// `LIMIT TEXT`: the number of meets, or one more than the limit.
pub fn meets(alloc: Global, text: &str) -> Result<String, Memory> {
    let (limit, text) = first_word(text);
    let limit: u32 = limit.parse().unwrap_or(0);
    let arena = Bump::new(alloc);
    match parse(alloc, &arena, text) {
        Ok(tree) => {
            let count = count_meets(alloc, &tree, limit as usize)?;
            Ok(format!(in alloc; "{count}")?)
        }
        Err(_) => no_policy(alloc),
    }
}

/// Whether the policy is too wide.
pub fn wide(alloc: Global, text: &str) -> Result<String, Memory> {
    let arena = Bump::new(alloc);
    match parse(alloc, &arena, text) {
        Ok(tree) => {
            let wide = too_wide(alloc, &tree)?;
            Ok(String::from_str(alloc, if wide { "too wide" } else { "not too wide" })?)
        }
        Err(_) => no_policy(alloc),
    }
}
