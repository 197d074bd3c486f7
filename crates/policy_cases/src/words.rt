//! Words and numbers of a question.

use net_types::Memory;
use std::alloc::Global;

/// The first word, and what stands behind it.
pub fn first_word(text: &str) -> (&str, &str) {
    text.split_once(' ').unwrap_or((text, ""))
}

/// A port; none where it is no number.
pub fn port(word: &str) -> Option<u16> {
    word.parse().ok()
}

/// What is said of a text that is no policy.
pub fn no_policy(alloc: Global) -> Result<String, Memory> {
    Ok(String::from_str(alloc, "no policy")?)
}
