//! The tokens and fields that the texts of policies and of export rules share. Each function is given the length of the
//! whole text and what is left of it, and gives what is left behind.
#![tactic(auto)]

mod fault;
mod prefixes;
mod tokens;

pub use fault::WrongOctet;
pub use prefixes::{address, prefix};
pub use tokens::{
    gap, is_letter, is_name_octet, name, next_is, number, place, sign, spaces, word, wrong,
};
