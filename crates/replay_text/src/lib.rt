//! Lines are read as events, and replies are written as text.
#![tactic(auto)]

mod fields;
mod front;
mod lines;
mod pieces;
mod replies;
mod reply_text;
mod rules;

pub use lines::read_line;
pub use reply_text::{ReplyText, write_reply};
