//! The rules of one pair of a port and a tag, from the classifiers of a sender and its receivers.
#![tactic(auto)]

mod actions;
mod alone;
mod atoms;
mod block;
mod blocks;
mod building;
mod by_cells;
mod cutting;
mod exits;
mod few;
mod given;
mod group;
mod grouped;
mod groups;
mod holding;
mod joining;
mod kept;
mod known;
mod laws;
mod offers;
mod ports;
mod receive;
mod received;
mod rows;
mod same;
mod sending;
mod spread;
mod stop;
mod tables;
mod tested;
mod tight;
mod turned;
mod uncut;
mod view;
mod views;

pub use block::{Block, BuildFault};
pub use blocks::Blocks;
pub use building::{build, build_with};
pub use laws::{
    no_inports, no_more_cells, right_for_policies, right_for_views, tight_forms_stay_right,
    views_are_of,
};
pub use same::same_rules;
pub use tables::Workshop;
pub use tight::build_tight;
pub use view::View;
pub use views::Views;
